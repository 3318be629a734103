// Lists that are written afresh.
ghost use Rattle.std.specs.Prelude.{◌≡◌, ◌++◌, true, OnOk, OnErr, IsUtf8};
ghost use Rattle.model_items.specs.Law.{Lawful};
ghost use Rattle.model_items.specs.Plain.{plain_list};
ghost use Rattle.model_page.specs.Editable.{all_refer};
ghost use Rattle.model_page_write.specs.PageText.{fresh};
ghost use Rattle.ve_write.specs.Siblings.{AllCite};

use crate::bodies::body_texts;
use crate::references::references;
use crate::{Page, put_list};
use std::alloc::Global;
use ve_base::{Bytes, Memory};
use ve_items::Linear;
use ve_origin::Known;
use ve_store::Store;

/// Appends the nodes of a list, all written afresh: no origin is looked at. Each body is written at
/// the reference that carries it. An `Err` changes nothing.
pub fn write_fresh(
    alloc: Global,
    list: &Linear,
    store: &Store,
    out: &mut Bytes,
) -> Result<(), Memory>
    requires cites { AllCite store.now list.now.items }
    requires refers { all_refer (plain_list store.now list.now.items) ≡ true }
    requires lawful { Lawful (plain_list store.now list.now.items) }
    ensures ok { OnOk result (out.new ≡ out.old ++ fresh (plain_list store.now list.now.items)) }
    ensures err { OnErr result (out.new ≡ out.old) }
    ensures utf8 { OnOk result (IsUtf8 out.old → IsUtf8 out.new) }
{
    let refs = references(alloc, list, store)?;
    let texts = body_texts(alloc, list, store, &refs)?;
    let page = Page {
        list,
        store,
        texts: &texts,
        refs: &refs,
        first: None,
    };
    let mut text = Bytes::new(alloc);
    put_list(alloc, &mut text, page, Known::nothing())?;
    out.push(text.as_slice())
}
