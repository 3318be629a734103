// Whole lists, and bodies.
ghost use Rattle.std.specs.Prelude.{◌≡◌, ◌<◌, ◌+◌, ◌++◌, true, OnOk, length, drop, IsUtf8};
ghost use Rattle.model_items.specs.Law.{Lawful};
ghost use Rattle.model_items.specs.Plain.{plain_list};
ghost use Rattle.model_page.specs.Editable.{all_refer};
ghost use Rattle.model_page.specs.References.{body_after};
ghost use Rattle.model_page_write.specs.PageText.{html_of};
ghost use Rattle.ve_write.specs.Siblings.{AllCite};
ghost use Rattle.ve_write.specs.Originals.{list_text, read_of};
ghost use Rattle.ve_write.specs.Told.{text_of, AreBodyTexts, IsKnownOf, LendsFirst};

use crate::after_siblings;
use crate::blocks::put_blocks;
use crate::first_page::{Page, put_white};
use indexmap::IndexMap;
use model_page::RefTable;
use std::alloc::Global;
use ve_base::{Bytes, Memory};
use ve_items::Linear;
use ve_origin::Known;
use ve_store::Store;

/// Appends the whole list: the bytes of nodes that are kept, and the text of all others. The texts
/// that are borrowed with it have to be those of all bodies that its references carry. Items that
/// are known to be as they were first read aren't compared again.
pub fn put_list(
    alloc: Global,
    out: &mut Bytes,
    page: Page<'_, '_>,
    known: Known,
) -> Result<(), Memory>
    requires cites { AllCite page.store.now page.list.now.items }
    requires refers { all_refer (plain_list page.store.now page.list.now.items) ≡ true }
    requires lawful { Lawful (plain_list page.store.now page.list.now.items) }
    requires lent { LendsFirst page }
    requires texts { AreBodyTexts (plain_list page.store.now page.list.now.items)
        (text_of page.texts.now) }
    requires known { IsKnownOf page known }
    ensures text { OnOk result (out.new ≡ out.old ++ list_text (read_of page.entry.first) page.entry.store.now
        (plain_list page.entry.store.now page.entry.list.now.items)) }
    ensures utf8 { OnOk result (IsUtf8 out.old → IsUtf8 out.new) }
{
    put_blocks(alloc, out, page, 0, known)?;
    Ok(())
}

/// Appends the text of the body whose internal item stands at a position of the list. References in
/// it carry no bodies.
pub fn put_body(
    alloc: Global,
    out: &mut Bytes,
    list: &Linear,
    store: &Store,
    at: usize,
) -> Result<(), Memory>
    requires cites { AllCite store.now list.now.items }
    requires refers { all_refer (plain_list store.now list.now.items) ≡ true }
    requires within { at < length list.now.items }
    ensures text { OnOk result (
        out.new
        ≡ out.old
        ++ html_of (body_after at (plain_list store.now (drop (at + 1) list.now.items)))) }
    ensures utf8 { OnOk result (IsUtf8 out.old → IsUtf8 out.new) }
{
    // a list's length fits, and so does each position in it
    let _len = list.len();
    let texts = IndexMap::new(alloc);
    let refs = RefTable::new(alloc);
    let page = Page {
        list,
        store,
        texts: &texts,
        refs: &refs,
        first: None,
    };
    let end = put_blocks(alloc, out, page, at + 1, Known::nothing())?;
    put_white(out, store, after_siblings(list, end).pre)?;
    Ok(())
}
