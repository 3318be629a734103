// Lists that are written as the page that they were read from.
ghost use Rattle.std.specs.Prelude.{◌≡◌, ◌++◌, true, OnOk, OnErr, IsUtf8};
ghost use Rattle.model_items.specs.Law.{Lawful};
ghost use Rattle.model_items.specs.Plain.{plain_list};
ghost use Rattle.model_page.specs.Editable.{all_refer};
ghost use Rattle.model_page_write.specs.PageText.{write};
ghost use Rattle.ve_origin.specs.Known.{AreKnown};
ghost use Rattle.ve_write.specs.Originals.{opened_over, IsFirst};
ghost use Rattle.ve_write.specs.Siblings.{AllCite};

use crate::bodies::body_texts;
use crate::references::references;
use crate::{First, Page, put_list};
use std::alloc::Global;
use ve_base::{Bytes, Memory};
use ve_items::Linear;
use ve_origin::{Known, Origins};
use ve_store::Store;

/// Appends the page that a list gives, after the page that was first read: its text before the
/// body, the nodes of the list, and its text after the body. A node that is still as it was first
/// read is copied. Every other is written afresh, with each body at the reference that carries it.
/// An `Err` changes nothing.
///
/// The list has to be lawful, and its references editable. The list as it was first read has to
/// cite values of this store, and its table is given. Each row has to be the range of a node of
/// that list, before its internal list, and each origin in it the number of a row.
pub fn write<'a>(
    alloc: Global,
    list: &Linear,
    store: &Store,
    origins: &'a Origins<'a>,
    out: &mut Bytes,
) -> Result<(), Memory>
    requires cites { AllCite store.now list.now.items }
    requires refers { all_refer (plain_list store.now list.now.items) ≡ true }
    requires lawful { Lawful (plain_list store.now list.now.items) }
    requires first { IsFirst store.now origins.now }
    ensures ok { OnOk result (
        out.new
        ≡ out.old
        ++ write (opened_over store.now origins.now) (plain_list store.now list.now.items)) }
    ensures err { OnErr result (out.new ≡ out.old) }
    ensures utf8 { OnOk result (IsUtf8 out.old → IsUtf8 out.new) }
{
    write_knowing(alloc, list, store, origins, Known::nothing(), out)
}

/// As `write`, for a caller that knows some items to be as they were first read: the run has to be
/// alike in this list and in the one that was first read. It isn't compared again.
pub fn write_knowing<'a>(
    alloc: Global,
    list: &Linear,
    store: &Store,
    origins: &'a Origins<'a>,
    known: Known,
    out: &mut Bytes,
) -> Result<(), Memory>
    requires cites { AllCite store.now list.now.items }
    requires refers { all_refer (plain_list store.now list.now.items) ≡ true }
    requires lawful { Lawful (plain_list store.now list.now.items) }
    requires first { IsFirst store.now origins.now }
    requires known { AreKnown list.now.items origins.now.items known }
    ensures ok { OnOk result (
        out.new
        ≡ out.old
        ++ write (opened_over store.now origins.now) (plain_list store.now list.now.items)) }
    ensures err { OnErr result (out.new ≡ out.old) }
    ensures utf8 { OnOk result (IsUtf8 out.old → IsUtf8 out.new) }
{
    let refs = references(alloc, list, store)?;
    let texts = body_texts(alloc, list, store, &refs)?;
    let first = Some(First { origins });
    let page = Page {
        list,
        store,
        texts: &texts,
        refs: &refs,
        first,
    };
    let mut text = Bytes::new(alloc);
    text.push(origins.head().as_bytes())?;
    put_list(alloc, &mut text, page, known)?;
    text.push(origins.tail().as_bytes())?;
    out.push(text.as_slice())
}
