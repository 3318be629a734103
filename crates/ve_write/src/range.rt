// Ranges that are written afresh.
ghost use Rattle.std.specs.Prelude.{◌≡◌, ◌≤◌, ◌++◌, true, OnOk, OnErr, IfOk, IfSome, IsUtf8, length, slice_range};
ghost use Rattle.std.specs.List.{list_any};
ghost use Rattle.model_items.specs.Law.{Lawful};
ghost use Rattle.model_items.specs.Plain.{plain_list};
ghost use Rattle.model_page.specs.Editable.{all_refer};
ghost use Rattle.model_page.specs.References.{table};
ghost use Rattle.model_page_write.specs.Range.{fresh_range};
ghost use Rattle.ve_write.specs.Siblings.{AllCite};
ghost use Rattle.ve_write.specs.Range.{carried_in, stands_in, AreSiblings, AreTextsIn};
ghost use Rattle.ve_write.specs.Told.{text_of};

use crate::bodies::{body_text, carried_at, notes_at};
use crate::{Page, put_blocks};
use indexmap::IndexMap;
use model_page::{RefRow, RefTable};
use std::alloc::Global;
use ve_base::{Bytes, Memory, Text};
use ve_items::Linear;
use ve_origin::Known;
use ve_store::Store;

/// The items of a range, as a list by themselves.
fn cut_out(alloc: Global, list: &Linear, from: usize, to: usize) -> Result<Linear, Memory>
    requires order { from ≤ to }
    requires within { to ≤ length list.now.items }
    ensures { IfOk result (λ cut. cut.items ≡ slice_range list.now.items from to) }
{
    let mut cut = Linear::new(alloc);
    let mut at = from;
    while at < to {
        let piece = list.piece(at, to);
        cut.extend(piece)?;
        at += piece.len();
    }
    Ok(cut)
}

fn stands_in(at: usize, from: usize, to: usize) -> bool
    ensures { result ≡ stands_in from to at }
{
    from <= at && at < to
}

/// Whether some reference stands in a range.
fn some_stand_in(rows: &[RefRow], from: usize, to: usize) -> bool
    ensures { result ≡ list_any (λ row. stands_in from to row.at) rows.now }
{
    for row in rows {
        if stands_in(row.at, from, to) {
            return true;
        }
    }
    false
}

/// Where the internal item opens whose body a reference carries, if it stands in a range.
fn carried_in(row: &RefRow, notes: usize, from: usize, to: usize) -> Option<usize>
    ensures carried { result ≡ carried_in from to notes row.now }
    ensures after { IfSome result (λ at. from ≤ row.now.at) }
{
    if !stands_in(row.at, from, to) {
        return None;
    }
    carried_at(row, notes)
}

/// The text of each body that a reference in a range carries, by the position of the reference in
/// it. `refs` is the table of the list, which is read for its internal list only where a reference
/// stands in the range.
fn range_texts(
    alloc: Global,
    list: &Linear,
    store: &Store,
    refs: &RefTable,
    from: usize,
    to: usize,
) -> Result<IndexMap<usize, Text>, Memory>
    requires cites { AllCite store.now list.now.items }
    requires refers { all_refer (plain_list store.now list.now.items) ≡ true }
    requires refs { refs.now ≡ table (plain_list store.now list.now.items) }
    ensures { IfOk result (λ texts.
        AreTextsIn (plain_list store.now list.now.items) from to (text_of texts)) }
{
    if !some_stand_in(refs.as_slice(), from, to) {
        return Ok(IndexMap::new(alloc));
    }
    let notes = notes_at(list);
    let mut texts = IndexMap::new(alloc);
    for row in refs.as_slice() {
        if let Some(at) = carried_in(row, notes, from, to) {
            texts.insert(row.at - from, body_text(alloc, list, store, at)?)?;
        }
    }
    Ok(texts)
}

/// Appends the nodes of a range, which is cut out and written as a list by itself.
fn put_range(
    alloc: Global,
    out: &mut Bytes,
    list: &Linear,
    store: &Store,
    refs: &RefTable,
    from: usize,
    to: usize,
) -> Result<(), Memory>
    requires cites { AllCite store.now list.now.items }
    requires refers { all_refer (plain_list store.now list.now.items) ≡ true }
    requires lawful { Lawful (plain_list store.now list.now.items) }
    requires refs { refs.now ≡ table (plain_list store.now list.now.items) }
    requires siblings { AreSiblings (plain_list store.now list.now.items) from to }
    ensures text { OnOk result (
        out.new ≡ out.old ++ fresh_range (plain_list store.now list.now.items) from to) }
    ensures utf8 { OnOk result (IsUtf8 out.old → IsUtf8 out.new) }
{
    let cut = cut_out(alloc, list, from, to)?;
    let texts = range_texts(alloc, list, store, refs, from, to)?;
    let none = RefTable::new(alloc);
    let page = Page {
        list: &cut,
        store,
        texts: &texts,
        refs: &none,
        first: None,
    };
    put_blocks(alloc, out, page, 0, Known::nothing())?;
    Ok(())
}

/// Appends the nodes of a range, all written afresh, as if nothing stood beside them: no origin is
/// looked at, and the whitespace before the item after the range isn't written. Each body is
/// written at the reference that carries it in the list. An `Err` changes nothing.
///
/// The list has to be lawful, its references editable, and `refs` its table. The range has to be
/// whole siblings, in a node that holds blocks or outside all nodes.
pub fn write_fresh_range(
    alloc: Global,
    list: &Linear,
    store: &Store,
    refs: &RefTable,
    from: usize,
    to: usize,
    out: &mut Bytes,
) -> Result<(), Memory>
    requires cites { AllCite store.now list.now.items }
    requires refers { all_refer (plain_list store.now list.now.items) ≡ true }
    requires lawful { Lawful (plain_list store.now list.now.items) }
    requires refs { refs.now ≡ table (plain_list store.now list.now.items) }
    requires siblings { AreSiblings (plain_list store.now list.now.items) from to }
    ensures ok { OnOk result (
        out.new ≡ out.old ++ fresh_range (plain_list store.now list.now.items) from to) }
    ensures err { OnErr result (out.new ≡ out.old) }
    ensures utf8 { OnOk result (IsUtf8 out.old → IsUtf8 out.new) }
{
    let mut text = Bytes::new(alloc);
    put_range(alloc, &mut text, list, store, refs, from, to)?;
    out.push(text.as_slice())
}
