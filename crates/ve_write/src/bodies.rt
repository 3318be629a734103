// The texts of the bodies that references carry.
ghost use Rattle.std.specs.Prelude.{◌≡◌, ◌≤◌, ◌<◌, ◌+◌, true, List, length, encode_utf8_all, IfOk};
ghost use Rattle.ve_base.specs.declared.value.Value.{Value as Cited};
ghost use Rattle.model_items.specs.Plain.{plain, plain_list};
ghost use Rattle.model_page.specs.Editable.{all_refer};
ghost use Rattle.model_page.specs.References.{table};
ghost use Rattle.ve_write.specs.Siblings.{AllCite};
ghost use Rattle.ve_write.specs.Told.{text_of, AreBodyTexts};
ghost use Rattle.ve_origin.specs.Kept.{opens_notes};
ghost use Rattle.ve_write.specs.BodyTexts.{carried_outside, notes_place, text_at};

use crate::put_body;
use indexmap::IndexMap;
use model_items::Item;
use model_page::{RefRow, RefTable};
use std::alloc::Global;
use ve_base::{Bytes, Memory, Text};
use ve_items::Linear;
use ve_kinds::Kind;
use ve_store::Store;

fn opens_notes(item: Item) -> bool
    ensures { (values : List Cited) → result ≡ opens_notes (plain values item) }
{
    match item {
        Item::Opening { kind, .. } => kind == Kind::InternalList,
        Item::Char { .. } => false,
        Item::Closing { .. } => false,
    }
}

/// Where the internal list opens in a piece, or the length of a piece without it.
fn notes_in(items: &[Item]) -> usize
    ensures place { (values : List Cited) → result ≡ notes_place (plain_list values items.now) }
    ensures within { result ≤ length items.now }
{
    let mut at = 0;
    while at < items.len() && !opens_notes(items[at]) {
        at += 1;
    }
    at
}

/// Where the internal list opens, or the length of a list without one. It goes over borrowed
/// pieces.
pub fn notes_at(list: &Linear) -> usize
    ensures { (values : List Cited) → result ≡ notes_place (plain_list values list.now.items) }
{
    let len = list.len();
    let mut at = 0;
    while at < len {
        let piece = list.piece(at, len);
        let passed = notes_in(piece);
        at += passed;
        if passed < piece.len() {
            return at;
        }
    }
    at
}

/// Where the internal item opens whose body a reference carries. One that stands past the opening
/// of the internal list is in it, and carries none.
pub fn carried_at(row: &RefRow, notes: usize) -> Option<usize>
    ensures { result ≡ carried_outside notes row.now }
{
    if notes < row.at {
        return None;
    }
    if row.carrier { row.body_at } else { None }
}

/// The text of the body whose internal item stands at a position.
pub fn body_text(alloc: Global, list: &Linear, store: &Store, at: usize) -> Result<Text, Memory>
    requires cites { AllCite store.now list.now.items }
    requires refers { all_refer (plain_list store.now list.now.items) ≡ true }
    requires within { at < length list.now.items }
    ensures { IfOk result (λ text.
        encode_utf8_all text ≡ text_at (plain_list store.now list.now.items) at) }
{
    let mut spelled = Bytes::new(alloc);
    put_body(alloc, &mut spelled, list, store, at)?;
    let Ok(text) = std::str::from_utf8(spelled.as_slice()) else {
        unreachable!()
    };
    Ok(Text::from_str(alloc, text)?)
}

/// The text of each body that a reference carries, by the position of the reference. `refs` is the
/// table of the list, which isn't read where there are no references.
pub fn body_texts(
    alloc: Global,
    list: &Linear,
    store: &Store,
    refs: &RefTable,
) -> Result<IndexMap<usize, Text>, Memory>
    requires cites { AllCite store.now list.now.items }
    requires refers { all_refer (plain_list store.now list.now.items) ≡ true }
    requires refs { refs.now ≡ table (plain_list store.now list.now.items) }
    ensures { IfOk result (λ texts.
        AreBodyTexts (plain_list store.now list.now.items) (text_of texts)) }
{
    if refs.as_slice().is_empty() {
        return Ok(IndexMap::new(alloc));
    }
    let notes = notes_at(list);
    let mut texts = IndexMap::new(alloc);
    for row in refs.as_slice() {
        if let Some(at) = carried_at(row, notes) {
            texts.insert(row.at, body_text(alloc, list, store, at)?)?;
        }
    }
    Ok(texts)
}
