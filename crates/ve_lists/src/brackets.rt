// Tests of the brackets of lists and their items.
ghost use Rattle.std.specs.Prelude.{◌≡◌, ◌≤◌, ◌<◌, [], ◌∷◌, true, None, length, option_map, IfSome};
ghost use Rattle.model_items.specs.Plain.{plain, plain_list};
ghost use Rattle.model_items.specs.Offsets.{opens_at};
ghost use Rattle.model_items.specs.Offsets as offsets;
ghost use Rattle.model_edit.specs.Brackets.{is_opening_of, is_closing_of};
ghost use Rattle.model_edit.specs.Lists.{passes_before};
ghost use Rattle.model_edit.specs.Lists as model;
ghost use Rattle.ve_offsets.specs.Docs.{IsDoc};
ghost use Rattle.ve_lists.specs.Moved.{open_of, nested_in};

use ve_edits::{opening_round, same_kind};
use ve_items::Item;
use ve_kinds::Kind;
use ve_offsets::{Doc, state_at};

/// A list: its kind and the position of its opening.
#[derive(Clone, Copy)]
pub struct ListStart {
    pub kind: Kind,
    pub from: usize,
}

/// Whether the item opens a node of the kind.
fn opens(item: Item, kind: Kind) -> bool
    ensures { (values : _) → result ≡ is_opening_of kind (plain values item) }
{
    match item {
        Item::Char { .. } => false,
        Item::Closing { .. } => false,
        Item::Opening { kind: opened, .. } => same_kind(opened, kind),
    }
}

/// Whether the item closes a node of the kind.
fn closes(item: Item, kind: Kind) -> bool
    ensures { (values : _) → result ≡ is_closing_of kind (plain values item) }
{
    match item {
        Item::Char { .. } => false,
        Item::Opening { .. } => false,
        Item::Closing { kind: closed, .. } => same_kind(closed, kind),
    }
}

/// The closing of a kind.
pub fn closing(kind: Kind) -> Item
    ensures { result ≡ Item.Closing kind None }
{
    Item::Closing { kind, pre: None }
}

/// Whether a list item begins at a position.
pub fn is_list_item(doc: Doc<'_>, at: usize) -> bool
    ensures within { result ≡ true → at < length doc.entry.list.now.items }
    ensures means { (values : _)
        → result ≡ model.is_list_item (plain_list values doc.entry.list.now.items) at }
{
    if at >= doc.list.len() {
        return false;
    }
    opens(doc.list.get(at), Kind::Li)
}

/// Whether the item just before a position closes a node of the kind.
pub fn closes_before(doc: Doc<'_>, at: usize, kind: Kind) -> bool
    requires { at ≤ length doc.list.now.items }
    ensures after { result ≡ true → 0 < at }
    ensures means { (values : _)
        → result
        ≡ passes_before (is_closing_of kind) (plain_list values doc.entry.list.now.items) at }
{
    if at == 0 {
        return false;
    }
    closes(doc.list.get(at - 1), kind)
}

/// The kind of the innermost node that is open at an offset, or the root.
pub fn kind_at(doc: Doc<'_>, o: usize) -> Kind
    requires doc { IsDoc doc }
    requires within { o ≤ length doc.list.now.items }
    ensures { (values : _)
        → result ≡ offsets.kind_at (plain_list values doc.entry.list.now.items) o }
{
    let state = state_at(doc, o);
    if state.depth() == 0 {
        return Kind::Root;
    }
    state.kind(0)
}

/// The innermost node that is open at an offset, where the next one out is a list item.
pub fn nested_list(doc: Doc<'_>, o: usize) -> Option<ListStart>
    requires doc { IsDoc doc }
    requires within { o ≤ length doc.list.now.items }
    ensures within { IfSome result (λ list. list.from < length doc.entry.list.now.items) }
    ensures means { (values : _)
        → option_map open_of result
        ≡ nested_in (opens_at (plain_list values doc.entry.list.now.items) o) }
{
    let state = state_at(doc, o);
    if state.depth() < 2 {
        return None;
    }
    let from = opening_round(doc, o);
    if !same_kind(state.kind(1), Kind::Li) {
        return None;
    }
    Some(ListStart {
        kind: state.kind(0),
        from,
    })
}
