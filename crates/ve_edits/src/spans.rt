// Ranges of a page's list: which are none, and which hold a bracket of the internal list.
ghost use Rattle.std.specs.Prelude.{◌≡◌, ◌≤◌, ◌<◌, true, false, length};
ghost use Rattle.model_items.specs.Plain.{plain, plain_list};
ghost use Rattle.model_edit.specs.Brackets.{is_internal_bracket};
ghost use Rattle.model_edit.specs.Brackets as brackets;
ghost use Rattle.model_edit.specs.Insert as insert;
ghost use Rattle.model_items.specs.Offsets as model;
ghost use Rattle.ve_offsets.specs.Docs.{IsDoc};

use ve_items::Item;
use ve_kinds::{Kind, is_inline_leaf};
use ve_offsets::{Doc, is_inside_leaf};

fn inside_leaf(doc: Doc<'_>, o: usize) -> bool
    requires doc { IsDoc doc }
    requires within { o ≤ length doc.list.now.items }
    ensures { (values : _)
        → result ≡ model.is_inside_leaf (plain_list values doc.entry.list.now.items) o }
{
    is_inside_leaf(doc, o)
}

/// Whether a range is none of the list, or has an end inside a leaf.
pub fn is_bad_span(doc: Doc<'_>, from: usize, to: usize) -> bool
    requires doc { IsDoc doc }
    ensures bad { (values : _)
        → result ≡ model.is_bad_span (plain_list values doc.entry.list.now.items) from to }
    ensures order { result ≡ false → from < to }
    ensures within { result ≡ false → to ≤ length doc.entry.list.now.items }
{
    if to <= from {
        return true;
    }
    if doc.list.len() < to {
        return true;
    }
    inside_leaf(doc, from) || inside_leaf(doc, to)
}

/// Whether a kind is the internal list's, or that of one of its items.
pub fn is_internal(kind: Kind) -> bool
    ensures { result ≡ brackets.is_internal kind }
{
    kind == Kind::InternalList || kind == Kind::InternalItem
}

/// Whether an item is a character or the opening of an inline leaf.
pub fn is_content_item(item: Item) -> bool
    ensures { (values : _) → result ≡ insert.is_content_item (plain values item) }
{
    match item {
        Item::Char { .. } => true,
        Item::Opening { kind, .. } => is_inline_leaf(kind),
        Item::Closing { .. } => false,
    }
}

/// Whether an item is a bracket of the internal list or of one of its items.
pub fn is_internal_item(item: Item) -> bool
    ensures { (values : _) → result ≡ is_internal_bracket (plain values item) }
{
    match item {
        Item::Char { .. } => false,
        Item::Opening { kind, .. } => is_internal(kind),
        Item::Closing { kind, .. } => is_internal(kind),
    }
}

/// Whether a range holds a bracket of the internal list or of one of its items.
pub fn has_internal(doc: Doc<'_>, from: usize, to: usize) -> bool
    requires within { to ≤ length doc.list.now.items }
    ensures { (values : _)
        → result
        ≡ model.some_in_range is_internal_bracket (plain_list values doc.entry.list.now.items)
        from to }
{
    for at in from..to {
        if is_internal_item(doc.list.get(at)) {
            return true;
        }
    }
    false
}
