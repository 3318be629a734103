// Nodes that are as they were in the page that was first read.
ghost use Rattle.std.specs.Prelude.{◌≡◌, ◌≤◌, ◌<◌, ◌+◌, ◌∷◌, false, List, length, drop, option_map, IfSome, IsTrue};
ghost use Rattle.model_items.specs.declared.item.Item.{Item as Cited};
ghost use Rattle.model_items.specs.Plain.{plain_list};
ghost use Rattle.ve_write.specs.After.{IsNode};
ghost use Rattle.ve_write.specs.Siblings.{AllCite, is_end};
ghost use Rattle.ve_write.specs.Originals.{origin_of, originals_of, read_of};
ghost use Rattle.ve_write.specs.Told.{IsKnownOf, LendsFirst, StandsBefore};

use crate::first_page::Page;
use model_items::Item;
use ve_origin::Known;

/// How far the node at a position is alike with its origin's, once the two were compared; `item` is
/// the item there.
pub fn compared_at(page: Page<'_, '_>, at: usize, item: Item, known: Known) -> Known
    requires within { at < length page.list.now.items }
    requires known { IsKnownOf page known }
    ensures { IsKnownOf page.entry result }
{
    let Some(first) = page.first else {
        return known;
    };
    let Item::Opening {
        origin: Some(k),
        ..
    } = item
    else {
        return known;
    };
    if k as usize >= first.origins.len() {
        return known;
    }
    first.origins.compared(k, page.list, at, page.refs, known)
}

/// Whether the item at a position opens a node whose items are all known to be as they were first
/// read. It compares nothing.
pub fn is_known_at(page: Page<'_, '_>, at: usize, item: Item, known: Known) -> bool
    ensures { IsTrue result → (items : List Cited) → is_end (item ∷ items) ≡ false }
{
    let Some(first) = page.first else {
        return false;
    };
    let Item::Opening {
        origin: Some(k),
        ..
    } = item
    else {
        return false;
    };
    if k as usize >= first.origins.len() {
        return false;
    }
    first.origins.is_known(k, at, known)
}

/// A node as it was first read: its bytes, and how many items it has.
#[derive(Clone, Copy)]
pub struct Original<'b> {
    pub text: &'b str,
    pub count: usize,
}

/// The node at a position as it was first read, if it is kept; its opening has this origin. Items
/// that are known to be alike aren't compared again, and its end is found without a walk.
pub fn original_at<'b>(
    page: Page<'_, 'b>,
    at: usize,
    origin: Option<u32>,
    known: Known,
) -> Option<Original<'b>>
    requires cites { AllCite page.store.now page.list.now.items }
    requires lent { LendsFirst page }
    requires before { StandsBefore page at }
    requires within { at ≤ length page.list.now.items }
    requires origin { origin_of (drop at (plain_list page.store.now page.list.now.items)) ≡ origin }
    requires known { IsKnownOf page known }
    ensures text { option_map (λ original. original.text.now) result
        ≡ originals_of (read_of page.entry.first) page.entry.store.now page.entry.list.now.items at }
    ensures more { IfSome result (λ original. 0 < original.count) }
    ensures within { IfSome result (λ original.
        at + original.count ≤ length page.entry.list.now.items) }
    ensures node { IfSome result (λ original.
        IsNode page.entry.list.now.items at (at + original.count)) }
{
    // its type keeps that its values are distinct, which `len` tells
    let _values = page.store.len();
    let Some(first) = page.first else {
        return None;
    };
    let Some(k) = origin else {
        return None;
    };
    // the page had no such origin, so none of its nodes has it
    if k as usize >= first.origins.len() {
        return None;
    }
    if !first.origins.kept_after(k, page.list, at, page.refs, known) {
        return None;
    }
    Some(Original {
        text: first.origins.part(k),
        count: first.origins.count(k),
    })
}
