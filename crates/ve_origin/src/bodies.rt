// Whether two references carry the same body.
ghost use Rattle.std.specs.Prelude.{◌≡◌, ◌≤◌, ◌<◌, ◌+◌, ◌^◌, ◌∷◌, ◌↔◌, ◌&&◌, [], ℕ, Option, IsTrue, drop, length};
ghost use Rattle.ve_origin.specs.Bodies.{cited_inside, closes, depth_after, AreSameBodies, Compares, IsAtMost};

use model_items::Item;
use ve_items::{Linear, same_item};

/// The result of comparing two bodies in step; `Open` has how many nodes are open in both.
#[derive(Clone, Copy, Debug)]
enum Compared {
    Same,
    Different,
    Open(usize),
}

/// Whether the node that is open closes at an item, where so many more are open in it.
fn closes(depth: usize, item: Item) -> bool
    ensures { result ≡ closes depth item }
{
    match item {
        Item::Closing { .. } => depth == 0,
        Item::Char { .. } => false,
        Item::Opening { .. } => false,
    }
}

fn depth_after(depth: usize, item: Item) -> usize
    requires { depth + 1 < 2 ^ 64 }
    ensures depth { result ≡ depth_after depth item }
    ensures bound { result ≤ depth + 1 }
{
    match item {
        Item::Char { .. } => depth,
        Item::Opening { .. } => depth + 1,
        Item::Closing { .. } => depth.saturating_sub(1),
    }
}

fn both_close(depth: usize, one: Item, other: Item) -> bool
    ensures { result ≡ (closes depth one && closes depth other) }
{
    closes(depth, one) && closes(depth, other)
}

/// Compares an item of each body.
fn compare_items(depth: usize, one: Item, other: Item) -> Compared
    requires { depth + 1 < 2 ^ 64 }
    ensures found { Compares depth (one ∷ []) (other ∷ []) result }
    ensures bound { IsAtMost result (depth + 1) }
{
    if both_close(depth, one, other) {
        return Compared::Same;
    }
    if !same_item(one, other) {
        return Compared::Different;
    }
    Compared::Open(depth_after(depth, one))
}

/// Compares a piece of each body, of one length.
fn compare_pieces(depth: usize, one: &[Item], other: &[Item]) -> Compared
    requires lengths { length one.now ≡ length other.now }
    requires bound { depth + length one.now < 2 ^ 64 }
    ensures found { Compares depth one.now other.now result }
    ensures bound { IsAtMost result (depth + length one.now) }
{
    let mut open = depth;
    let mut i = 0;
    while i < one.len() {
        match compare_items(open, one[i], other[i]) {
            Compared::Same => return Compared::Same,
            Compared::Different => return Compared::Different,
            Compared::Open(depth) => open = depth,
        }
        i += 1;
    }
    Compared::Open(open)
}

/// Whether a body ends at a position, where so many nodes are open in it: a closing stands there,
/// or the list ends.
fn ends(list: &Linear, at: usize, depth: usize) -> bool
    requires { at ≤ length list.now.items }
    ensures { IsTrue result ↔ (cited_inside depth (drop at list.now.items) ≡ []) }
{
    at == list.len() || closes(depth, list.get(at))
}

/// Whether two bodies have the same items, from a position of each up to the closing of the node
/// that is open there. It goes over borrowed pieces, and stops at the first difference.
fn are_same_inside(now: &Linear, at: usize, first: &Linear, place: usize) -> bool
    requires here { at ≤ length now.now.items }
    requires there { place ≤ length first.now.items }
    ensures { IsTrue result
        ↔ (cited_inside 0 (drop at now.now.items) ≡ cited_inside 0 (drop place first.now.items)) }
{
    let mut depth = 0;
    let mut here = at;
    let mut there = place;
    while here < now.len() && there < first.len() {
        let one = now.piece(here, now.len());
        let other = first.piece(there, first.len());
        let n = one.len().min(other.len());
        match compare_pieces(depth, &one[..n], &other[..n]) {
            Compared::Same => return true,
            Compared::Different => return false,
            Compared::Open(open) => depth = open,
        }
        here += n;
        there += n;
    }
    ends(now, here, depth) && ends(first, there, depth)
}

/// The position after an opening, or the list's end.
fn place_after(list: &Linear, opening: usize) -> usize
    ensures within { result ≤ length list.now.items }
    ensures rest { drop result list.now.items ≡ drop (opening + 1) list.now.items }
{
    if opening < list.len() {
        opening + 1
    } else {
        list.len()
    }
}

/// Whether nothing is carried in either list, or the bodies of the internal items that open at
/// these positions have the same items.
pub fn are_same_bodies(
    now: &Linear,
    carried: Option<usize>,
    first: &Linear,
    carried_first: Option<usize>,
) -> bool
    ensures { IsTrue result ↔ AreSameBodies now.now.items first.now.items carried carried_first }
{
    match (carried, carried_first) {
        (None, None) => true,
        (Some(one), Some(other)) => are_same_inside(
            now,
            place_after(now, one),
            first,
            place_after(first, other),
        ),
        (Some(_), None) | (None, Some(_)) => false,
    }
}
