// Whether a node has the items that it had.
ghost use Rattle.std.specs.Prelude.{◌≡◌, ◌≤◌, ◌<◌, ◌+◌, ◌↔◌, IsTrue, length, slice_range};
ghost use Rattle.ve_origin.specs.Known.{AreKnown, IsRunOf};
ghost use Rattle.ve_origin.specs.Without.{without, AreSameNodes};

use crate::compare::alike_after;
use crate::known::{Known, Run};
use model_items::Item;
use ve_items::{Linear, same_item};

/// The item without the whitespace before it.
fn without_pre(item: Item) -> Item
    ensures { result ≡ without item }
{
    match item {
        Item::Opening {
            kind,
            generated,
            head,
            marks,
            origin,
            ..
        } => Item::Opening {
            kind,
            generated,
            head,
            marks,
            pre: None,
            origin,
        },
        Item::Char { .. } => item,
        Item::Closing { .. } => item,
    }
}

/// Whether so many items from a position of each list are alike, where the whitespace before the
/// first ones is left aside. The first ones are looked at alone only where they differ. Items that
/// are known to be alike aren't compared again.
pub fn same_node(
    now: &Linear,
    from: usize,
    first: &Linear,
    place: usize,
    count: usize,
    known: Known,
) -> bool
    requires some { 0 < count }
    requires here { from + count ≤ length now.now.items }
    requires there { place + count ≤ length first.now.items }
    requires known { AreKnown now.now.items first.now.items known }
    ensures { IsTrue result ↔ AreSameNodes now.now.items from first.now.items place count }
{
    // both lists' lengths fit, and so does each position in them
    let _here = now.len();
    let _there = first.len();
    let equal = alike_after(now, from, first, place, count, known);
    if equal > 0 {
        return equal == count;
    }
    if !same_item(without_pre(now.get(from)), without_pre(first.get(place))) {
        return false;
    }
    alike_after(now, from + 1, first, place + 1, count - 1, known) == count - 1
}

/// How far two nodes of so many items are alike, from their openings on, or from their insides where
/// the openings differ.
pub fn run_of(
    now: &Linear,
    from: usize,
    first: &Linear,
    place: usize,
    count: usize,
    known: Known,
) -> Run
    requires some { 0 < count }
    requires here { from + count ≤ length now.now.items }
    requires there { place + count ≤ length first.now.items }
    requires known { AreKnown now.now.items first.now.items known }
    ensures { IsRunOf now.now.items from first.now.items place count result }
{
    let _here = now.len();
    let _there = first.len();
    let equal = alike_after(now, from, first, place, count, known);
    if equal > 0 {
        return Run {
            now: from,
            first: place,
            count: equal,
        };
    }
    Run {
        now: from + 1,
        first: place + 1,
        count: alike_after(now, from + 1, first, place + 1, count - 1, known),
    }
}
