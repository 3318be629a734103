// The brackets of a range whose partners are not in it.
ghost use Rattle.std.specs.Prelude.{◌≡◌, ◌≤◌, ◌<◌, ◌+◌, ◌^◌, length};
ghost use Rattle.ve_offsets.specs.Docs.{IsDoc};
ghost use Rattle.model_items.specs.Offsets as model;
ghost use Rattle.ve_offsets.specs.Unmatched.{unmatched_with, unmatched_after};
ghost use Rattle.ve_tree.specs.IsTree.{unvalued};

use crate::Doc;
use ve_items::Item;

/// How many closings and openings are unmatched with one more item.
fn with_item(counts: (usize, usize), item: Item) -> (usize, usize)
    requires closings { counts.0 + 1 < 2 ^ 64 }
    requires openings { counts.1 + 1 < 2 ^ 64 }
    ensures { result ≡ unmatched_with item counts }
{
    let (closings, openings) = counts;
    match item {
        Item::Char { .. } => counts,
        Item::Opening { .. } => (closings, openings + 1),
        Item::Closing { .. } => {
            if openings == 0 {
                (closings + 1, 0)
            } else {
                (closings, openings - 1)
            }
        }
    }
}

/// How many closings and openings are unmatched with some more items.
fn with_items(counts: (usize, usize), items: &[Item]) -> (usize, usize)
    requires closings { counts.0 + length items.now < 2 ^ 64 }
    requires openings { counts.1 + length items.now < 2 ^ 64 }
    ensures counts { result ≡ unmatched_after counts items.now }
    ensures closings { result.0 ≤ counts.0 + length items.now }
    ensures openings { result.1 ≤ counts.1 + length items.now }
{
    let mut now = counts;
    for k in 0..items.len() {
        now = with_item(now, items[k]);
    }
    now
}

/// How many closings and openings of a range are unmatched: their partners are not in it. It reads
/// the items of the range, and no other.
pub fn unmatched(doc: Doc<'_>, from: usize, to: usize) -> (usize, usize)
    requires doc { IsDoc doc }
    requires order { from ≤ to }
    requires within { to ≤ length doc.list.now.items }
    ensures { result ≡ model.unmatched_counts (unvalued doc.entry.list.now.items) from to }
{
    let mut counts = (0, 0);
    let mut at = from;
    while at < to {
        let piece = doc.list.piece(at, to);
        counts = with_items(counts, piece);
        at += piece.len();
    }
    counts
}
