// Reading items that stand near one another.
ghost use Rattle.std.specs.Prelude.{◌≡◌, ◌≤◌, ◌<◌, ◌+◌, ◌-◌, Some, length, slice_get};
ghost use Rattle.ve_offsets.specs.Lent.{IsPiece, HoldsItem};

use std::marker::Model;
use ve_items::{Item, Linear};

/// A list that is read at positions near one another, seen as its items. It keeps what was borrowed
/// at the last position, so a walk to one side looks for each block once.
#[derive(Drop)]
pub struct OffsetReader<'a> {
    list: &'a Linear,
    // the position of the first item of the borrowed piece
    from: usize,
    piece: &'a [Item],
}

impl<'a> Model for OffsetReader<'a> {
    ghost use Rattle.std.specs.Prelude.{List};
    ghost use Rattle.model_items.specs.declared.item.Item.{Item};
    ghost use Rattle.ve_offsets.specs.Lent.{IsPiece};

    ghost Value = { List Item };

    ghost view = { λ r. r.list.now.items };

    ghost invariant = { λ r. IsPiece r.list.now.items r.from r.piece.now };
}

/// Lends items with the one at a position, and gives the position of the first: those before it in
/// its block, or else those after it.
fn lend<'a>(list: &'a Linear, at: usize, left: bool) -> (usize, &'a [Item])
    requires { at < length list.now.items }
    ensures { HoldsItem list.now.items at result.0 result.1.now }
{
    let len = list.len();
    prove!(at < len);
    if left {
        let piece = list.last_piece(0, at + 1);
        return (at + 1 - piece.len(), piece);
    }
    (at, list.piece(at, len))
}

impl<'a> OffsetReader<'a> {
    pub fn new(list: &'a Linear) -> OffsetReader<'a>
        ensures { result ≡ list.now.items }
    {
        OffsetReader {
            list,
            from: 0,
            piece: &[],
        }
    }

    /// The number of items.
    pub fn len(&self) -> usize
        ensures { result ≡ length self.now }
    {
        self.list.len()
    }

    /// The item at a position.
    pub fn get(&mut self, at: usize) -> Item
        requires { at < length self.old }
        ensures item { slice_get self.old at ≡ Some result }
        ensures list { self.new ≡ self.old }
    {
        if at >= self.from && at - self.from < self.piece.len() {
            return self.piece[at - self.from];
        }
        let (from, piece) = lend(self.list, at, at < self.from);
        self.from = from;
        self.piece = piece;
        piece[at - from]
    }
}
