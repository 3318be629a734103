// Reading a list from its end.
ghost use Rattle.std.specs.Prelude.{◌≡◌, ◌<◌, ◌-◌, Some, length, slice_get};

use std::marker::Model;
use ve_items::{Item, Linear};

/// The items still to be read of a list that is read from its end. The view is the list's items and
/// the number of those still to be read. It is borrowed in pieces, each of them once.
#[derive(Drop)]
pub struct Unread<'a> {
    list: &'a Linear,
    // the end of what is still to be read
    lent: &'a [Item],
    left: usize,
}

impl<'a> Model for Unread<'a> {
    ghost use Rattle.ve_tree.specs.Lent.{Rest, IsLent};

    ghost Value = { Rest };

    ghost view = { λ u. record { items = u.list.now.items; left = u.left } };

    ghost invariant = { λ u. IsLent u.list.now.items u.left u.lent.now };
}

impl<'a> Unread<'a> {
    /// A list of which nothing is read yet.
    pub fn new(list: &'a Linear) -> Unread<'a>
        ensures items { result.items ≡ list.now.items }
        ensures left { result.left ≡ length list.now.items }
    {
        let left = list.len();
        let lent: &[Item] = if left == 0 {
            &[]
        } else {
            list.last_piece(0, left)
        };
        Unread { list, lent, left }
    }

    /// How many items are still to be read.
    pub fn left(&self) -> usize
        ensures { result ≡ self.now.left }
    {
        self.left
    }

    /// The item to be read next, which is the last one of those.
    pub fn last(&self) -> Item
        requires { 0 < self.now.left }
        ensures { slice_get self.now.items (self.now.left - 1) ≡ Some result }
    {
        self.lent[self.lent.len() - 1]
    }

    /// Passes that item.
    pub fn pass(&mut self)
        requires { 0 < self.old.left }
        ensures items { self.new.items ≡ self.old.items }
        ensures left { self.new.left ≡ self.old.left - 1 }
    {
        self.left -= 1;
        self.lent = &self.lent[..self.lent.len() - 1];
        if self.lent.is_empty() && self.left > 0 {
            self.lent = self.list.last_piece(0, self.left);
        }
    }
}
