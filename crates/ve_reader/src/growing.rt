// A list of items that grows at its end.
ghost use Rattle.std.specs.Prelude.{◌≡◌, ◌++◌, ◌∷◌, [], length, IfOk, OnOk, OnErr};

use std::alloc::Global;
use std::marker::Model;
use ve_base::{FILLED_BLOCK, Memory};
use ve_items::{Item, Linear};

/// A list of items that grows at its end, seen as that list. The last items wait until there are
/// enough of them for a block.
#[derive(Drop)]
pub struct GrowingList {
    list: Linear,
    // what is to follow the list, at most a block's worth
    tail: Vec<Item>,
    len: usize,
}

impl Model for GrowingList {
    ghost use Rattle.std.specs.Prelude.{◌≡◌, ◌++◌, List, length};
    ghost use Rattle.model_items.specs.declared.item.Item.{Item};

    ghost Value = { List Item };

    ghost view = { λ g. g.list.items ++ g.tail.items };

    ghost invariant = { λ g. g.len ≡ length (g.list.items ++ g.tail.items) };
}

/// Puts the tail into its position. An `Err` changes nothing.
fn flush(list: &mut Linear, tail: &mut Vec<Item>) -> Result<(), Memory>
    ensures list { OnOk result (list.new.items ≡ list.old.items ++ tail.old.items) }
    ensures tail { OnOk result (tail.new.items ≡ []) }
    ensures err { OnErr result (list.new ≡ list.old) }
    ensures kept { OnErr result (tail.new.items ≡ tail.old.items) }
{
    list.extend(tail.as_slice())?;
    tail.clear();
    Ok(())
}

/// Puts the tail into its position where it is a block's worth.
fn flush_full(list: &mut Linear, tail: &mut Vec<Item>) -> Result<(), Memory>
    ensures { list.new.items ++ tail.new.items ≡ list.old.items ++ tail.old.items }
{
    if tail.len() < FILLED_BLOCK {
        return Ok(());
    }
    flush(list, tail)
}

impl GrowingList {
    /// The empty list. It takes no memory.
    pub fn new(alloc: Global) -> GrowingList
        ensures { result ≡ [] }
    {
        GrowingList {
            list: Linear::new(alloc),
            tail: Vec::new(alloc),
            len: 0,
        }
    }

    /// How many items there are.
    pub fn len(&self) -> usize
        ensures { result ≡ length self.now }
    {
        self.len
    }

    /// Appends an item. An `Err` changes nothing.
    pub fn push(&mut self, item: Item) -> Result<(), Memory>
        ensures ok { OnOk result (self.new ≡ self.old ++ item ∷ []) }
        ensures err { OnErr result (self.new ≡ self.old) }
    {
        let Some(len) = self.len.checked_add(1) else {
            return Err(Memory);
        };
        flush_full(&mut self.list, &mut self.tail)?;
        self.tail.push(item)?;
        self.len = len;
        Ok(())
    }

    /// The list of a page with these items.
    pub fn into_list(self) -> Result<Linear, Memory>
        ensures { IfOk result (λ list. list.items ≡ self) }
    {
        let mut list = self.list;
        let mut tail = self.tail;
        flush(&mut list, &mut tail)?;
        Ok(list)
    }
}
