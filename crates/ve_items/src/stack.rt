// Blocks on a stack, in a table with room that was taken beforehand.
ghost use Rattle.std.specs.Prelude.{◌≡◌, ◌≤◌, ◌<◌, ◌+◌, ◌-◌, ◌^◌, ◌++◌, ◌∷◌, [], Some, IfOk, OnOk, OnErr, IsOk, length, max, slice_get, slice_index_or, slice_set, option_to_list};
ghost use Rattle.ve_base.specs.Limits.{max_block};
ghost use Rattle.ve_items.specs.Substitution.{spliced_block, parted};

use crate::block::Block;
use model_items::Item;
use std::alloc::Global;
use std::marker::Model;
use ve_base::Memory;

/// A stack of blocks, seen as the list of its blocks from the lowest to the top, and the number of
/// blocks that it has room for.
#[derive(Drop)]
pub struct Stack {
    blocks: Vec<Block>,
    room: usize,
}

impl Model for Stack {
    ghost use Rattle.std.specs.Prelude.{◌≤◌, vec_capacity};
    ghost use Rattle.ve_items.specs.Stacked.{Pile};

    ghost Value = { Pile };

    ghost view = { λ s. record { blocks = s.blocks.items; room = s.room } };

    ghost invariant = { λ s. s.room ≤ vec_capacity s.blocks };
}

impl Stack {
    pub fn new(alloc: Global) -> Stack
        ensures blocks { result.blocks ≡ [] }
        ensures room { result.room ≡ 0 }
    {
        Stack {
            blocks: Vec::new(alloc),
            room: 0,
        }
    }

    /// The number of blocks.
    pub fn len(&self) -> usize
        ensures count { result ≡ length self.now.blocks }
        ensures small { result < 2 ^ 63 }
    {
        self.blocks.len()
    }

    /// Lends the items of a block, counted from the lowest.
    pub fn block(&self, k: usize) -> &[Item]
        requires { k < length self.now.blocks }
        ensures { slice_get self.now.blocks k ≡ Some result.now }
    {
        self.blocks[k].as_slice()
    }

    /// A block with the items of one, counted from the lowest. Both have them in common until one of
    /// them is written.
    pub fn share(&mut self, alloc: Global, k: usize) -> Result<Block, Memory>
        requires among { k < length self.old.blocks }
        requires small { length (slice_index_or self.old.blocks k []) ≤ max_block }
        ensures kept { self.new ≡ self.old }
        ensures items { IfOk result (λ block. slice_get self.old.blocks k ≡ Some block) }
    {
        self.blocks[k].share(alloc)
    }

    /// Takes room for so many blocks more. An `Err` changes nothing.
    pub fn reserve(&mut self, more: usize) -> Result<(), Memory>
        ensures blocks { self.new.blocks ≡ self.old.blocks }
        ensures ok { OnOk result (
            self.new.room ≡ max self.old.room (length self.old.blocks + more)) }
        ensures err { OnErr result (self.new ≡ self.old) }
    {
        self.blocks.reserve(more)?;
        self.room = self.room.max(self.blocks.len() + more);
        Ok(())
    }

    /// Puts a block on top. It takes no memory.
    pub fn push(&mut self, block: Block)
        requires { length self.old.blocks < self.old.room }
        ensures blocks { self.new.blocks ≡ self.old.blocks ++ block ∷ [] }
        ensures room { self.new.room ≡ self.old.room }
    {
        let pushed = self.blocks.push(block).is_ok();
        prove!(pushed);
    }

    /// Takes the top block off, where there is one.
    pub fn pop(&mut self) -> Option<Block>
        ensures blocks { self.old.blocks ≡ self.new.blocks ++ option_to_list result }
        ensures none { result ≡ None → self.old.blocks ≡ [] }
        ensures room { self.new.room ≡ self.old.room }
    {
        self.blocks.pop()
    }

    /// Parts a block: it keeps its first items, and a block that is put in after it gets the
    /// others. It takes no memory.
    pub fn part(&mut self, k: usize, at: usize, second: Block)
        requires among { k < length self.old.blocks }
        requires within { at ≤ length (slice_index_or self.old.blocks k []) }
        requires small { length (slice_index_or self.old.blocks k []) ≤ max_block }
        requires room { length self.old.blocks < self.old.room }
        ensures blocks { self.new.blocks ≡ parted self.old.blocks k at }
        ensures room { self.new.room ≡ self.old.room }
    {
        let mut second = second;
        second.clear();
        second.append(&self.blocks[k].as_slice()[at..]);
        self.blocks[k].truncate(at);
        let inserted = self.blocks.insert(k + 1, second).is_ok();
        prove!(inserted);
    }

    /// Puts items in the place of the `removed` ones from `at` on in one block. It takes no memory.
    pub fn splice(&mut self, k: usize, at: usize, removed: usize, items: &[Item])
        requires among { k < length self.old.blocks }
        requires within { at + removed ≤ length (slice_index_or self.old.blocks k []) }
        requires fits { length (slice_index_or self.old.blocks k []) - removed + length items.now
            ≤ max_block }
        ensures blocks { self.new.blocks ≡ spliced_block self.old.blocks k at removed items.now }
        ensures room { self.new.room ≡ self.old.room }
    {
        self.blocks[k].splice(at, removed, items);
    }
}
