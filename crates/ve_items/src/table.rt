// The table of a list's blocks, with how many items each of them holds.
ghost use Rattle.std.specs.Prelude.{◌≡◌, ◌≤◌, ◌<◌, ◌+◌, ◌-◌, ◌^◌, ◌++◌, ◌∷◌, [], Some, None, IfOk, OnOk, OnErr, IfSome, IsSome, IsTrue};
ghost use Rattle.std.specs.Prelude.{length, max, slice_get, slice_index_or, slice_set, option_to_list};
ghost use Rattle.ve_base.specs.Limits.{max_block};
ghost use Rattle.ve_items.specs.Blocks.{joined};
ghost use Rattle.ve_items.specs.InBlock.{StandsAt, TouchesAt, MayChange, MayHave, MayHaveTwo, MayPart};
ghost use Rattle.ve_items.specs.Substitution.{spliced_block, parted};

use crate::block::Block;
use crate::stack::Stack;
use model_items::Item;
use std::alloc::Global;
use std::marker::Model;
use ve_base::{MAX_BLOCK, Memory};
use ve_lengths::Lengths;

/// Blocks in their order, seen as the list of them and the number of blocks that there is room for.
/// A position is found by the sizes of the blocks.
#[derive(Drop)]
pub struct Table {
    stack: Stack,
    sizes: Lengths,
}

impl Model for Table {
    ghost use Rattle.std.specs.Prelude.{◌≡◌, ◌≤◌, length, map};
    ghost use Rattle.ve_items.specs.Stacked.{Pile};

    ghost Value = { Pile };

    ghost view = { λ t. t.stack };

    ghost invariant = { λ t. (t.sizes.lens ≡ map length t.stack.blocks) × (t.stack.room ≤ t.sizes.room) };
}

impl Table {
    pub fn new(alloc: Global) -> Table
        ensures blocks { result.blocks ≡ [] }
        ensures room { result.room ≡ 0 }
    {
        Table {
            stack: Stack::new(alloc),
            sizes: Lengths::new(alloc),
        }
    }

    /// The number of blocks.
    pub fn len(&self) -> usize
        ensures count { result ≡ length self.now.blocks }
        ensures small { result < 2 ^ 63 }
    {
        self.stack.len()
    }

    /// The number of items in all blocks.
    pub fn items(&self) -> usize
        ensures { result ≡ length (joined self.now.blocks) }
    {
        self.sizes.total()
    }

    /// Lends the items of a block.
    pub fn block(&self, k: usize) -> &[Item]
        requires { k < length self.now.blocks }
        ensures { slice_get self.now.blocks k ≡ Some result.now }
    {
        self.stack.block(k)
    }

    /// A block with the items of one. Both have them in common until one of them is written.
    pub fn share(&mut self, alloc: Global, k: usize) -> Result<Block, Memory>
        requires among { k < length self.old.blocks }
        requires small { length (slice_index_or self.old.blocks k []) ≤ max_block }
        ensures kept { self.new ≡ self.old }
        ensures items { IfOk result (λ block. slice_get self.old.blocks k ≡ Some block) }
    {
        self.stack.share(alloc, k)
    }

    /// Takes room for so many blocks more. An `Err` changes nothing.
    pub fn reserve(&mut self, more: usize) -> Result<(), Memory>
        ensures blocks { self.new.blocks ≡ self.old.blocks }
        ensures ok { OnOk result (
            self.new.room ≡ max self.old.room (length self.old.blocks + more)) }
        ensures err { OnErr result (self.new ≡ self.old) }
    {
        self.sizes.reserve(more)?;
        self.stack.reserve(more)
    }

    /// Appends a block. It takes no memory.
    pub fn push(&mut self, block: Block)
        requires room { length self.old.blocks < self.old.room }
        requires fits { length (joined self.old.blocks) + length block < 2 ^ 64 }
        ensures blocks { self.new.blocks ≡ self.old.blocks ++ block ∷ [] }
        ensures room { self.new.room ≡ self.old.room }
    {
        self.sizes.push(block.len());
        self.stack.push(block);
    }

    /// Takes the last block off, where there is one.
    pub fn pop(&mut self) -> Option<Block>
        ensures blocks { self.old.blocks ≡ self.new.blocks ++ option_to_list result }
        ensures none { result ≡ None → self.old.blocks ≡ [] }
        ensures room { self.new.room ≡ self.old.room }
    {
        let block = self.stack.pop()?;
        self.sizes.pop();
        Some(block)
    }

    /// The block with the item at a position, and the item's position in it.
    pub fn find(&self, at: usize) -> (usize, usize)
        requires { at < length (joined self.now.blocks) }
        ensures { StandsAt self.now.blocks at result.0 result.1 }
    {
        self.sizes.find(at)
    }

    /// How many items a block holds.
    fn size(&self, k: usize) -> usize
        requires { k < length self.now.blocks }
        ensures { result ≡ length (slice_index_or self.now.blocks k []) }
    {
        self.sizes.get(k)
    }

    /// The block with the item at a position, or at the list's end the last block, and the position
    /// in it.
    fn touched(&self, at: usize) -> Option<(usize, usize)>
        requires { at ≤ length (joined self.now.blocks) }
        ensures { IfSome result (λ place. TouchesAt self.now.blocks at place.0 place.1) }
    {
        if at < self.items() {
            return Some(self.find(at));
        }
        let last = self.len().checked_sub(1)?;
        Some((last, self.size(last)))
    }

    /// The block and the position in it where a range can be replaced by so many items while no
    /// other block changes, if there is one.
    pub fn place_for(&self, at: usize, removed: usize, more: usize) -> Option<(usize, usize)>
        requires { at + removed ≤ length (joined self.now.blocks) }
        ensures place { IfSome result (λ place.
            MayChange self.now.blocks at removed more place.0 place.1) }
        ensures fits { IsSome result → length (joined self.now.blocks) + more < 2 ^ 64 }
    {
        let (k, offset) = self.touched(at)?;
        let size = self.size(k);
        if removed > size - offset || more > usize::MAX - self.items() {
            return None;
        }
        let changed = (size - removed).saturating_add(more);
        if self.may_have(k, changed) {
            Some((k, offset))
        } else {
            None
        }
    }

    /// Whether a block may hold so many items beside its neighbours.
    fn may_have(&self, k: usize, size: usize) -> bool
        requires { k < length self.now.blocks }
        ensures { IsTrue result → MayHave self.now.blocks k size }
    {
        let count = self.len();
        let first = k == 0;
        let last = k + 1 == count;
        size > 0
            && size <= MAX_BLOCK
            && (first || self.size(k - 1) > MAX_BLOCK - size)
            && (last || self.size(k + 1) > MAX_BLOCK - size)
    }

    /// Puts items in the place of the `removed` ones from `at` on in one block. It takes no memory,
    /// and no other block changes.
    pub fn splice(&mut self, k: usize, at: usize, removed: usize, items: &[Item])
        requires among { k < length self.old.blocks }
        requires within { at + removed ≤ length (slice_index_or self.old.blocks k []) }
        requires small { length (slice_index_or self.old.blocks k []) - removed + length items.now
            ≤ max_block }
        requires fits { length (joined self.old.blocks) + length items.now < 2 ^ 64 }
        ensures blocks { self.new.blocks ≡ spliced_block self.old.blocks k at removed items.now }
        ensures room { self.new.room ≡ self.old.room }
    {
        self.sizes.grow(k, items.len());
        self.sizes.shrink(k, removed);
        self.stack.splice(k, at, removed, items);
    }

    /// The block, and the position in it, where `more` items can be put in if its second half goes
    /// into a block of its own. No other block changes. None where there is no such block, and at
    /// the list's end: what is appended gets blocks of its own.
    pub fn place_to_part(&self, at: usize, more: usize) -> Option<(usize, usize)>
        requires { at ≤ length (joined self.now.blocks) }
        ensures { IfSome result (λ place. MayPart self.now.blocks at more place.0 place.1) }
    {
        if at == self.items() {
            return None;
        }
        let (k, offset) = self.touched(at)?;
        if more > MAX_BLOCK || self.size(k) > MAX_BLOCK {
            return None;
        }
        let half = self.size(k) / 2;
        let rest = self.size(k) - half;
        let may_part = if offset <= half {
            self.may_have_two(k, half + more, rest)
        } else {
            self.may_have_two(k, half, rest + more)
        };
        if may_part { Some((k, offset)) } else { None }
    }

    /// Whether two blocks with so many items may stand in the place of one.
    fn may_have_two(&self, k: usize, first: usize, second: usize) -> bool
        requires { k < length self.now.blocks }
        ensures { IsTrue result → MayHaveTwo self.now.blocks k first second }
    {
        let count = self.len();
        first > 0
            && first <= MAX_BLOCK
            && second > 0
            && second <= MAX_BLOCK
            && first > MAX_BLOCK - second
            && (k == 0 || self.size(k - 1) > MAX_BLOCK - first)
            && (k + 1 == count || self.size(k + 1) > MAX_BLOCK - second)
    }

    /// Parts a block: it keeps its first items, and a block that is put in after it gets the
    /// others. It takes no memory.
    pub fn part(&mut self, k: usize, at: usize, second: Block)
        requires among { k < length self.old.blocks }
        requires within { at ≤ length (slice_index_or self.old.blocks k []) }
        requires small { length (slice_index_or self.old.blocks k []) ≤ max_block }
        requires room { length self.old.blocks < self.old.room }
        ensures blocks { self.new.blocks ≡ parted self.old.blocks k at }
        ensures room { self.new.room ≡ self.old.room }
    {
        let total = self.sizes.total();
        prove!(total <= usize::MAX);
        let count = self.len();
        prove!(k < count);
        let rest = self.size(k) - at;
        self.sizes.shrink(k, rest);
        self.sizes.put_in(k + 1, rest);
        self.stack.part(k, at, second);
    }
}
