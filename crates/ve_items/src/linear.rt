// The list of a page, kept in blocks.
ghost use Rattle.std.specs.Prelude.{◌≡◌, ◌≤◌, ◌<◌, ◌+◌, ◌^◌, ◌↔◌, [], Some, OnOk, OnErr, IsOk, IfOk, IsTrue, ◌-◌, ◌++◌, length, max, slice_get, slice_range};
ghost use Rattle.ve_items.specs.Blocks.{joined, AreBlocks};
ghost use Rattle.ve_items.specs.Substitution.{spliced};

use crate::Items;
use crate::block::Block;
use crate::edit::{insert, remove};
use crate::room::{take_for_all, take_for_one};
use crate::stack::Stack;
use crate::table::Table;
use model_items::Item;
use std::alloc::Global;
use std::marker::Model;
use ve_base::Memory;

/// The items of a page in their order. Its view is their list, the blocks in which they are kept,
/// and a number, `spare`: splices of that many items together take no memory. Positions and lengths
/// count items.
///
/// A block holds 1 to `MAX_BLOCK` items, and two neighbours hold more than that together. A splice
/// within one block moves the items of that block alone, where every rule of the blocks stays.
/// Where a block is full, half of it goes into a block of its own. Another splice moves the items
/// of the blocks that it touches, and the table of blocks from there on. Blocks are made with
/// `FILLED_BLOCK` items, so that later ones find room. Those that get empty stay with the list.
pub struct Linear {
    table: Table,
    // where a splice sets the blocks after its position aside, empty else
    aside: Stack,
    // memory for the blocks that a splice puts in
    pool: Vec<Block>,
    spare: usize,
    alloc: Global,
}

impl Drop for Linear {
    fn drop(self) {
        let Linear {
            table,
            aside,
            pool,
            spare: _,
            alloc,
        } = self;
        drop(table);
        drop(aside);
        drop(pool);
        drop(alloc);
    }
}

impl Model for Linear {
    ghost use Rattle.std.specs.Prelude.{vec_len, vec_capacity};
    ghost use Rattle.ve_items.specs.Blocks.{joined};
    ghost use Rattle.ve_items.specs.Room.{IsReady};
    ghost use Rattle.ve_items.specs.ItemList.{ItemList};

    ghost Value = { ItemList };

    ghost view = { λ l. record { items = joined l.table.blocks; spare = l.spare; blocks = l.table.blocks } };

    ghost invariant = { λ l. IsReady l.table l.aside (vec_len l.pool) (vec_capacity l.pool) l.spare };
}

/// Appends a block for each of those of a table, with the same items.
fn share_blocks(alloc: Global, from: &mut Table, to: &mut Table) -> Result<(), Memory>
    requires rule { AreBlocks from.old.blocks }
    requires fits { length (joined from.old.blocks) < 2 ^ 64 }
    requires empty { to.old.blocks ≡ [] }
    requires room { length from.old.blocks ≤ to.old.room }
    ensures kept { from.new ≡ from.old }
    ensures blocks { OnOk result (to.new.blocks ≡ from.old.blocks) }
    ensures room { to.new.room ≡ to.old.room }
{
    for k in 0..from.len() {
        let block = from.share(alloc, k)?;
        to.push(block);
    }
    Ok(())
}

impl Linear {
    /// The empty list. It takes no memory.
    pub fn new(alloc: Global) -> Linear
        ensures items { result.items ≡ [] }
        ensures spare { result.spare ≡ 0 }
    {
        Linear {
            table: Table::new(alloc),
            aside: Stack::new(alloc),
            pool: Vec::new(alloc),
            spare: 0,
            alloc,
        }
    }

    /// The number of items.
    pub fn len(&self) -> usize
        ensures { result ≡ length self.now.items }
    {
        self.table.items()
    }

    /// Whether it has no item.
    pub fn is_empty(&self) -> bool
        ensures { IsTrue result ↔ (self.now.items ≡ []) }
    {
        self.len() == 0
    }

    /// The number of blocks. The blocks one after the other are the list.
    pub fn blocks(&self) -> usize
        ensures count { result ≡ length self.now.blocks }
        ensures items { joined self.now.blocks ≡ self.now.items }
        ensures rule { AreBlocks self.now.blocks }
        ensures none { self.now.items ≡ [] → result ≡ 0 }
    {
        self.table.len()
    }

    /// Lends a block, counted from the first.
    pub fn block(&self, k: usize) -> &[Item]
        requires { k < length self.now.blocks }
        ensures { slice_get self.now.blocks k ≡ Some result.now }
    {
        self.table.block(k)
    }

    /// The item at a position. It is found by a search over the ends of the blocks.
    pub fn get(&self, at: usize) -> Item
        requires { at < length self.now.items }
        ensures { slice_get self.now.items at ≡ Some result }
    {
        let (k, offset) = self.table.find(at);
        self.table.block(k)[offset]
    }

    /// Lends the items from one position up to another, as far as the first one's block goes. So a
    /// walk over a range takes piece after piece.
    pub fn piece(&self, from: usize, to: usize) -> &[Item]
        requires order { from < to }
        requires within { to ≤ length self.now.items }
        ensures some { 0 < length result.now }
        ensures within { from + length result.now ≤ to }
        ensures items { result.now ≡ slice_range self.now.items from (from + length result.now) }
    {
        let (k, offset) = self.table.find(from);
        let block = self.table.block(k);
        let end = offset + (block.len() - offset).min(to - from);
        &block[offset..end]
    }

    /// Lends the items that end at a position, from another position on, as far back as the last
    /// one's block goes. So a walk from a range's end takes piece after piece.
    pub fn last_piece(&self, from: usize, to: usize) -> &[Item]
        requires order { from < to }
        requires within { to ≤ length self.now.items }
        ensures some { 0 < length result.now }
        ensures within { from + length result.now ≤ to }
        ensures items { result.now ≡ slice_range self.now.items (to - length result.now) to }
    {
        let (k, offset) = self.table.find(to - 1);
        let block = self.table.block(k);
        let end = offset + 1;
        &block[end - end.min(to - from)..end]
    }

    /// A copy of the items from one position up to another.
    pub fn slice(&self, alloc: Global, from: usize, to: usize) -> Result<Items, Memory>
        requires order { from ≤ to }
        requires within { to ≤ length self.now.items }
        ensures { IfOk result (λ copy. copy ≡ slice_range self.now.items from to) }
    {
        let mut copy = Items::new(alloc);
        let mut at = from;
        while at < to {
            let piece = self.piece(at, to);
            copy.extend(piece)?;
            at += piece.len();
        }
        Ok(copy)
    }

    /// A list of equal items, in blocks of its own.
    pub fn copy(&self, alloc: Global) -> Result<Linear, Memory>
        ensures items { IfOk result (λ copy. copy.items ≡ self.now.items) }
        ensures spare { IfOk result (λ copy. copy.spare ≡ 0) }
    {
        let mut copy = Linear::new(alloc);
        for k in 0..self.table.len() {
            copy.extend(self.table.block(k))?;
        }
        Ok(copy)
    }

    /// A list of equal items. Both have the blocks in common, and whoever writes into one first
    /// copies it, into memory that is taken here.
    pub fn share(&mut self, alloc: Global) -> Result<Linear, Memory>
        ensures kept { self.new ≡ self.old }
        ensures items { IfOk result (λ copy. copy.items ≡ self.old.items) }
        ensures spare { IfOk result (λ copy. copy.spare ≡ 0) }
    {
        let count = self.table.len();
        let mut table = Table::new(alloc);
        let mut aside = Stack::new(alloc);
        let mut pool = Vec::new(alloc);
        table.reserve(count)?;
        aside.reserve(count)?;
        pool.reserve(count)?;
        share_blocks(alloc, &mut self.table, &mut table)?;
        Ok(Linear {
            table,
            aside,
            pool,
            spare: 0,
            alloc,
        })
    }

    /// Takes the memory that splices of so many items together may need, however they are parted:
    /// room in the table of blocks and empty blocks. An `Err` changes nothing.
    pub fn reserve(&mut self, more: usize) -> Result<(), Memory>
        ensures items { self.new.items ≡ self.old.items }
        ensures blocks { self.new.blocks ≡ self.old.blocks }
        ensures ok { OnOk result (self.new.spare ≡ max self.old.spare more) }
        ensures err { OnErr result (self.new ≡ self.old) }
        ensures fits { more ≤ self.old.spare → IsOk result }
    {
        if more <= self.spare {
            return Ok(());
        }
        take_for_all(
            &mut self.table,
            &mut self.aside,
            &mut self.pool,
            self.alloc,
            self.spare,
            more,
        )?;
        self.spare = more;
        Ok(())
    }

    /// Replaces the `removed` items from `at` on by others. Where `spare` has room for them, it
    /// succeeds and uses up so much of `spare`. Else it may take memory, and all of `spare` is used
    /// up. An `Err` changes nothing.
    pub fn splice(&mut self, at: usize, removed: usize, items: &[Item]) -> Result<(), Memory>
        requires { at + removed ≤ length self.old.items }
        ensures ok { OnOk result (self.new.items ≡ spliced self.old.items at removed items.now) }
        ensures spare { OnOk result (self.new.spare ≡ self.old.spare - length items.now) }
        ensures err { OnErr result (self.new ≡ self.old) }
        ensures fits { length items.now ≤ self.old.spare → IsOk result }
    {
        let left = self.spare.saturating_sub(items.len());
        if let Some((k, offset)) = self.table.place_for(at, removed, items.len()) {
            self.table.splice(k, offset, removed, items);
            self.spare = left;
            return Ok(());
        }
        take_for_one(
            &mut self.table,
            &mut self.aside,
            &mut self.pool,
            self.alloc,
            self.spare,
            items.len(),
        )?;
        remove(
            &mut self.table,
            &mut self.aside,
            &mut self.pool,
            at,
            removed,
        );
        insert(&mut self.table, &mut self.aside, &mut self.pool, at, items);
        self.spare = left;
        Ok(())
    }

    /// Appends items, as a splice at the end does. Who reads a page in pieces of `FILLED_BLOCK`
    /// items gets a block for each piece, and needs no list beside this one.
    pub fn extend(&mut self, items: &[Item]) -> Result<(), Memory>
        ensures ok { OnOk result (self.new.items ≡ self.old.items ++ items.now) }
        ensures spare { OnOk result (self.new.spare ≡ self.old.spare - length items.now) }
        ensures err { OnErr result (self.new ≡ self.old) }
        ensures fits { length items.now ≤ self.old.spare → IsOk result }
    {
        let end = self.len();
        self.splice(end, 0, items)
    }
}
