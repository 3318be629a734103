// How blocks move between the stack before a position and the stack after it, whose top is nearest.
ghost use Rattle.std.specs.Prelude.{◌≡◌, ◌≤◌, ◌<◌, ◌+◌, ◌/◌, ◌^◌, ◌++◌, ◌∷◌, [], length, take, drop, vec_len, vec_capacity};
ghost use Rattle.std.specs.List.{All};
ghost use Rattle.ve_items.specs.Blocks.{joined, IsBlock, AreBlocks};
ghost use Rattle.ve_items.specs.Room.{filled_blocks};
ghost use Rattle.ve_items.specs.Stacked.{all_blocks, from_top, top, AreTakenOut};
ghost use Rattle.ve_items.specs.Substitution.{without};

use crate::block::Block;
use crate::stack::Stack;
use crate::table::Table;
use model_items::Item;
use ve_base::{FILLED_BLOCK, MAX_BLOCK};

/// Puts a block after those before the position: into the last one where both fit into one. The
/// block that is empty then goes to the pool.
pub fn put(before: &mut Table, pool: &mut Vec<Block>, block: Block)
    requires rule { AreBlocks before.old.blocks }
    requires size { IsBlock block }
    requires room { length before.old.blocks < before.old.room }
    requires fits { length (joined before.old.blocks) + length block < 2 ^ 64 }
    requires pool { vec_len pool.old < vec_capacity pool.old }
    ensures rule { AreBlocks before.new.blocks }
    ensures items { joined before.new.blocks ≡ joined before.old.blocks ++ block }
    ensures count { length before.new.blocks ≤ length before.old.blocks + 1 }
    ensures room { before.new.room ≡ before.old.room }
    ensures kept { length before.new.blocks + vec_len pool.new
        ≡ length before.old.blocks + vec_len pool.old + 1 }
    ensures capacity { vec_capacity pool.old ≤ vec_capacity pool.new }
{
    let Some(mut last) = before.pop() else {
        before.push(block);
        return;
    };
    let together = last.len() + block.len();
    if together <= MAX_BLOCK {
        last.append(block.as_slice());
        before.push(last);
        give_back(pool, block);
    } else {
        before.push(last);
        before.push(block);
    }
}

/// Keeps a block's memory for a later splice.
fn give_back(pool: &mut Vec<Block>, block: Block)
    requires { vec_len pool.old < vec_capacity pool.old }
    ensures count { vec_len pool.new ≡ vec_len pool.old + 1 }
    ensures capacity { vec_capacity pool.old ≤ vec_capacity pool.new }
{
    let kept = pool.push(block).is_ok();
    prove!(kept);
}

/// Moves blocks from before the position to after it, until at most `at` items stand before it.
/// Gives how many of the first block after it stand before `at`.
pub fn seek(before: &mut Table, after: &mut Stack, at: usize) -> usize
    requires rule { AreBlocks before.old.blocks }
    requires closed { after.old.blocks ≡ [] }
    requires room { length before.old.blocks ≤ after.old.room }
    requires within { at ≤ length (joined before.old.blocks) }
    ensures rule { AreBlocks before.new.blocks }
    ensures sizes { All IsBlock after.new.blocks }
    ensures items { joined before.new.blocks ++ from_top after.new.blocks
        ≡ joined before.old.blocks }
    ensures place { length (joined before.new.blocks) + result ≡ at }
    ensures inside { result ≤ length (top after.new.blocks) }
    ensures count { length before.new.blocks + length after.new.blocks ≡ length before.old.blocks }
    ensures room_before { before.new.room ≡ before.old.room }
    ensures room_after { after.new.room ≡ after.old.room }
{
    while before.items() > at {
        let Some(block) = before.pop() else {
            break;
        };
        after.push(block);
    }
    at - before.items()
}

/// Puts the blocks after the position after those before it.
pub fn gather(before: &mut Table, after: &mut Stack, pool: &mut Vec<Block>)
    requires rule { AreBlocks before.old.blocks }
    requires sizes { All IsBlock after.old.blocks }
    requires room { length before.old.blocks + length after.old.blocks ≤ before.old.room }
    requires pool { all_blocks before.old after.old (vec_len pool.old) ≤ vec_capacity pool.old }
    requires fits { length (joined before.old.blocks) + length (from_top after.old.blocks)
        < 2 ^ 64 }
    ensures rule { AreBlocks before.new.blocks }
    ensures closed { after.new.blocks ≡ [] }
    ensures items { joined before.new.blocks
        ≡ joined before.old.blocks ++ from_top after.old.blocks }
    ensures count { length before.new.blocks ≤ length before.old.blocks + length after.old.blocks }
    ensures room_before { before.new.room ≡ before.old.room }
    ensures room_after { after.new.room ≡ after.old.room }
    ensures kept { length before.new.blocks + vec_len pool.new
        ≡ all_blocks before.old after.old (vec_len pool.old) }
    ensures capacity { vec_capacity pool.old ≤ vec_capacity pool.new }
{
    while let Some(block) = after.pop() {
        put(before, pool, block);
    }
}

/// Cuts the first block after the position, so that its first items stand before the position.
pub fn cut(before: &mut Table, after: &mut Stack, pool: &mut Vec<Block>, offset: usize)
    requires rule { AreBlocks before.old.blocks }
    requires sizes { All IsBlock after.old.blocks }
    requires inside { offset ≤ length (top after.old.blocks) }
    requires room { length before.old.blocks < before.old.room }
    requires room_after { length after.old.blocks ≤ after.old.room }
    requires pool { 0 < vec_len pool.old }
    requires capacity { all_blocks before.old after.old (vec_len pool.old) ≤ vec_capacity pool.old }
    requires fits { length (joined before.old.blocks) + length (from_top after.old.blocks)
        < 2 ^ 64 }
    ensures rule { AreBlocks before.new.blocks }
    ensures sizes { All IsBlock after.new.blocks }
    ensures items_before { joined before.new.blocks
        ≡ joined before.old.blocks ++ take offset (from_top after.old.blocks) }
    ensures items_after { from_top after.new.blocks ≡ drop offset (from_top after.old.blocks) }
    ensures count { length before.new.blocks + length after.new.blocks
        ≤ length before.old.blocks + length after.old.blocks + 1 }
    ensures count_after { length after.new.blocks ≤ length after.old.blocks }
    ensures room_before { before.new.room ≡ before.old.room }
    ensures room_after { after.new.room ≡ after.old.room }
    ensures pool { vec_len pool.old ≤ vec_len pool.new + 1 }
    ensures kept { all_blocks before.new after.new (vec_len pool.new)
        ≡ all_blocks before.old after.old (vec_len pool.old) }
    ensures capacity { vec_capacity pool.old ≤ vec_capacity pool.new }
{
    if offset == 0 {
        return;
    }
    let Some(mut first) = after.pop() else {
        return;
    };
    let Some(mut second) = pool.pop() else {
        return;
    };
    second.clear();
    second.append(&first.as_slice()[offset..]);
    first.truncate(offset);
    put(before, pool, first);
    if second.len() > 0 {
        after.push(second);
    } else {
        give_back(pool, second);
    }
}

/// Puts items after those before the position, in blocks of the pool.
pub fn fill(before: &mut Table, pool: &mut Vec<Block>, items: &[Item])
    requires rule { AreBlocks before.old.blocks }
    requires room { length before.old.blocks + filled_blocks (length items.now) ≤ before.old.room }
    requires pool { filled_blocks (length items.now) ≤ vec_len pool.old }
    requires capacity { length before.old.blocks + vec_len pool.old ≤ vec_capacity pool.old }
    requires fits { length (joined before.old.blocks) + length items.now < 2 ^ 64 }
    ensures rule { AreBlocks before.new.blocks }
    ensures items { joined before.new.blocks ≡ joined before.old.blocks ++ items.now }
    ensures count { length before.new.blocks
        ≤ length before.old.blocks + filled_blocks (length items.now) }
    ensures room { before.new.room ≡ before.old.room }
    ensures kept { length before.new.blocks + vec_len pool.new
        ≡ length before.old.blocks + vec_len pool.old }
    ensures capacity { vec_capacity pool.old ≤ vec_capacity pool.new }
{
    let mut done = 0;
    while done < items.len() {
        let Some(mut block) = pool.pop() else {
            break;
        };
        let end = done + (items.len() - done).min(FILLED_BLOCK);
        block.clear();
        block.append(&items[done..end]);
        put(before, pool, block);
        done = end;
    }
}

/// Takes items out that begin `offset` items after the position. What stands before them in the
/// first block stands before the position then.
pub fn take_out(
    before: &mut Table,
    after: &mut Stack,
    pool: &mut Vec<Block>,
    offset: usize,
    removed: usize,
)
    requires rule { AreBlocks before.old.blocks }
    requires sizes { All IsBlock after.old.blocks }
    requires inside { offset ≤ length (top after.old.blocks) }
    requires within { offset + removed ≤ length (from_top after.old.blocks) }
    requires room { length before.old.blocks + length after.old.blocks ≤ before.old.room }
    requires pool { all_blocks before.old after.old (vec_len pool.old) ≤ vec_capacity pool.old }
    requires fits { length (joined before.old.blocks) + length (from_top after.old.blocks)
        < 2 ^ 64 }
    ensures rule { AreBlocks before.new.blocks }
    ensures sizes { All IsBlock after.new.blocks }
    ensures items { AreTakenOut before.old.blocks after.old.blocks before.new.blocks
        after.new.blocks offset removed }
    ensures count { length before.new.blocks + length after.new.blocks
        ≤ length before.old.blocks + length after.old.blocks }
    ensures room_before { before.new.room ≡ before.old.room }
    ensures room_after { after.new.room ≡ after.old.room }
    ensures kept { all_blocks before.new after.new (vec_len pool.new)
        ≡ all_blocks before.old after.old (vec_len pool.old) }
    ensures capacity { vec_capacity pool.old ≤ vec_capacity pool.new }
{
    let mut offset = offset;
    let mut left = removed;
    while left > 0 {
        let Some(mut first) = after.pop() else {
            break;
        };
        let many = (first.len() - offset).min(left);
        left -= many;
        first.cut_out(offset, many);
        offset = 0;
        if first.len() > 0 {
            put(before, pool, first);
        } else {
            give_back(pool, first);
        }
    }
}
