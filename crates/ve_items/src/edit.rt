// The two halves of a splice, each over a list's blocks.
ghost use Rattle.std.specs.Prelude.{◌≡◌, ◌≤◌, ◌<◌, ◌+◌, ◌/◌, ◌^◌, ◌++◌, [], length, take, drop, vec_len, vec_capacity};
ghost use Rattle.ve_items.specs.Blocks.{joined, AreBlocks};
ghost use Rattle.ve_items.specs.InBlock.{MayPart};
ghost use Rattle.ve_items.specs.Room.{more_blocks};
ghost use Rattle.ve_items.specs.Substitution.{without, spliced};

use crate::block::Block;
use crate::moves::{cut, fill, gather, seek, take_out};
use crate::stack::Stack;
use crate::table::Table;
use model_items::Item;

/// Takes items out from a position on. It takes no memory.
pub fn remove(
    before: &mut Table,
    after: &mut Stack,
    pool: &mut Vec<Block>,
    at: usize,
    removed: usize,
)
    requires rule { AreBlocks before.old.blocks }
    requires closed { after.old.blocks ≡ [] }
    requires within { at + removed ≤ length (joined before.old.blocks) }
    requires fits { length (joined before.old.blocks) < 2 ^ 64 }
    requires room_before { length before.old.blocks ≤ before.old.room }
    requires room_after { length before.old.blocks ≤ after.old.room }
    requires capacity { length before.old.blocks + vec_len pool.old ≤ vec_capacity pool.old }
    ensures rule { AreBlocks before.new.blocks }
    ensures closed { after.new.blocks ≡ [] }
    ensures items { joined before.new.blocks ≡ without (joined before.old.blocks) at removed }
    ensures count { length before.new.blocks ≤ length before.old.blocks }
    ensures room_before { before.new.room ≡ before.old.room }
    ensures room_after { after.new.room ≡ after.old.room }
    ensures kept { length before.new.blocks + vec_len pool.new
        ≡ length before.old.blocks + vec_len pool.old }
    ensures capacity { vec_capacity pool.old ≤ vec_capacity pool.new }
{
    if removed == 0 {
        return;
    }
    let offset = seek(before, after, at);
    take_out(before, after, pool, offset, removed);
    gather(before, after, pool);
}

/// Puts items into a block whose second half goes into a block of the pool. No other block changes.
fn insert_in_half(
    before: &mut Table,
    pool: &mut Vec<Block>,
    k: usize,
    offset: usize,
    items: &[Item],
    at: usize,
)
    requires rule { AreBlocks before.old.blocks }
    requires place { MayPart before.old.blocks at (length items.now) k offset }
    requires fits { length (joined before.old.blocks) + length items.now < 2 ^ 64 }
    requires room { length before.old.blocks < before.old.room }
    requires pool { 0 < vec_len pool.old }
    ensures rule { AreBlocks before.new.blocks }
    ensures items { joined before.new.blocks ≡ spliced (joined before.old.blocks) at 0 items.now }
    ensures count { length before.new.blocks ≡ length before.old.blocks + 1 }
    ensures room { before.new.room ≡ before.old.room }
    ensures kept { vec_len pool.new + 1 ≡ vec_len pool.old }
    ensures capacity { vec_capacity pool.old ≤ vec_capacity pool.new }
{
    let Some(second) = pool.pop() else {
        return;
    };
    let count = before.len();
    prove!(k < count);
    let half = before.block(k).len() / 2;
    before.part(k, half, second);
    if offset <= half {
        before.splice(k, offset, 0, items);
    } else {
        before.splice(k + 1, offset - half, 0, items);
    }
}

/// Puts items in at a position, in blocks of the pool. It takes no memory.
pub fn insert(
    before: &mut Table,
    after: &mut Stack,
    pool: &mut Vec<Block>,
    at: usize,
    items: &[Item],
)
    requires rule { AreBlocks before.old.blocks }
    requires closed { after.old.blocks ≡ [] }
    requires within { at ≤ length (joined before.old.blocks) }
    requires fits { length (joined before.old.blocks) + length items.now < 2 ^ 64 }
    requires room_before { 0 < length items.now
        → length before.old.blocks + more_blocks (length items.now) ≤ before.old.room }
    requires room_after { length before.old.blocks ≤ after.old.room }
    requires pool { 0 < length items.now → more_blocks (length items.now) ≤ vec_len pool.old }
    requires capacity { length before.old.blocks + vec_len pool.old ≤ vec_capacity pool.old }
    ensures rule { AreBlocks before.new.blocks }
    ensures closed { after.new.blocks ≡ [] }
    ensures items { joined before.new.blocks
        ≡ take at (joined before.old.blocks) ++ items.now ++ drop at (joined before.old.blocks) }
    ensures count { length before.new.blocks
        ≤ length before.old.blocks + more_blocks (length items.now) }
    ensures none { length items.now ≡ 0 → length before.new.blocks ≤ length before.old.blocks }
    ensures room_before { before.new.room ≡ before.old.room }
    ensures room_after { after.new.room ≡ after.old.room }
    ensures kept { length before.new.blocks + vec_len pool.new
        ≡ length before.old.blocks + vec_len pool.old }
    ensures capacity { vec_capacity pool.old ≤ vec_capacity pool.new }
{
    if items.is_empty() {
        return;
    }
    if let Some((k, offset)) = before.place_to_part(at, items.len()) {
        insert_in_half(before, pool, k, offset, items, at);
        return;
    }
    let offset = seek(before, after, at);
    cut(before, after, pool, offset);
    fill(before, pool, items);
    gather(before, after, pool);
}
