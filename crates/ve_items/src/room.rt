// The memory that splices need, taken beforehand.
ghost use Rattle.std.specs.Prelude.{◌≡◌, ◌≤◌, ◌<◌, ◌+◌, ◌^◌, OnOk, IsOk, vec_len, vec_capacity};
ghost use Rattle.ve_items.specs.Room.{IsReady, CanTake};

use crate::block::Block;
use crate::stack::Stack;
use crate::table::Table;
use std::alloc::Global;
use ve_base::{FILLED_BLOCK, MAX_BLOCK, Memory};

/// Takes memory until a pool has so many blocks, and room for so many others to come back to it.
/// The blocks that it gets stay, whatever the result.
fn stock(pool: &mut Vec<Block>, alloc: Global, blocks: usize, others: usize) -> Result<(), Memory>
    requires fits { blocks + others < 2 ^ 64 }
    requires kept { others + vec_len pool.old ≤ vec_capacity pool.old }
    ensures more { vec_len pool.old ≤ vec_len pool.new }
    ensures kept { others + vec_len pool.new ≤ vec_capacity pool.new }
    ensures ok { OnOk result (blocks ≤ vec_len pool.new) }
{
    pool.reserve(blocks + others)?;
    while pool.len() < blocks {
        let block = Block::new(alloc)?;
        let pushed = pool.push(block).is_ok();
        prove!(pushed);
    }
    Ok(())
}

/// Takes the memory that one splice of so many items may need, where `spare` doesn't hold it. An
/// `Err` changes no item.
pub fn take_for_one(
    table: &mut Table,
    aside: &mut Stack,
    pool: &mut Vec<Block>,
    alloc: Global,
    spare: usize,
    many: usize,
) -> Result<(), Memory>
    requires { IsReady table.old aside.old (vec_len pool.old) (vec_capacity pool.old) spare }
    ensures blocks { table.new.blocks ≡ table.old.blocks }
    ensures ready { IsReady table.new aside.new (vec_len pool.new) (vec_capacity pool.new) spare }
    ensures ok { OnOk result (
        CanTake table.new aside.new (vec_len pool.new) (vec_capacity pool.new) many) }
    ensures fits { many ≤ spare → IsOk result }
{
    if many <= spare {
        return Ok(());
    }
    if many > usize::MAX - table.items() {
        return Err(Memory);
    }
    let blocks = many / FILLED_BLOCK + 2;
    table.reserve(blocks)?;
    aside.reserve(table.len() + blocks)?;
    stock(pool, alloc, blocks, table.len())
}

/// Takes the memory that all splices of so many items together may need. An `Err` changes no item.
pub fn take_for_all(
    table: &mut Table,
    aside: &mut Stack,
    pool: &mut Vec<Block>,
    alloc: Global,
    spare: usize,
    many: usize,
) -> Result<(), Memory>
    requires { IsReady table.old aside.old (vec_len pool.old) (vec_capacity pool.old) spare }
    ensures blocks { table.new.blocks ≡ table.old.blocks }
    ensures ready { IsReady table.new aside.new (vec_len pool.new) (vec_capacity pool.new) spare }
    ensures ok { OnOk result (
        IsReady table.new aside.new (vec_len pool.new) (vec_capacity pool.new) many) }
{
    let items = table.items();
    if many > usize::MAX - items {
        return Err(Memory);
    }
    let most = (items + many) / (MAX_BLOCK / 2) + 5;
    let more = most - table.len();
    let blocks = (2 * many.min(most)).min(more);
    table.reserve(more)?;
    aside.reserve(most)?;
    stock(pool, alloc, blocks, table.len())
}
