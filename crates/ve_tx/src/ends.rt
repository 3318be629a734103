// Operations between other ends.
ghost use Rattle.std.specs.Prelude.{◌≡◌, ◌≤◌, ◌++◌, IfOk, length};
ghost use Rattle.ve_tx.specs.Ends.{core_start, core_end, core_of, retain_of};
ghost use Rattle.ve_tx.specs.Gathered.{gathered};
ghost use Rattle.ve_tx.specs.Operation.{with_positions};

use crate::Op;
use crate::gathered::Gathered;
use crate::inverse::position_at;
use std::alloc::Global;
use ve_base::{Memory, TryCopy};

/// How many operations stand before those between the first and the last retain.
fn core_start(ops: &[Op]) -> usize
    ensures { result ≡ core_start ops.now }
{
    match ops.first() {
        Some(Op::Retain(_)) => 1,
        _ => 0,
    }
}

/// How many operations stand before the last retain, or how many there are.
fn core_end(ops: &[Op]) -> usize
    ensures end { result ≡ core_end ops.now }
    ensures within { result ≤ length ops.now }
{
    match ops.last() {
        Some(Op::Retain(_)) => ops.len() - 1,
        Some(Op::Replace { .. }) => ops.len(),
        Some(Op::Attribute { .. }) => ops.len(),
        None => 0,
    }
}

/// Copies of all operations but the first and the last retain, with their positions, between
/// retains of these lengths; a retain of 0 is left out.
pub fn with_ends(
    alloc: Global,
    first: usize,
    ops: &[Op],
    kept: &[Option<usize>],
    last: usize,
) -> Result<Gathered, Memory>
    ensures { IfOk result (λ made.
        gathered made
        ≡ retain_of first
        ++ (core_of ops.now (with_positions ops.now kept.now) ++ retain_of last)) }
{
    let mut made = Gathered::new(alloc);
    made.retain(first)?;
    for i in core_start(ops)..core_end(ops) {
        made.push(ops[i].copy(alloc)?, position_at(kept, i))?;
    }
    made.retain(last)?;
    Ok(made)
}
