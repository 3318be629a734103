// The inverse of operations.
ghost use Rattle.std.specs.Prelude.{◌≡◌, ◌++◌, ◌∷◌, [], reverse, None, IfOk, OnOk, vec_len, slice_index_or};
ghost use Rattle.ve_tx.specs.Gathered.{gathered};
ghost use Rattle.ve_tx.specs.Operation.{with_position, with_positions};
ghost use Rattle.ve_tx.specs.Turned.{op_back, run_of, turned, UndoesAlso};

use crate::Op;
use crate::gathered::Gathered;
use std::alloc::Global;
use ve_base::{Memory, TryCopy};

/// What undoes an attribute operation, with the position that it keeps.
#[derive(Drop)]
struct Undone {
    op: Op,
    kept: Option<usize>,
}

fn undoing(alloc: Global, op: &Op) -> Result<Op, Memory>
    ensures { IfOk result (λ back. back ≡ op_back op.now) }
{
    match op {
        Op::Retain(count) => Ok(Op::Retain(*count)),
        Op::Replace { removed, inserted } => Ok(Op::Replace {
            removed: inserted.copy(alloc)?,
            inserted: removed.copy(alloc)?,
        }),
        Op::Attribute { name, from, to } => Ok(Op::Attribute {
            name: name.copy(alloc)?,
            from: to.copy(alloc)?,
            to: from.copy(alloc)?,
        }),
    }
}

/// The position beside an operation; none where there is none beside it.
pub fn position_at(kept: &[Option<usize>], i: usize) -> Option<usize>
    ensures { result ≡ slice_index_or kept.now i None }
{
    if i < kept.len() { kept[i] } else { None }
}

/// Puts what undoes the attribute operations of a position after the others, from the last to the
/// first.
fn append_backwards(back: &mut Gathered, run: &mut Vec<Undone>) -> Result<(), Memory>
    requires even { vec_len back.old.ops ≡ vec_len back.old.kept }
    ensures even { OnOk result (vec_len back.new.ops ≡ vec_len back.new.kept) }
    ensures run { OnOk result (run.new.items ≡ []) }
    ensures ok { OnOk result (
        gathered back.new ≡ gathered back.old ++ reverse (run_of run.old.items)) }
{
    while let Some(Undone { op, kept }) = run.pop() {
        back.push(op, kept)?;
    }
    Ok(())
}

/// Puts an operation after the others and after those of the position before it.
fn append(back: &mut Gathered, run: &mut Vec<Undone>, op: Op) -> Result<(), Memory>
    requires even { vec_len back.old.ops ≡ vec_len back.old.kept }
    ensures even { OnOk result (vec_len back.new.ops ≡ vec_len back.new.kept) }
    ensures run { OnOk result (run.new.items ≡ []) }
    ensures ok { OnOk result (
        gathered back.new
        ≡ (gathered back.old ++ reverse (run_of run.old.items)) ++ with_position op None ∷ []) }
{
    append_backwards(back, run)?;
    back.push(op, None)
}

/// Puts in the inverse of the next operation. That of an attribute operation waits in a run, until
/// all those of its position are known.
fn put_back(
    alloc: Global,
    back: &mut Gathered,
    run: &mut Vec<Undone>,
    op: &Op,
    kept: Option<usize>,
) -> Result<(), Memory>
    requires even { vec_len back.old.ops ≡ vec_len back.old.kept }
    ensures even { OnOk result (vec_len back.new.ops ≡ vec_len back.new.kept) }
    ensures ok { OnOk result (
        UndoesAlso (gathered back.old) (run_of run.old.items) (with_position op.now kept)
        (gathered back.new) (run_of run.new.items)) }
{
    let undone = undoing(alloc, op)?;
    match op {
        Op::Attribute { .. } => {
            run.push(Undone { op: undone, kept })?;
            Ok(())
        }
        Op::Retain(_) | Op::Replace { .. } => append(back, run, undone),
    }
}

/// The inverse of operations with their positions. Removed and inserted change places, and so do
/// the old and the new value of each attribute. Attribute operations of one position come in
/// reverse order; kept positions stay.
pub fn inverted(alloc: Global, ops: &[Op], kept: &[Option<usize>]) -> Result<Gathered, Memory>
    ensures { IfOk result (λ back.
        with_positions back.ops.items back.kept.items
        ≡ turned (with_positions ops.now kept.now)) }
{
    let mut back = Gathered::new(alloc);
    let mut run = Vec::new(alloc);
    for i in 0..ops.len() {
        put_back(alloc, &mut back, &mut run, &ops[i], position_at(kept, i))?;
    }
    append_backwards(&mut back, &mut run)?;
    Ok(back)
}
