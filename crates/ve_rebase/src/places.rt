// Whether attribute operations of two transactions meet, found in one pass along both.
ghost use Rattle.std.specs.Prelude.{◌≡◌, ◌≤◌, ◌<◌, ◌+◌, ◌^◌, ◌||◌, ◌&&◌, ℕ, List, Option, length, drop};
ghost use Rattle.model_items.specs.Same.{text_same};
ghost use Rattle.model_change.specs.Attributes.{AttrChange, adds_or_removes};
ghost use Rattle.model_change.specs.Join.{meets_one, some_meet};
ghost use Rattle.ve_tx.specs.Normal.{total_size};
ghost use Rattle.ve_rebase.specs.Places.{passes, places, placed, change_of, meets_first, ahead, AllFrom, SkipsNone, TellsMeeting, TellsPassing};

use ve_base::Text;
use ve_tx::{Op, same_text};

/// How many operations are passed, and the position in the old list after them.
#[derive(Clone, Copy)]
struct Cursor {
    passed: usize,
    at: usize,
}

fn passes(op: &Op) -> usize
    ensures { result ≡ passes op.now }
{
    match op {
        Op::Retain(count) => *count,
        Op::Replace { removed, .. } => removed.as_slice().len(),
        Op::Attribute { .. } => 0,
    }
}

/// Whether a change from one value to another adds or removes the attribute.
fn adds_or_removes(from: &Option<Text>, to: &Option<Text>) -> bool
    ensures { (name : List ℕ) → result ≡ adds_or_removes (change_of name from.now to.now) }
{
    match (from, to) {
        (Some(_), None) => true,
        (None, Some(_)) => true,
        (Some(_), Some(_)) => false,
        (None, None) => false,
    }
}

/// Whether a change of this name, which adds or removes an attribute where `moves` is true, and
/// another one depend on their order.
fn clashes(name: &Text, moves: bool, other: &Text, from: &Option<Text>, to: &Option<Text>) -> bool
    ensures { result
        ≡ (text_same name.now other.now
        || (moves && adds_or_removes (change_of other.now from.now to.now))) }
{
    same_text(name, other) || moves && adds_or_removes(from, to)
}

/// Whether a change of this name, which adds or removes an attribute where `moves` is true, meets
/// one of those that stand at the first position of the operations.
fn meets_first(name: &Text, moves: bool, ops: &[Op]) -> bool
    ensures { result ≡ meets_first name.now moves ops.now }
{
    for op in ops {
        match op {
            Op::Retain(count) => {
                if *count > 0 {
                    return false;
                }
            }
            Op::Replace { removed, .. } => {
                if removed.as_slice().len() > 0 {
                    return false;
                }
            }
            Op::Attribute {
                name: other,
                from,
                to,
            } => {
                if clashes(name, moves, other, from, to) {
                    return true;
                }
            }
        }
    }
    false
}

/// Passes the operations that stand before a position.
fn advance(ops: &[Op], from: Cursor, to: usize) -> Cursor
    requires within { from.passed ≤ length ops.now }
    requires small { from.at + total_size (drop from.passed ops.now) ≤ 2 ^ 62 }
    ensures within { result.passed ≤ length ops.now }
    ensures small { result.at + total_size (drop result.passed ops.now) ≤ 2 ^ 62 }
    ensures skipped { SkipsNone to ops.now from result }
    ensures there { result.passed < length ops.now → to ≤ result.at }
{
    let mut at = from.at;
    for i in from.passed..ops.len() {
        if at >= to {
            return Cursor { passed: i, at };
        }
        at += passes(&ops[i]);
    }
    Cursor {
        passed: ops.len(),
        at,
    }
}

/// Whether a change at a position, of this name, meets one of those from the cursor on, which has
/// passed what stands before the position.
fn meets_here(name: &Text, moves: bool, at: usize, others: &[Op], cursor: Cursor) -> bool
    requires within { cursor.passed ≤ length others.now }
    requires there { cursor.passed < length others.now → at ≤ cursor.at }
    ensures { TellsMeeting name.now moves at (ahead cursor others.now) result }
{
    cursor.at == at && meets_first(name, moves, &others[cursor.passed..])
}

/// Passes one operation of the first transaction: where the cursor in the second is then, and
/// whether the operation meets one of that.
fn pass(op: &Op, at: usize, others: &[Op], cursor: Cursor) -> (Cursor, bool)
    requires within { cursor.passed ≤ length others.now }
    requires small { cursor.at + total_size (drop cursor.passed others.now) ≤ 2 ^ 62 }
    ensures within { result.0.passed ≤ length others.now }
    ensures small { result.0.at + total_size (drop result.0.passed others.now) ≤ 2 ^ 62 }
    ensures met { TellsPassing at op.now others.now cursor result }
{
    match op {
        Op::Attribute { name, from, to } => {
            let cursor = advance(others, cursor, at);
            let moves = adds_or_removes(from, to);
            (cursor, meets_here(name, moves, at, others, cursor))
        }
        Op::Retain(_) => (cursor, false),
        Op::Replace { .. } => (cursor, false),
    }
}

/// Whether some attribute operation of the first, which begins at `first`, meets one of the second,
/// in one pass along both.
pub fn attributes_meet(ops: &[Op], first: usize, others: &[Op], other_first: usize) -> bool
    requires small { first + total_size ops.now ≤ 2 ^ 62 }
    requires others_small { other_first + total_size others.now ≤ 2 ^ 62 }
    ensures { result ≡ some_meet (places first ops.now) (places other_first others.now) }
{
    let mut at = first;
    let mut cursor = Cursor {
        passed: 0,
        at: other_first,
    };
    for i in 0..ops.len() {
        let (next, met) = pass(&ops[i], at, others, cursor);
        if met {
            return true;
        }
        cursor = next;
        at += passes(&ops[i]);
    }
    false
}
