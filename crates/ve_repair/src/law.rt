// Whether a list stays lawful under a transaction, from what the transaction changes.
ghost use Rattle.std.specs.Prelude.{◌≡◌, ◌≤◌, ◌<◌, ◌+◌, ◌^◌, Ok, Err, None, Some, OnOk, IfErr, IsTrue, length, take, drop};
ghost use Rattle.model_items.specs.Law as law;
ghost use Rattle.ve_lawful.specs.Uncited.{after};
ghost use Rattle.ve_offsets.specs.Docs.{IsDoc};
ghost use Rattle.ve_repair.specs.Change.{CanApply, LawfulAfter, FailsAfter, piece_of, items_taken, items_made};

use model_items::{Item, LawFault};
use ve_items::Linear;
use ve_lawful::{State, check_piece};
use ve_offsets::{Doc, state_at};
use ve_tx::{Op, Transaction};

/// How many items that stay between two changes are read at most, where they could be skipped.
const NEAR: usize = 64;

/// The same offence so many items on.
fn moved(fault: LawFault, by: usize) -> LawFault
    requires { by + law.fault_place fault < 2 ^ 64 }
    ensures { result ≡ law.fault_moved by fault }
{
    match fault {
        LawFault::Unlawful { at } => LawFault::Unlawful { at: by + at },
        LawFault::TooDeep { at } => LawFault::TooDeep { at: by + at },
    }
}

/// Goes on by items, or says at which of them it fails.
fn pass(state: &mut State, items: &[Item]) -> Result<(), LawFault>
    ensures ok { OnOk result (after state.old items.now ≡ Ok state.new) }
    ensures err { IfErr result (λ fault. after state.old items.now ≡ Err fault) }
{
    *state = check_piece(state, items)?;
    Ok(())
}

/// Goes on by so many items of a list from a position on, as it lends them.
fn pass_range(state: &mut State, list: &Linear, at: usize, count: usize) -> Result<(), LawFault>
    requires within { at + count ≤ length list.now.items }
    requires fits { at + count < 2 ^ 64 }
    ensures ok { OnOk result (
        after state.old (take count (drop at list.now.items)) ≡ Ok state.new) }
    ensures err { IfErr result (λ fault.
        after state.old (take count (drop at list.now.items)) ≡ Err fault) }
{
    let mut done = 0;
    while done < count {
        let piece = list.piece(at + done, at + count);
        if let Err(fault) = pass(state, piece) {
            return Err(moved(fault, done));
        }
        done += piece.len();
    }
    Ok(())
}

/// Whether two states are equal.
fn is_same(one: &State, other: &State) -> bool
    ensures { IsTrue result → one.now ≡ other.now }
{
    if one.depth() != other.depth() {
        return false;
    }
    for n in 0..one.depth() {
        if one.kind(n) != other.kind(n) {
            return false;
        }
    }
    if one.seen() {
        other.seen()
    } else {
        !other.seen()
    }
}

/// Goes on by items that stay. Where the state before them is the old list's, the state behind them
/// is too: many are then skipped, and so are the first and the last of a list.
fn pass_retained(
    state: &mut State,
    doc: Doc<'_>,
    at: usize,
    count: usize,
    is_outer: bool,
) -> Result<(), LawFault>
    requires doc { IsDoc doc }
    requires within { at + count ≤ length doc.list.now.items }
    requires fits { at + count < 2 ^ 64 }
    ensures ok { OnOk result (
        after state.old (take count (drop at doc.entry.list.now.items)) ≡ Ok state.new) }
    ensures err { IfErr result (λ fault.
        after state.old (take count (drop at doc.entry.list.now.items)) ≡ Err fault) }
{
    if is_outer || count > NEAR {
        let old = state_at(doc, at);
        if is_same(state, &old) {
            *state = state_at(doc, at + count);
            return Ok(());
        }
    }
    pass_range(state, doc.list, at, count)
}

/// Goes on by the items that an operation puts into the new list.
fn pass_op(
    state: &mut State,
    doc: Doc<'_>,
    at: usize,
    op: &Op,
    is_outer: bool,
) -> Result<(), LawFault>
    requires doc { IsDoc doc }
    requires within { at + items_taken op.now ≤ length doc.list.now.items }
    requires fits { at + items_taken op.now < 2 ^ 64 }
    ensures ok { OnOk result (
        after state.old (piece_of op.now (drop at doc.entry.list.now.items)) ≡ Ok state.new) }
    ensures err { IfErr result (λ fault.
        after state.old (piece_of op.now (drop at doc.entry.list.now.items)) ≡ Err fault) }
{
    match op {
        Op::Retain(count) => pass_retained(state, doc, at, *count, is_outer),
        Op::Replace { inserted, .. } => pass(state, inserted.as_slice()),
        Op::Attribute { .. } => Ok(()),
    }
}

pub(crate) fn taken(op: &Op) -> usize
    ensures { result ≡ items_taken op.now }
{
    match op {
        Op::Retain(count) => *count,
        Op::Replace { removed, .. } => removed.as_slice().len(),
        Op::Attribute { .. } => 0,
    }
}

pub(crate) fn given(op: &Op) -> usize
    ensures { result ≡ items_made op.now }
{
    match op {
        Op::Retain(count) => *count,
        Op::Replace { inserted, .. } => inserted.as_slice().len(),
        Op::Attribute { .. } => 0,
    }
}

/// Whether a list of so many items may end in a state.
fn ended(state: &State, len: usize) -> Result<(), LawFault>
    ensures ok { OnOk result (law.verdict_at len (Ok state.now) ≡ None) }
    ensures err { IfErr result (λ fault. law.verdict_at len (Ok state.now) ≡ Some fault) }
{
    if state.is_over() {
        Ok(())
    } else {
        Err(LawFault::Unlawful { at: len })
    }
}

/// Whether the list is lawful once a transaction is made, or the first position of the new list
/// where it is not. It takes no memory, and writes nothing. Items that stay before the first change
/// it doesn't read, and those behind the last change only where the list isn't lawful. Of those
/// that stay between two changes it reads up to 64 in a row. A longer row it reads only where the
/// new list has other nodes open there than the old one.
pub fn check_change(doc: Doc<'_>, tx: &Transaction) -> Result<(), LawFault>
    requires doc { IsDoc doc }
    requires applies { CanApply tx.now doc.list.now.items }
    ensures ok { OnOk result (LawfulAfter tx.now doc.entry.list.now.items) }
    ensures err { IfErr result (FailsAfter tx.now doc.entry.list.now.items) }
{
    let ops = tx.ops();
    let last = ops.len();
    let mut state = State::root();
    let mut at = 0;
    let mut new_at = 0;
    for (k, op) in ops.iter().enumerate() {
        let is_outer = k == 0 || k + 1 == last;
        if let Err(fault) = pass_op(&mut state, doc, at, op, is_outer) {
            return Err(moved(fault, new_at));
        }
        at += taken(op);
        new_at += given(op);
    }
    ended(&state, new_at)
}
