// Two lists of transactions joined, row by row.
ghost use Rattle.std.specs.Prelude.{◌≡◌, ◌≤◌, All, length, map, IfOk, IfErr, OnOk};
ghost use Rattle.ve_tx.specs.Cites.{TxCites};
ghost use Rattle.ve_tx.specs.Operation.{by_value};
ghost use Rattle.ve_rebase.specs.Lists.{RunFromOneLength, AreListsJoined, AreListsRefused, IsRefusedAs};
ghost use Rattle.ve_rebase.specs.Shifted.{IsShifted, FollowFrom, StartTogether, joined_pair, joined_row, joined_rows, with_span, IsOver, IsRow, IsRowUnderWay, RowSoFar, AreRows};
ghost use Rattle.ve_rebase.specs.Span.{old_size};

use crate::RebaseFault;
use crate::shifted::{Shifted, begun, paired, written};
use crate::span::{ActiveSpan, join_apart};
use std::alloc::Global;
use ve_tx::TxList;

/// Joins mine with the committed ones from an index on, in turn, as long as their ranges lie apart.
/// It says at which this ends, and the span of mine over those before it.
// Nearly all of joining happens here: the loop makes no call, and keeps the span in registers.
#[inline(never)]
fn pass_apart(committed: &mut [Shifted<'_>], mine: Shifted<'_>, from: usize) -> (usize, ActiveSpan)
    requires row { IsRowUnderWay committed.old mine from }
    requires from { from ≤ length committed.old }
    ensures row { (old : _) (start : _)
        → RowSoFar old committed.old (with_span mine.entry start) mine.entry.span from
        → RowSoFar old committed.new (with_span mine.entry start) result.1 result.0 }
    ensures on { from ≤ result.0 }
{
    let mut span = mine.span;
    for i in from..committed.len() {
        if !join_apart(&mut committed[i].span, &mut span) {
            return (i, span);
        }
    }
    (committed.len(), span)
}

/// A committed one over one of mine: it becomes what it is over it, and the span is that of mine
/// over it.
fn over(one: &mut Shifted<'_>, mine: Shifted<'_>) -> Result<ActiveSpan, RebaseFault>
    requires shifted { IsShifted one.old }
    requires mine { IsShifted mine }
    requires lengths { old_size one.old.span ≡ old_size mine.span }
    ensures over { IfOk result (λ span. IsOver one.old mine.entry one.new span) }
    ensures refused { IfErr result (λ why.
        (values others : _) → IsRefusedAs (joined_pair values others one.old mine.entry) why) }
{
    let (first, second) = paired(*one, mine)?;
    one.span = first;
    Ok(second)
}

/// The committed ones in turn over one of mine: they become what they are over it, and the span is
/// that of mine over them.
fn row(committed: &mut [Shifted<'_>], mine: Shifted<'_>) -> Result<ActiveSpan, RebaseFault>
    requires shifted { All IsShifted committed.old }
    requires follow { FollowFrom (old_size mine.span) committed.old }
    requires mine { IsShifted mine }
    ensures row { IfOk result (λ span.
        IsRow committed.old mine.entry committed.new span) }
    ensures refused { IfErr result (λ why.
        (values others : _)
        → IsRefusedAs (joined_row values others committed.old mine.entry) why) }
{
    let (mut at, mut span) = pass_apart(committed, mine, 0);
    while at < committed.len() {
        let met = over(&mut committed[at], Shifted { tx: mine.tx, span })?;
        let (next, moved) = pass_apart(
            committed,
            Shifted {
                tx: mine.tx,
                span: met,
            },
            at + 1,
        );
        at = next;
        span = moved;
    }
    Ok(span)
}

/// All rows, in the order of mine.
pub fn rows(
    committed: &mut Vec<Shifted<'_>>,
    mine: &mut Vec<Shifted<'_>>,
) -> Result<(), RebaseFault>
    requires shifted { All IsShifted committed.old.items }
    requires mine_shifted { All IsShifted mine.old.items }
    requires one_length { StartTogether committed.old.items mine.old.items }
    ensures rows { OnOk result (
        AreRows committed.old.items mine.old.items committed.new.items mine.new.items) }
    ensures refused { IfErr result (λ why.
        (values others : _)
        → IsRefusedAs (joined_rows values others committed.old.items mine.old.items) why) }
{
    for j in 0..mine.len() {
        let one = mine[j];
        let span = row(committed.as_mut_slice(), one)?;
        mine[j] = Shifted { tx: one.tx, span };
    }
    Ok(())
}

/// Two lists of transactions joined: the committed ones as they are after mine, and mine as they
/// are after the committed ones, row by row. Where both insert at one position, a committed one's
/// inserted items come first.
///
/// It is refused with the active ranges of the first two that conflict, as they stand by then, in
/// the order of mine and then of the committed ones. Else it can only fail as `Memory`. That is
/// also the answer where a list or a joined transaction would be longer than a transaction may be.
/// None is where the first list with all that both sides insert is within that bound (the law
/// `joined_stay_normal`).
///
/// It reads no value: what each side cites stays as it is. A pair costs a few sums of their spans,
/// and operations are passed only where the ranges of two that set attributes overlap. Each result
/// is written once.
pub fn lists(
    alloc: Global,
    committed: &TxList,
    mine: &TxList,
) -> Result<(TxList, TxList), RebaseFault>
    requires { (values : _)
        → RunFromOneLength (map (by_value values) committed.now) (map (by_value values) mine.now) }
    ensures joined { IfOk result (AreListsJoined committed.now mine.now) }
    ensures committed_cite { IfOk result (λ two.
        (values : _) → All (TxCites values) committed.now → All (TxCites values) two.0) }
    ensures mine_cite { IfOk result (λ two.
        (values : _) → All (TxCites values) mine.now → All (TxCites values) two.1) }
    ensures refused { IfErr result (AreListsRefused committed.now mine.now) }
{
    let mut over = begun(alloc, committed.as_slice())?;
    let mut mine_over = begun(alloc, mine.as_slice())?;
    rows(&mut over, &mut mine_over)?;
    Ok((
        written(alloc, over.as_slice())?,
        written(alloc, mine_over.as_slice())?,
    ))
}
