// Transactions as joining has moved them so far: whether two conflict, and their join.
ghost use Rattle.std.specs.Prelude.{◌≡◌, ◌≤◌, ◌++◌, [], ◌∷◌, All, length, map, IfOk, IfErr};
ghost use Rattle.model_change.specs.Join.{conflict};
ghost use Rattle.ve_base.specs.Limits.{max_total_length};
ghost use Rattle.ve_tx.specs.Cites.{TxCites};
ghost use Rattle.ve_rebase.specs.Lists.{IsRefusedAs};
ghost use Rattle.ve_rebase.specs.Shifted.{IsShifted, shifted_by_value, joined_pair, ArePaired, AreWritten, operations};
ghost use Rattle.ve_rebase.specs.Places.{after_first};
ghost use Rattle.ve_rebase.specs.Span.{old_size};

use crate::RebaseFault;
use crate::join::reshaped;
use crate::places::attributes_meet;
use crate::read::span_of;
use crate::span::{ActiveSpan, joined_first, joined_second};
use std::alloc::Global;
use ve_base::{MAX_TOTAL_LENGTH, Memory};
use ve_tx::{Op, Transaction, TxList};

/// A borrowed transaction, and the span that joining has given it so far. It stands for the
/// transaction's operations between the ends of the span, which are written out only at the end.
#[derive(Clone, Copy)]
pub struct Shifted<'a> {
    pub tx: &'a Transaction,
    pub span: ActiveSpan,
}

/// The operations after the first retain.
fn after_first(ops: &[Op]) -> &[Op]
    ensures { result.now ≡ after_first ops.now }
{
    match ops.first() {
        Some(Op::Retain(_)) => &ops[1..],
        _ => ops,
    }
}

/// Whether two conflict as they stand. Where their ranges lie apart, no operation is passed.
fn conflicts(a: Shifted<'_>, b: Shifted<'_>) -> bool
    requires first { IsShifted a }
    requires second { IsShifted b }
    ensures { (values others : _)
        → result ≡ conflict (shifted_by_value values a.entry) (shifted_by_value others b.entry) }
{
    if !a.span.meets(b.span) {
        return false;
    }
    let both = a.span.both_attributes(b.span);
    if !both {
        return true;
    }
    let ops = after_first(a.tx.ops());
    let others = after_first(b.tx.ops());
    attributes_meet(ops, a.span.first, others, b.span.first)
}

/// The join of the spans of two transactions on lists of one length, or both active ranges where
/// they conflict.
// `join_apart` has done most pairs before: the loop over them, which this stands out of, needs no
// stack then.
#[inline(never)]
pub fn paired(a: Shifted<'_>, b: Shifted<'_>) -> Result<(ActiveSpan, ActiveSpan), RebaseFault>
    requires first { IsShifted a }
    requires second { IsShifted b }
    requires lengths { old_size a.span ≡ old_size b.span }
    ensures paired { IfOk result (λ two. ArePaired a.entry b.entry two.0 two.1) }
    ensures refused { IfErr result (λ why.
        (values others : _) → IsRefusedAs (joined_pair values others a.entry b.entry) why) }
{
    if conflicts(a, b) {
        return Err(RebaseFault::Conflict {
            a_range: a.span.range(),
            b_range: b.span.range(),
        });
    }
    let first = joined_first(a.span, b.span);
    let second = joined_second(a.span, b.span);
    if first.new_size() > MAX_TOTAL_LENGTH {
        return Err(RebaseFault::Memory);
    }
    Ok((first, second))
}

/// Transactions before any is joined.
pub fn begun<'a>(alloc: Global, txs: &'a [Transaction]) -> Result<Vec<Shifted<'a>>, Memory>
    ensures shifted { IfOk result (λ all. All IsShifted all.items) }
    ensures written { IfOk result (λ all. AreWritten txs.now all.items) }
    ensures kept { IfOk result (λ all. map operations all.items ≡ txs.now) }
{
    let mut all = Vec::with_capacity(alloc, txs.len())?;
    for tx in txs {
        let span = span_of(tx);
        all.push(Shifted { tx, span })?;
    }
    Ok(all)
}

/// The transactions that these stand for.
pub fn written(alloc: Global, all: &[Shifted<'_>]) -> Result<TxList, Memory>
    requires { All IsShifted all.now }
    ensures written { IfOk result (λ txs. AreWritten txs all.now) }
    ensures cite { IfOk result (λ txs.
        (values : _)
        → All (TxCites values) (map operations all.now)
        → All (TxCites values) txs) }
{
    let mut txs = TxList::new(alloc);
    for one in all {
        txs.push(reshaped(alloc, one.tx, one.span)?)?;
    }
    Ok(txs)
}
