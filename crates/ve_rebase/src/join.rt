// Whether two transactions can be joined, and their join.
ghost use Rattle.std.specs.Prelude.{◌≡◌, ◌≤◌, ◌<◌, ◌^◌, false, IfOk, IfErr};
ghost use Rattle.model_change.specs.Transaction.{old_length};
ghost use Rattle.model_change.specs.Join.{conflict, join};
ghost use Rattle.ve_tx.specs.Cites.{TxCites};
ghost use Rattle.ve_tx.specs.Operation.{by_value};
ghost use Rattle.ve_rebase.specs.Pair.{both_by_value, IsRefused, MayStandIn, between};
ghost use Rattle.ve_rebase.specs.Span.{span_of, old_size, end};

use crate::RebaseFault;
use crate::places::attributes_meet;
use crate::read::span_of;
use crate::span::{ActiveSpan, joined_first, joined_second};
use crate::totals::inserted_count;
use std::alloc::Global;
use ve_base::{MAX_TOTAL_LENGTH, Memory};
use ve_tx::Transaction;

/// Whether two transactions on one list conflict. Where both set attributes alone: whether at one
/// position both have an operation on one name, or each has one that adds or removes. Else: whether
/// their active ranges overlap. It takes no memory, and passes the operations of each twice.
pub fn conflict(a: &Transaction, b: &Transaction) -> bool
    ensures { (values : _) → result ≡ conflict (by_value values a.now) (by_value values b.now) }
{
    clash(a, span_of(a), b, span_of(b))
}

/// The same, where the spans of both are known.
fn clash(a: &Transaction, span: ActiveSpan, b: &Transaction, other: ActiveSpan) -> bool
    requires span { (values : _) → span ≡ span_of (by_value values a.now) }
    requires other { (values : _) → other ≡ span_of (by_value values b.now) }
    requires span_fits { end span < 2 ^ 64 }
    requires other_fits { end other < 2 ^ 64 }
    ensures { (values : _) → result ≡ conflict (by_value values a.now) (by_value values b.now) }
{
    let both = span.both_attributes(other);
    if both {
        let ops = a.ops();
        let others = b.ops();
        attributes_meet(ops, 0, others, 0)
    } else {
        span.meets(other)
    }
}

/// Two transactions on one list, joined: the first as it is after the second, and the second as it
/// is after the first. Where both insert at one position, the first's inserted items come first.
///
/// It is refused with both active ranges exactly where `conflict` is true. Else it can only fail as
/// `Memory`. That is also the answer where the lengths of a joined one would add up to more than
/// `max_total_length`. They never do where the list with all that both insert is within that bound
/// (`JoinsNormal` in model_change).
///
/// Where both apply to a list, applying the second of the results after `a` gives the same list as
/// applying the first after `b`: `join` has this law (`JoinsAgree` in model_change). It reads no
/// value, copies only what the results hold, and passes the operations of each a few times.
pub fn pair(
    alloc: Global,
    a: &Transaction,
    b: &Transaction,
) -> Result<(Transaction, Transaction), RebaseFault>
    requires { (values : _)
        → old_length (by_value values a.now) ≡ old_length (by_value values b.now) }
    ensures joined { IfOk result (λ two.
        (values : _)
        → both_by_value values two ≡ join (by_value values a.now) (by_value values b.now)) }
    ensures apart { IfOk result (λ two.
        (values : _) → conflict (by_value values a.now) (by_value values b.now) ≡ false) }
    ensures first_cites { IfOk result (λ two.
        (values : _) → TxCites values a.now → TxCites values two.0) }
    ensures second_cites { IfOk result (λ two.
        (values : _) → TxCites values b.now → TxCites values two.1) }
    ensures refused { IfErr result (λ why.
        (values : _) → IsRefused (by_value values a.now) (by_value values b.now) why) }
{
    let span = span_of(a);
    let other = span_of(b);
    if clash(a, span, b, other) {
        return Err(RebaseFault::Conflict {
            a_range: span.range(),
            b_range: other.range(),
        });
    }
    let first = reshaped(alloc, a, joined_first(span, other))?;
    let second = reshaped(alloc, b, joined_second(span, other))?;
    Ok((first, second))
}

/// The transaction's operations between the ends of a span.
pub fn reshaped(alloc: Global, tx: &Transaction, span: ActiveSpan) -> Result<Transaction, Memory>
    requires stands { (values : _) → MayStandIn span (by_value values tx.now) }
    requires small { old_size span ≤ 2 ^ 62 }
    ensures made { IfOk result (λ made.
        (values : _) → by_value values made ≡ between span (by_value values tx.now)) }
    ensures cites { IfOk result (λ made.
        (values : _) → TxCites values tx.now → TxCites values made) }
{
    let total = span.old_size() + inserted_count(tx.ops());
    if total > MAX_TOTAL_LENGTH {
        return Err(Memory);
    }
    tx.with_ends(alloc, span.first, span.last)
}
