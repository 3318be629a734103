// The span of a transaction, read from its operations.
ghost use Rattle.std.specs.Prelude.{◌≡◌, ◌<◌, ◌^◌};
ghost use Rattle.ve_tx.specs.Operation.{by_value, IsNormal};
ghost use Rattle.ve_rebase.specs.Span.{span_of, end};

use crate::span::ActiveSpan;
use crate::totals::count;
use ve_tx::Transaction;

/// The span of a transaction, in one pass over its operations.
pub fn span_of(tx: &Transaction) -> ActiveSpan
    ensures normal { IsNormal tx.now }
    ensures fits { end result < 2 ^ 64 }
    ensures span { (values : _) → result ≡ span_of (by_value values tx.now) }
{
    let counted = count(tx.ops());
    match tx.active_range() {
        Some((start, end)) => ActiveSpan {
            active: true,
            attributes: counted.sets_attributes_alone(),
            first: start,
            reach: end - start,
            last: counted.end,
            removed: counted.old - start - counted.end,
            inserted: counted.new - start - counted.end,
        },
        None => ActiveSpan {
            active: false,
            attributes: false,
            first: counted.old,
            reach: 0,
            last: 0,
            removed: 0,
            inserted: 0,
        },
    }
}
