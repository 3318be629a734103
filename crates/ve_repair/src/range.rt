// The range of a transaction's changes.
ghost use Rattle.std.specs.Prelude.{◌≡◌, ◌≤◌, ◌<◌, ◌+◌, ◌^◌, ◌∷◌, ◌++◌, [], List, IfSome, IfNone};
ghost use Rattle.ve_tx.specs.Normal.{total_size};
ghost use Rattle.ve_tx.specs.declared.op.Op.{Op};
ghost use Rattle.ve_repair.specs.Change.{items_taken, items_made};
ghost use Rattle.ve_repair.specs.Range.{is_replace, KeepItems, IsChangedRange, SparesOutside, FindsRange, HasSeen, BeginsBefore};

use crate::law::{given, taken};
use ve_tx::Op;

/// The range of a list that a transaction changes, from its first replace to its last one.
#[derive(Clone, Copy, Drop)]
pub(crate) struct ChangedRange {
    /// The number of the first replace among the operations.
    pub first: usize,
    /// One more than the number of the last replace.
    pub last: usize,
    /// The position of the old list where the first replace stands, in items.
    pub from: usize,
    /// The position of the old list behind what the last replace removes, in items.
    pub to: usize,
    /// How many items of the new list stand for those between both positions.
    pub len: usize,
}

fn is_replace(op: &Op) -> bool
    ensures { result ≡ is_replace op.now }
{
    matches!(op, Op::Replace { .. })
}

/// The range with one more operation, the `k`-th one, before which so many items of the old list
/// and of the new one stand.
fn with_op(
    found: Option<ChangedRange>,
    k: usize,
    at: usize,
    new_at: usize,
    op: &Op,
) -> Option<ChangedRange>
    requires number { k + 1 < 2 ^ 64 }
    requires old_fits { at + items_taken op.now < 2 ^ 64 }
    requires new_fits { new_at + items_made op.now < 2 ^ 64 }
    requires begins { BeginsBefore found at new_at }
    ensures { (before : List Op)
        → HasSeen before found k at new_at
        → FindsRange (before ++ (op.now ∷ [])) result }
{
    if !is_replace(op) {
        return found;
    }
    let start = found.unwrap_or(ChangedRange {
        first: k,
        last: k,
        from: at,
        to: at,
        len: 0,
    });
    Some(ChangedRange {
        first: start.first,
        last: k + 1,
        from: start.from,
        to: at + taken(op),
        len: new_at + given(op) - start.from,
    })
}

/// The range of the operations' changes: None exactly where there is no replace among them, and so
/// no item comes or goes.
pub(crate) fn changed_range(ops: &[Op]) -> Option<ChangedRange>
    requires fits { total_size ops.now ≤ 2 ^ 60 }
    ensures none { IfNone result (KeepItems ops.now) }
    ensures some { IfSome result (IsChangedRange ops.now) }
    ensures spares { IfSome result (SparesOutside ops.now) }
{
    let mut found = None;
    let mut at = 0;
    let mut new_at = 0;
    for (k, op) in ops.iter().enumerate() {
        found = with_op(found, k, at, new_at, op);
        at += taken(op);
        new_at += given(op);
    }
    found
}
