// Where a caret stands after a text that was typed. A position that no `usize` counts is a want of
// memory like any other.
ghost use Rattle.std.specs.Prelude.{◌≡◌, ◌+◌, List, ◌∷◌, [], map, IfOk};
ghost use Rattle.ve_base.specs.declared.value.Value.{Value};
ghost use Rattle.model_change.specs.Join.{first};
ghost use Rattle.model_change.specs.Transaction.{all_inserted};
ghost use Rattle.model_world.specs.Answers as model;
ghost use Rattle.ve_tx.specs.Operation.{by_value};
ghost use Rattle.ve_changes.specs.TypedCarets.{first_of, inserted_items, inserted_of, HasSeen, SeesMore};

use ve_base::Memory;
use ve_items::Item;
use ve_tx::{Entry, Op, Transaction};

/// How many items were seen, and where the last character ends among them; 0 where there is none.
#[derive(Clone, Copy)]
struct Seen {
    count: usize,
    last: usize,
}

#[tactic(auto, using(crate::proofs::TypedCaretLemmas::sees_char, crate::proofs::TypedCaretLemmas::sees_opening, crate::proofs::TypedCaretLemmas::sees_closing))]
fn one_more(seen: Seen, item: Item) -> Result<Seen, Memory>
    ensures { IfOk result (SeesMore seen (item ∷ [])) }
{
    let Some(count) = seen.count.checked_add(1) else {
        return Err(Memory);
    };
    let last = seen.last;
    match item {
        Item::Char { .. } => Ok(Seen { count, last: count }),
        Item::Opening { .. } => Ok(Seen { count, last }),
        Item::Closing { .. } => Ok(Seen { count, last }),
    }
}

fn more(first: Seen, items: &[Item]) -> Result<Seen, Memory>
    ensures { IfOk result (SeesMore first items.now) }
{
    let mut seen = first;
    for item in items {
        seen = one_more(seen, *item)?;
    }
    Ok(seen)
}

/// The state with one operation's inserted items seen.
#[tactic(auto, using(crate::proofs::TypedCaretLemmas::sees_none))]
fn after_op(seen: Seen, op: &Op) -> Result<Seen, Memory>
    ensures { IfOk result (SeesMore seen (inserted_of op.now)) }
{
    match op {
        Op::Replace { inserted, .. } => {
            let next = more(seen, inserted.as_slice())?;
            Ok(next)
        }
        Op::Retain(_) => Ok(seen),
        Op::Attribute { .. } => Ok(seen),
    }
}

/// The inserted items of operations, seen in order.
fn inserted(ops: &[Op]) -> Result<Seen, Memory>
    ensures { IfOk result (HasSeen (inserted_items ops.now)) }
{
    let mut seen = Seen { count: 0, last: 0 };
    for op in ops {
        seen = after_op(seen, op)?;
    }
    Ok(seen)
}

/// How many items operations pass first.
fn first_passed(ops: &[Op]) -> usize
    ensures { result ≡ first_of ops.now }
{
    match ops.first() {
        Some(Op::Retain(count)) => *count,
        _ => 0,
    }
}

/// The offset just after the last character that a transaction inserts.
pub fn after_inserted(tx: &Transaction) -> Result<usize, Memory>
    ensures { IfOk result (λ at.
        (values : List Value)
        → at
        ≡ first (by_value values tx.now)
        + model.to_last_char (all_inserted (by_value values tx.now))) }
{
    let seen = inserted(tx.ops())?;
    match first_passed(tx.ops()).checked_add(seen.last) {
        Some(at) => Ok(at),
        None => Err(Memory),
    }
}

/// The offset just after the last character that the last transaction of an entry inserts.
pub fn after_text(entry: &Entry) -> Result<usize, Memory>
    ensures { IfOk result (λ at.
        (values : List Value) → at ≡ model.after_text (map (by_value values) entry.now.txs)) }
{
    match entry.txs.as_slice().last() {
        Some(tx) => after_inserted(tx),
        None => Ok(0),
    }
}
