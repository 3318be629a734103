// The positions of removed attributes.
ghost use Rattle.std.specs.Prelude.{◌≡◌, ◌≤◌, ◌+◌, List, [], Some, None, drop, IfOk, All};
ghost use Rattle.std.specs.List.{list_any};
ghost use Rattle.ve_base.specs.Limits.{max_total_length};
ghost use Rattle.model_items.specs.declared.plain_item.PlainItem.{PlainItem};
ghost use Rattle.model_items.specs.Plain.{plain_list, CitesWell};
ghost use Rattle.model_change.specs.Attributes.{position_kept};
ghost use Rattle.model_change.specs.Fault.{bad_attribute_at};
ghost use Rattle.ve_tx.specs.Applied.{IsFilledOn};
ghost use Rattle.ve_tx.specs.Filled.{is_attribute, MayPass, Passes, Fills};
ghost use Rattle.ve_tx.specs.Making.{item_with_head, standing, IsOpening};
ghost use Rattle.ve_tx.specs.Normal.{size, total_size};
ghost use Rattle.ve_tx.specs.Gathered.{gathered};
ghost use Rattle.ve_tx.specs.Operation.{by_value, with_position, with_positions};

use crate::Op;
use crate::changing::ChangingHead;
use crate::gathered::Gathered;
use crate::inverse::position_at;
use crate::making::present_head;
use std::alloc::Global;
use ve_base::{Memory, Text, TryCopy};
use ve_items::Linear;
use ve_store::Store;

/// A position of the old list, with the head of the item there, where operations have changed it.
#[derive(Drop)]
struct Cursor {
    at: usize,
    head: Option<ChangingHead>,
}

/// Past so many items. A changed head stays with its item.
fn past(cursor: Cursor, count: usize) -> Cursor
    requires { cursor.at + count ≤ max_total_length }
    ensures at { result.at ≡ cursor.at + count }
    ensures standing { (items : List PlainItem)
        → standing items result.at result.head ≡ drop count (standing items cursor.at cursor.head) }
{
    if count == 0 {
        return cursor;
    }
    Cursor {
        at: cursor.at + count,
        head: None,
    }
}

/// The position to keep: that of the attribute, where it is removed, and else the one that is kept
/// already.
fn position_to_keep(
    head: &ChangingHead,
    name: &Text,
    kept: Option<usize>,
    from: &Option<Text>,
    to: &Option<Text>,
) -> Option<usize>
    ensures { (item : PlainItem)
        → IsOpening item
        → result
        ≡ position_kept from.now to.now name.now kept (item_with_head (Some head.now) item) }
{
    match (from, to) {
        (Some(_), None) => Some(head.position(name)),
        (Some(_), Some(_)) => kept,
        (None, _) => kept,
    }
}

/// The cursor after an operation, and the position that the operation keeps.
fn step(
    alloc: Global,
    cursor: Cursor,
    op: &Op,
    kept: Option<usize>,
    list: &Linear,
    store: &Store,
) -> Result<(Cursor, Option<usize>), Memory>
    requires fits { cursor.at + size op.now ≤ max_total_length }
    requires list { All (CitesWell store.now) list.now.items }
    requires allowed { MayPass store.now list.now.items (with_position op.now kept) cursor }
    ensures at { IfOk result (λ next. next.0.at ≤ cursor.at + size op.now) }
    ensures passed { IfOk result (λ next.
        Passes store.now list.now.items (with_position op.now kept) cursor next.0) }
    ensures filled { IfOk result (λ next.
        Fills store.now list.now.items cursor (with_position op.now kept)
        (with_position op.now next.1)) }
{
    match op {
        Op::Retain(count) => Ok((past(cursor, *count), kept)),
        Op::Replace { removed, .. } => Ok((past(cursor, removed.as_slice().len()), kept)),
        Op::Attribute { name, from, to } => {
            let Cursor { at, head } = cursor;
            let present = present_head(alloc, store, list.get(at), head)?;
            let position = position_to_keep(&present, name, kept, from, to);
            let next = present.changed(alloc, name, kept, from, to)?;
            Ok((
                Cursor {
                    at,
                    head: Some(next),
                },
                position,
            ))
        }
    }
}

fn is_attribute(op: &Op) -> bool
    ensures { result ≡ is_attribute op.now }
{
    matches!(op, Op::Attribute { .. })
}

fn has_attribute(ops: &[Op]) -> bool
    ensures { result ≡ list_any is_attribute ops.now }
{
    ops.iter().any(is_attribute)
}

/// Copies of operations that keep no position.
fn unkept_copies(alloc: Global, ops: &[Op]) -> Result<Gathered, Memory>
    ensures ops { IfOk result (λ made. made.ops.items ≡ ops.now) }
    ensures kept { IfOk result (λ made. made.kept.items ≡ []) }
{
    let mut copies = Vec::with_capacity(alloc, ops.len())?;
    for op in ops {
        copies.push(op.copy(alloc)?)?;
    }
    Ok(Gathered {
        ops: copies,
        kept: Vec::new(alloc),
    })
}

/// The copies where there is an attribute operation: in one pass, since each one's position hangs
/// on those before it.
fn filled_along(
    alloc: Global,
    ops: &[Op],
    kept: &[Option<usize>],
    list: &Linear,
    store: &Store,
) -> Result<Gathered, Memory>
    requires within { total_size ops.now ≤ max_total_length }
    requires list { All (CitesWell store.now) list.now.items }
    requires allowed { bad_attribute_at 0 (by_value store.now (with_positions ops.now kept.now))
        (plain_list store.now list.now.items)
        ≡ None }
    ensures ops { IfOk result (λ made. made.ops.items ≡ ops.now) }
    ensures filled { IfOk result (λ made.
        IsFilledOn store.now list.now.items (with_positions ops.now kept.now) (gathered made)) }
{
    let mut made = Gathered::new(alloc);
    let mut cursor = Cursor { at: 0, head: None };
    for i in 0..ops.len() {
        let op = &ops[i];
        let (next, position) = step(alloc, cursor, op, position_at(kept, i), list, store)?;
        made.push(op.copy(alloc)?, position)?;
        cursor = next;
    }
    Ok(made)
}

/// Copies of the operations, each with its position or, where it removes an attribute, with the
/// position that the attribute has just before.
pub fn filled(
    alloc: Global,
    ops: &[Op],
    kept: &[Option<usize>],
    list: &Linear,
    store: &Store,
) -> Result<Gathered, Memory>
    requires within { total_size ops.now ≤ max_total_length }
    requires list { All (CitesWell store.now) list.now.items }
    requires allowed { bad_attribute_at 0 (by_value store.now (with_positions ops.now kept.now))
        (plain_list store.now list.now.items)
        ≡ None }
    ensures ops { IfOk result (λ made. made.ops.items ≡ ops.now) }
    ensures filled { IfOk result (λ made.
        IsFilledOn store.now list.now.items (with_positions ops.now kept.now) (gathered made)) }
{
    // no other operation keeps a position, so most changes are copied as they are
    if has_attribute(ops) {
        return filled_along(alloc, ops, kept, list, store);
    }
    let made = unkept_copies(alloc, ops)?;
    Ok(made)
}
