// The splices of a change, made in one pass.
ghost use Rattle.std.specs.Prelude.{◌≡◌, ◌≤◌, ◌<◌, ◌-◌, ◌++◌, length, take, drop, true, Some, All, IfOk, OnOk, OnErr, is_some, slice_get};
ghost use Rattle.ve_base.specs.Limits.{max_total_length};
ghost use Rattle.ve_base.specs.declared.value.Value.TheVariants as value;
ghost use Rattle.model_items.specs.Plain.{plain, plain_list, head_in, value_at, CitesHead, CitesWell};
ghost use Rattle.model_change.specs.Store.{fill, head_cited, head_if};
ghost use Rattle.ve_tx.specs.Applied.{AppliesTo, IsOverActive, MakesEdited, store_after};
ghost use Rattle.ve_tx.specs.Changed.{brought_by, brought_count};
ghost use Rattle.ve_tx.specs.Cites.{TxCites};
ghost use Rattle.ve_tx.specs.Making.{Extends, item_with_head, headed_from, MayHead, IsHeaded, IsSettled};
ghost use Rattle.ve_tx.specs.Normal.{total_size};
ghost use Rattle.ve_tx.specs.Operation.{by_value, with_positions, IsNormal};
ghost use Rattle.ve_tx.specs.Spliced.{AllCite, LieBetween, come_count};

use crate::Op;
use crate::changing::ChangingHead;
use crate::inverse::position_at;
use crate::splice::Splice;
use std::alloc::Global;
use ve_base::{Head, Memory, Text, TryCopy, Value, ValueId};
use ve_items::{Item, Items, Linear};
use ve_store::Store;

/// A copy of the head that an opening cites.
fn head_copy(alloc: Global, store: &Store, head: Option<ValueId>) -> Result<Head, Memory>
    requires { CitesHead store.now head }
    ensures { IfOk result (λ copy. copy ≡ head_in (value_at store.now head)) }
{
    let Some(id) = head else {
        return Ok(Head::empty(alloc));
    };
    match store.get(id) {
        Value::Head(head) => head.copy(alloc),
        Value::White(_) | Value::Marks(_) => Ok(Head::empty(alloc)),
    }
}

/// The head of an opening as it is by now: the changed one, or a copy of the one that it cites.
pub fn present_head(
    alloc: Global,
    store: &Store,
    item: Item,
    head: Option<ChangingHead>,
) -> Result<ChangingHead, Memory>
    requires { CitesWell store.now item }
    ensures { IfOk result (λ present.
        item_with_head (Some present) (plain store.now item)
        ≡ item_with_head head (plain store.now item)) }
{
    if let Some(head) = head {
        return Ok(head);
    }
    let cited = match item {
        Item::Opening { head, .. } => head_copy(alloc, store, head)?,
        Item::Char { .. } | Item::Closing { .. } => Head::empty(alloc),
    };
    ChangingHead::of(alloc, cited)
}

/// The position of a head in the store, which takes it where it is new; one that says nothing is
/// not cited.
fn cited(store: &mut Store, head: Head) -> Result<Option<ValueId>, Memory>
    ensures cites { IfOk result (CitesHead store.new) }
    ensures head { IfOk result (λ id. head_in (value_at store.new id) ≡ head) }
    ensures store { OnOk result (store.new ≡ fill store.old (head_cited head)) }
    ensures err { OnErr result (store.new ≡ store.old) }
{
    if head.is_empty() {
        return Ok(None);
    }
    let id = store.admit(Value::Head(head))?;
    Ok(Some(id))
}

fn with_head(item: Item, head: Option<ValueId>) -> Item
    ensures item { IsHeaded item head result }
    ensures cites { (values : _)
        → CitesWell values item
        → CitesHead values head
        → CitesWell values result }
{
    match item {
        Item::Opening {
            kind,
            generated,
            marks,
            pre,
            origin,
            ..
        } => Item::Opening {
            kind,
            generated,
            head,
            marks,
            pre,
            origin,
        },
        Item::Char { .. } | Item::Closing { .. } => item,
    }
}

/// Puts the splice after the others that gives an opening its changed head, where it has one.
fn settle(
    alloc: Global,
    splices: &mut Vec<Splice>,
    list: &Linear,
    store: &mut Store,
    at: usize,
    head: Option<ChangingHead>,
) -> Result<(), Memory>
    requires list { All (CitesWell store.old) list.now.items }
    requires within { is_some head ≡ true → at < length list.now.items }
    requires opening { (item : _)
        → slice_get list.now.items at ≡ Some item
        → MayHead head (plain store.old item) }
    ensures splices { OnOk result (
        IsSettled store.old store.new list.now.items at head splices.old.items
        splices.new.items) }
    ensures store { OnOk result (
        store.new ≡ fill store.old (
        head_if (is_some head) (headed_from store.old list.now.items at head))) }
    ensures extends { Extends store.old store.new }
{
    let Some(head) = head else {
        return Ok(());
    };
    let item = list.get(at);
    let head = head.finish(alloc)?;
    let id = cited(store, head)?;
    let mut items = Items::new(alloc);
    items.push(with_head(item, id))?;
    splices.push(Splice {
        at,
        removed: 1,
        items,
    })?;
    Ok(())
}

/// How many items operations bring: those that they insert, and an opening for each attribute
/// operation.
pub fn brought_by(ops: &[Op]) -> usize
    requires { total_size ops.now ≤ max_total_length }
    ensures { result ≡ brought_by ops.now }
{
    let mut count = 0;
    for op in ops {
        count += match op {
            Op::Retain(_) => 0,
            Op::Replace { inserted, .. } => inserted.as_slice().len(),
            Op::Attribute { .. } => 1,
        };
    }
    count
}

/// The splices of operations that apply to the list: one for each replace, and one for each opening
/// of which they change the head. Heads that are new go into the store. Retained items are neither
/// read nor copied.
pub fn new_splices(
    alloc: Global,
    ops: &[Op],
    kept: &[Option<usize>],
    list: &Linear,
    store: &mut Store,
) -> Result<Vec<Splice>, Memory>
    requires list { All (CitesWell store.old) list.now.items }
    requires cites { TxCites store.old (with_positions ops.now kept.now) }
    requires normal { IsNormal (with_positions ops.now kept.now) }
    requires applies { AppliesTo store.old (with_positions ops.now kept.now) list.now.items }
    ensures changed { IfOk result (λ splices.
        MakesEdited store.old store.new (with_positions ops.now kept.now) list.now.items
        splices.items) }
    ensures range { IfOk result (λ splices.
        IsOverActive store.old (with_positions ops.now kept.now) splices.items) }
    ensures within { IfOk result (λ splices. LieBetween 0 (length list.now.items) splices.items) }
    ensures thrifty { IfOk result (λ splices.
        come_count splices.items
        ≤ brought_count (by_value store.old (with_positions ops.now kept.now))) }
    ensures cites { IfOk result (λ splices. AllCite store.new splices.items) }
    ensures store { OnOk result (
        store.new ≡ store_after store.old (with_positions ops.now kept.now) list.now.items) }
    ensures extends { Extends store.old store.new }
{
    let mut splices = Vec::new(alloc);
    let mut at = 0;
    let mut head = None;
    for i in 0..ops.len() {
        match &ops[i] {
            Op::Retain(count) => {
                settle(alloc, &mut splices, list, store, at, head)?;
                head = None;
                at += *count;
            }
            Op::Replace { removed, inserted } => {
                let items = inserted.copy(alloc)?;
                let removed = removed.as_slice().len();
                splices.push(Splice { at, removed, items })?;
                at += removed;
            }
            Op::Attribute { name, from, to } => {
                let present = present_head(alloc, store, list.get(at), head)?;
                let next = present.changed(alloc, name, position_at(kept, i), from, to)?;
                head = Some(next);
            }
        }
    }
    Ok(splices)
}

/// Appends the list's items from one position up to another, as they are borrowed.
pub fn copy_range(items: &mut Items, list: &Linear, from: usize, to: usize) -> Result<(), Memory>
    requires order { from ≤ to }
    requires within { to ≤ length list.now.items }
    ensures { OnOk result (items.new ≡ items.old ++ take (to - from) (drop from list.now.items)) }
{
    let mut at = from;
    while at < to {
        let piece = list.piece(at, to);
        items.extend(piece)?;
        at += piece.len();
    }
    Ok(())
}
