// Changes with what they take from the page as it was first read: an opening with an origin is the
// one that was read for it.
ghost use Rattle.std.specs.Prelude.{◌≡◌, map, Some, true, IfOk};
ghost use Rattle.std.specs.List.{list_any};
ghost use Rattle.model_world.specs.declared.edit_command.EditCommand.TheVariants as change;
ghost use Rattle.model_world.specs.Completed as model;
ghost use Rattle.ve_changes.specs.Completions as completions;
ghost use Rattle.ve_changes.specs.Completions.{first_items, Completes, FindsFirst};

use crate::first::{FirstItems, head_at, opening_for};
use model_items::PlainItem;
use model_world::{EditCommand, EditCommandList, OpWordList, OpWords, PlainList};
use std::alloc::Global;
use thiserror::Error;
use ve_base::{Head, Memory};
use ve_kinds::{Kind, is_element};

/// Why a change isn't completed.
#[derive(Clone, Copy, Debug, PartialEq, Eq, Error)]
pub(crate) enum Uncompleted {
    #[error("the page has no such origin, or has it of another kind")]
    NoOrigin(usize),
    #[error("there is no memory for it")]
    Memory,
}

impl From<Memory> for Uncompleted {
    ghost use Rattle.std.specs.Prelude.{◌≡◌};
    ghost use Rattle.ve_changes.specs.declared.completion.Uncompleted.TheVariants as not_done;

    ghost from_gives = { λ _ given. given ≡ not_done.Memory };

    fn from(_: Memory) -> Self {
        Uncompleted::Memory
    }
}

// ---- what takes something from there

fn has_origin(item: &PlainItem) -> bool
    ensures { result ≡ completions.has_origin item.now }
{
    match item {
        PlainItem::Opening { origin, .. } => origin.is_some(),
        PlainItem::Char { .. } | PlainItem::Closing { .. } => false,
    }
}

fn have_origins(items: &[PlainItem]) -> bool
    ensures { result ≡ list_any completions.has_origin items.now }
{
    for item in items {
        if has_origin(item) {
            return true;
        }
    }
    false
}

fn inserts_first(op: &OpWords) -> bool
    ensures { result ≡ completions.inserts_first op.now }
{
    match op {
        OpWords::Remove { insert, .. } => have_origins(insert.as_slice()),
        OpWords::Retain(_) | OpWords::Attr { .. } => false,
    }
}

fn insert_first(ops: &[OpWords]) -> bool
    ensures { result ≡ list_any completions.inserts_first ops.now }
{
    for op in ops {
        if inserts_first(op) {
            return true;
        }
    }
    false
}

/// Whether a change inserts an opening with an origin.
fn takes_first(change: &EditCommand) -> bool
    ensures { result ≡ completions.takes_first change.now }
{
    match change {
        EditCommand::Apply { ops } => insert_first(ops.as_slice()),
        _ => false,
    }
}

fn take_first(changes: &[EditCommand]) -> bool
    ensures { result ≡ list_any completions.takes_first changes.now }
{
    for change in changes {
        if takes_first(change) {
            return true;
        }
    }
    false
}

// ---- what it takes

/// The head of an opening of this kind with an origin: an element keeps its own, and a leaf that no
/// tag spells has that which was read.
fn head_for(
    alloc: Global,
    first: FirstItems<'_>,
    kind: Kind,
    head: Head,
    origin: u32,
) -> Result<Head, Uncompleted>
    requires first { FindsFirst first.store.now first.list.now.items first.rows.now }
    ensures { Completes result (
        completions.head_completed (first_items first.entry) kind head (Some origin)) }
{
    let Some((read, id)) = opening_for(first, origin) else {
        return Err(Uncompleted::NoOrigin(origin as usize));
    };
    if kind != read {
        return Err(Uncompleted::NoOrigin(origin as usize));
    }
    if is_element(kind) {
        return Ok(head);
    }
    Ok(head_at(alloc, first.store, id)?)
}

fn head_completed(
    alloc: Global,
    first: FirstItems<'_>,
    kind: Kind,
    head: Head,
    origin: Option<u32>,
) -> Result<Head, Uncompleted>
    requires first { FindsFirst first.store.now first.list.now.items first.rows.now }
    ensures { Completes result (
        completions.head_completed (first_items first.entry) kind head origin) }
{
    match origin {
        None => Ok(head),
        Some(origin) => head_for(alloc, first, kind, head, origin),
    }
}

fn item_completed(
    alloc: Global,
    first: FirstItems<'_>,
    item: PlainItem,
) -> Result<PlainItem, Uncompleted>
    requires first { FindsFirst first.store.now first.list.now.items first.rows.now }
    ensures { Completes result (model.item_completed (first_items first.entry) item) }
{
    match item {
        PlainItem::Opening {
            kind,
            head,
            marks,
            pre,
            origin,
            generated,
        } => {
            match head_completed(alloc, first, kind, head, origin) {
                Ok(head) => Ok(PlainItem::Opening {
                    kind,
                    head,
                    marks,
                    pre,
                    origin,
                    generated,
                }),
                Err(why) => Err(why),
            }
        }
        PlainItem::Char { ch, marks } => Ok(PlainItem::Char { ch, marks }),
        PlainItem::Closing { kind, pre } => Ok(PlainItem::Closing { kind, pre }),
    }
}

fn items_completed(
    alloc: Global,
    first: FirstItems<'_>,
    items: PlainList,
) -> Result<PlainList, Uncompleted>
    requires first { FindsFirst first.store.now first.list.now.items first.rows.now }
    ensures { Completes result (
        model.all_completed (model.item_completed (first_items first.entry)) items) }
{
    let mut done = PlainList::new(alloc);
    let all = items.into_vec();
    // its type keeps that it counts its members, which `as_slice` tells
    let _lent = all.as_slice();
    for item in all {
        match item_completed(alloc, first, item) {
            Ok(item) => done.push(item)?,
            Err(why) => return Err(why),
        }
    }
    Ok(done)
}

fn op_completed(alloc: Global, first: FirstItems<'_>, op: OpWords) -> Result<OpWords, Uncompleted>
    requires first { FindsFirst first.store.now first.list.now.items first.rows.now }
    ensures { Completes result (model.op_completed (first_items first.entry) op) }
{
    match op {
        OpWords::Retain(count) => Ok(OpWords::Retain(count)),
        OpWords::Remove { count, insert } => match items_completed(alloc, first, insert) {
            Ok(insert) => Ok(OpWords::Remove { count, insert }),
            Err(why) => Err(why),
        },
        OpWords::Attr { name, to } => Ok(OpWords::Attr { name, to }),
    }
}

fn ops_completed(
    alloc: Global,
    first: FirstItems<'_>,
    ops: OpWordList,
) -> Result<OpWordList, Uncompleted>
    requires first { FindsFirst first.store.now first.list.now.items first.rows.now }
    ensures { Completes result (
        model.all_completed (model.op_completed (first_items first.entry)) ops) }
{
    let mut done = OpWordList::new(alloc);
    let all = ops.into_vec();
    // its type keeps that it counts its members, which `as_slice` tells
    let _lent = all.as_slice();
    for op in all {
        match op_completed(alloc, first, op) {
            Ok(op) => done.push(op)?,
            Err(why) => return Err(why),
        }
    }
    Ok(done)
}

/// An `apply` of these operations, completed.
fn apply_completed(
    alloc: Global,
    first: FirstItems<'_>,
    ops: OpWordList,
) -> Result<EditCommand, Memory>
    requires first { FindsFirst first.store.now first.list.now.items first.rows.now }
    ensures { IfOk result (λ done.
        done ≡ model.completed (first_items first.entry) (change.Apply ops)) }
{
    if !insert_first(ops.as_slice()) {
        return Ok(EditCommand::Apply { ops });
    }
    match ops_completed(alloc, first, ops) {
        Ok(ops) => Ok(EditCommand::Apply { ops }),
        Err(Uncompleted::NoOrigin(origin)) => Ok(EditCommand::NoOrigin { origin }),
        Err(Uncompleted::Memory) => Err(Memory),
    }
}

/// A change with what it takes from the page as it was first read. It is moved where it takes
/// nothing from there.
pub fn completed(
    alloc: Global,
    first: FirstItems<'_>,
    change: EditCommand,
) -> Result<EditCommand, Memory>
    requires first { FindsFirst first.store.now first.list.now.items first.rows.now }
    ensures { IfOk result (λ done. done ≡ model.completed (first_items first.entry) change) }
{
    match change {
        EditCommand::Apply { ops } => apply_completed(alloc, first, ops),
        other => Ok(other),
    }
}

/// Changes with what they take from there, each on its own.
pub fn all_completed(
    alloc: Global,
    first: FirstItems<'_>,
    changes: EditCommandList,
) -> Result<EditCommandList, Memory>
    requires first { FindsFirst first.store.now first.list.now.items first.rows.now }
    ensures { IfOk result (λ done.
        done ≡ map (model.completed (first_items first.entry)) changes) }
{
    if !take_first(changes.as_slice()) {
        return Ok(changes);
    }
    let mut done = EditCommandList::new(alloc);
    let all = changes.into_vec();
    // its type keeps that it counts its members, which `as_slice` tells
    let _lent = all.as_slice();
    for change in all {
        let change = completed(alloc, first, change)?;
        done.push(change)?;
    }
    Ok(done)
}
