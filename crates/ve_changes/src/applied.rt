// Operations as a line writes them, over a page's store: the items that they remove are the list's,
// and those that they insert cite values.
ghost use Rattle.std.specs.Prelude.{◌≡◌, ◌≤◌, ◌<◌, ◌+◌, ◌^◌, None, IfErr, IfOk, OnErr, OnOk, drop, length};
ghost use Rattle.model_change.specs.Store.{cited, fill};
ghost use Rattle.model_change.specs.Transaction.{all_inserted};
ghost use Rattle.model_edit.specs.Edits as model_edits;
ghost use Rattle.model_world.specs.declared.edit_command.EditCommand.TheVariants as change;
ghost use Rattle.model_world.specs.Edits as model;
ghost use Rattle.model_world_law.specs.Fit.{IsWritten};
ghost use Rattle.ve_store.specs.Following.{together};
ghost use Rattle.ve_tx.specs.Cites.{OperationCites, TxCites};
ghost use Rattle.ve_tx.specs.Searched.{SearchesIn, first_attrs};
ghost use Rattle.ve_tx.specs.Operation.{by_value, operation_by_value, unkept, with_position};
ghost use Rattle.ve_editor.specs.Page.{IsPage};
ghost use Rattle.ve_offsets.specs.Docs.{page_items};
ghost use Rattle.ve_changes.specs.Applied as words;
ghost use Rattle.ve_changes.specs.Drafts.{Drafts};

use crate::ChangeStop;
use crate::cited::cited_items;
use model_world::{OpWords, Refusal};
use std::alloc::Global;
use ve_base::{Memory, Text, TryCopy};
use ve_offsets::Doc;
use ve_store::NewValues;
use ve_tx::{Draft, Op, OpList, Search, Transaction, attrs_at};

/// How many items an operation passes.
fn passed(op: &OpWords) -> usize
    ensures { result ≡ words.items_passed op.now }
{
    match op {
        OpWords::Retain(count) => *count,
        OpWords::Remove { count, .. } => *count,
        OpWords::Attr { .. } => 0,
    }
}

/// The length of the list that operations need. Want of memory comes only where no `usize` counts
/// it: what a line can write, below 2^32 each, doesn't add up to that.
fn needs(ops: &[OpWords]) -> Result<usize, Memory>
    ensures counted { IfOk result (λ needs. needs ≡ model.needs ops.now) }
    ensures memory { OnErr result (2 ^ 64 ≤ model.needs ops.now) }
{
    let mut sum: usize = 0;
    for op in ops {
        let Some(next) = sum.checked_add(passed(op)) else {
            return Err(Memory);
        };
        sum = next;
    }
    Ok(sum)
}

/// How the attributes at a position are searched for an operation, and for the next one after it.
/// Those of one position have one search.
fn search_at<'a>(
    alloc: Global,
    doc: Doc<'a>,
    at: usize,
    op: &OpWords,
    search: Search<'a>,
) -> Search<'a>
    requires page { IsPage doc.store.now doc.list.now.items doc.tree.now }
    requires search { SearchesIn (first_attrs (drop at (page_items doc))) search }
    ensures here { SearchesIn (first_attrs (drop at (page_items doc.entry))) result }
    ensures after { SearchesIn
        (first_attrs (drop (at + words.items_passed op.now) (page_items doc.entry))) result }
{
    match op {
        OpWords::Retain(_) | OpWords::Remove { .. } => Search::new(),
        OpWords::Attr { .. } => search.next(alloc, attrs_at(doc.list, doc.store, at)),
    }
}

/// The value that an attribute has at a position; none at the list's end.
fn value_at<'a>(
    alloc: Global,
    doc: Doc<'a>,
    at: usize,
    search: &Search<'a>,
    name: &Text,
) -> Result<Option<Text>, Memory>
    requires page { IsPage doc.store.now doc.list.now.items doc.tree.now }
    requires search { SearchesIn (first_attrs (drop at (page_items doc))) search.now }
    ensures { IfOk result (λ value.
        value ≡ model_edits.present_value name.now (drop at (page_items doc.entry))) }
{
    let attrs = attrs_at(doc.list, doc.store, at);
    match search.value(attrs, name) {
        Some(value) => {
            let value = value.copy(alloc)?;
            Ok(Some(value))
        }
        None => Ok(None),
    }
}

/// An operation at a position. The values take those that its inserted items cite.
fn op_at<'a>(
    alloc: Global,
    doc: Doc<'a>,
    new: &mut NewValues,
    at: usize,
    search: &Search<'a>,
    op: &OpWords,
) -> Result<Op, Memory>
    requires page { IsPage doc.store.now doc.list.now.items doc.tree.now }
    requires search { SearchesIn (first_attrs (drop at (page_items doc))) search.now }
    requires follows { new.old.after ≡ length doc.store.now }
    requires within { at + words.items_passed op.now ≤ length doc.list.now.items }
    ensures follows { OnOk result (new.new.after ≡ length doc.entry.store.now) }
    ensures cites { IfOk result (λ made.
        OperationCites (together doc.entry.store.now new.new) (with_position made None)) }
    ensures means { IfOk result (λ made.
        operation_by_value (together doc.entry.store.now new.new) (with_position made None)
        ≡ words.op_on op.now (drop at (page_items doc.entry))) }
    ensures values { OnOk result (
        together doc.entry.store.now new.new
        ≡ fill (together doc.entry.store.now new.old) (cited (words.inserted_by op.now))) }
{
    match op {
        OpWords::Retain(count) => Ok(Op::Retain(*count)),
        OpWords::Remove { count, insert } => {
            let len = doc.list.len();
            prove!(at <= len);
            let removed = doc.list.slice(alloc, at, at + *count)?;
            let inserted = cited_items(alloc, doc.store, new, insert.as_slice())?;
            Ok(Op::Replace { removed, inserted })
        }
        OpWords::Attr { name, to } => Ok(Op::Attribute {
            name: name.copy(alloc)?,
            from: value_at(alloc, doc, at, search, name)?,
            to: to.copy(alloc)?,
        }),
    }
}

/// The operations of a list that is as long as they need. The values take those that the inserted
/// items cite.
fn ops_on(
    alloc: Global,
    doc: Doc<'_>,
    new: &mut NewValues,
    ops: &[OpWords],
) -> Result<OpList, Memory>
    requires page { IsPage doc.store.now doc.list.now.items doc.tree.now }
    requires follows { new.old.after ≡ length doc.store.now }
    requires needs { model.needs ops.now ≡ length doc.list.now.items }
    ensures follows { OnOk result (new.new.after ≡ length doc.entry.store.now) }
    ensures cites { IfOk result (λ made.
        TxCites (together doc.entry.store.now new.new) (unkept made)) }
    ensures means { IfOk result (λ made.
        by_value (together doc.entry.store.now new.new) (unkept made)
        ≡ model.ops_on ops.now (page_items doc.entry)) }
    ensures values { OnOk result (
        together doc.entry.store.now new.new ≡ fill (together doc.entry.store.now new.old) (
        cited (all_inserted (model.ops_on ops.now (page_items doc.entry))))) }
{
    // a list's length fits, and so does each position in it
    let _len = doc.list.len();
    let mut made = OpList::new(alloc);
    let mut at = 0;
    let mut search = Search::new();
    for op in ops {
        search = search_at(alloc, doc, at, op, search);
        let next = op_at(alloc, doc, new, at, &search, op)?;
        made.push(next)?;
        at += passed(op);
    }
    Ok(made)
}

/// The draft of operations that a line writes. The items that they remove, and the old values of
/// the attributes that they set, are the list's.
///
/// `BadLength` comes exactly where the items that they pass and remove aren't as many as the list
/// has. Lengths that add up to more than 2^60, those of inserted items among them, are a want of
/// memory like any other. That never comes in the place of `BadLength`, unless the items that are
/// passed and removed are more than a `usize` counts.
pub fn applied_draft(alloc: Global, doc: Doc<'_>, ops: &[OpWords]) -> Result<Draft, ChangeStop>
    requires written { IsWritten (change.Apply ops.now) }
    requires page { IsPage doc.store.now doc.list.now.items doc.tree.now }
    ensures drafts { Drafts doc.entry.store.now
        (model.transaction_of_ops (page_items doc.entry) ops.now) result }
    ensures memory { IfErr result (λ stop.
        stop ≡ ChangeStop.Memory
        → model.needs ops.now < 2 ^ 64
        → model.needs ops.now ≡ length (page_items doc.entry)) }
{
    let has = doc.list.len();
    let needs = needs(ops)?;
    if needs != has {
        return Err(ChangeStop::Refused(Refusal::BadLength { has, needs }));
    }
    let mut values = NewValues::new(alloc, doc.store);
    let ops = ops_on(alloc, doc, &mut values, ops)?;
    match Transaction::from_ops(ops) {
        Ok(tx) => Ok(Draft { tx, values }),
        Err(_) => Err(ChangeStop::Memory),
    }
}
