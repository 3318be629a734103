// A list item moved one list out.
ghost use Rattle.std.specs.Prelude.{◌≡◌, ◌≤◌, ◌<◌, ◌+◌, ◌==◌, true, Ok, IsOk, IfOk, IfErr, All, length};
ghost use Rattle.model_items.specs.Offsets as offsets;
ghost use Rattle.model_items.specs.Plain.{plain_list, CitesWell};
ghost use Rattle.model_edit.specs.Lists.{end_before};
ghost use Rattle.model_edit.specs.Lists as model;
ghost use Rattle.ve_offsets.specs.Docs.{IsDoc, page_items};
ghost use Rattle.ve_store.specs.Following.{Grows, together};
ghost use Rattle.ve_tx.specs.Cites.{TxCites};
ghost use Rattle.ve_tx.specs.Operation.{by_value};
ghost use Rattle.ve_edits.specs.Filled.{BringsInserted};
ghost use Rattle.ve_lists.specs.Moved.{open_of, BeginsWith, MovesOut, IsListRefusal};

use crate::brackets::{ListStart, closing, is_list_item, nested_list};
use model_edit::ListFault;
use std::alloc::Global;
use ve_base::Memory;
use ve_edits::{Edits, copy_of, partner};
use ve_kinds::Kind;
use ve_offsets::Doc;
use ve_store::NewValues;
use ve_tx::Transaction;

/// The edit before the item: the list ends there, and the item that it stands in; where the list
/// would be empty, it goes.
fn ended(alloc: Global, doc: Doc<'_>, at: usize, list: ListStart) -> Result<Edits, Memory>
    requires list { list.from < length doc.list.now.items }
    requires within { at ≤ length doc.list.now.items }
    ensures at { IfOk result (λ edits. edits.at ≡ at) }
    ensures makes { IfOk result (
        BeginsWith doc.entry.list.now.items (λ _. end_before at (open_of list))) }
{
    let mut edits = Edits::new(alloc);
    let len = doc.list.len();
    prove!(list.from < len);
    if list.from + 1 == at {
        edits.change(doc.list, list.from, 1, &[closing(Kind::Li)])?;
        return Ok(edits);
    }
    edits.change(doc.list, at, 0, &[closing(list.kind), closing(Kind::Li)])?;
    Ok(edits)
}

/// The transaction that moves the item out of the list.
fn outdented(
    alloc: Global,
    doc: Doc<'_>,
    at: usize,
    list: ListStart,
    new: &mut NewValues,
) -> Result<Transaction, Memory>
    requires doc { IsDoc doc }
    requires cites { All (CitesWell doc.store.now) doc.list.now.items }
    requires follows { new.old.after ≡ length doc.store.now }
    requires list { list.from < length doc.list.now.items }
    requires within { at < length doc.list.now.items }
    requires opens { (values : _)
        → model.is_list_item (plain_list values doc.list.now.items) at ≡ true }
    ensures means { IfOk result (
        MovesOut doc.entry.store.now new.new (page_items doc.entry) at (open_of list)) }
    ensures cites { IfOk result (λ tx. TxCites (together doc.entry.store.now new.new) tx) }
    ensures values { IfOk result (BringsInserted doc.entry.store.now new.old new.new) }
    ensures grows { Grows new.old new.new }
{
    let other = partner(doc, at);
    let len = doc.list.len();
    prove!(other < len);
    let mut edits = ended(alloc, doc, at, list)?;
    if partner(doc, list.from) == other + 1 {
        edits.change(doc.list, other, 2, &[])?;
        let tx = edits.transaction(doc.list)?;
        return Ok(tx);
    }
    let copy = copy_of(alloc, doc.store, new, doc.list.get(list.from))?;
    edits.change(doc.list, other, 1, &[copy])?;
    let tx = edits.transaction(doc.list)?;
    Ok(tx)
}

/// The transaction that moves a list item out of its list, to stand after the item that the list
/// stands in. The items after it in its list become a list in it. The nodes after the list in the
/// outer item are then its own too. `NotListItem` comes exactly where no list item begins at the
/// position, and `NotNested` exactly where its list stands in no list item. Want of memory comes
/// only where neither does, and `new` may then hold further values.
pub fn outdent(
    alloc: Global,
    doc: Doc<'_>,
    at: usize,
    new: &mut NewValues,
) -> Result<Transaction, ListFault>
    requires doc { IsDoc doc }
    requires cites { All (CitesWell doc.store.now) doc.list.now.items }
    requires follows { new.old.after ≡ length doc.store.now }
    ensures means { IfOk result (λ tx.
        model.outdent (page_items doc.entry) at
        ≡ Ok (by_value (together doc.entry.store.now new.new) tx)) }
    ensures cites { IfOk result (λ tx. TxCites (together doc.entry.store.now new.new) tx) }
    ensures values { IfOk result (BringsInserted doc.entry.store.now new.old new.new) }
    ensures grows { Grows new.old new.new }
    ensures refused { IfErr result (λ fault.
        IsListRefusal fault (model.outdent (page_items doc.entry) at)) }
    ensures memory { IfErr result (λ fault.
        fault ≡ ListFault.Memory → IsOk (model.outdent (page_items doc.entry) at)) }
{
    if !is_list_item(doc, at) {
        return Err(ListFault::NotListItem { at });
    }
    let Some(list) = nested_list(doc, at) else {
        return Err(ListFault::NotNested { at });
    };
    match outdented(alloc, doc, at, list, new) {
        Ok(tx) => Ok(tx),
        Err(Memory) => Err(ListFault::Memory),
    }
}
