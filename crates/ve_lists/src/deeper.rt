// A list item moved one list deeper.
ghost use Rattle.std.specs.Prelude.{◌≡◌, ◌≤◌, ◌<◌, true, Ok, IsOk, IfOk, IfErr, All, length};
ghost use Rattle.model_items.specs.Plain.{plain_list, CitesWell};
ghost use Rattle.model_edit.specs.Lists.{indent_edits};
ghost use Rattle.model_edit.specs.Lists as model;
ghost use Rattle.ve_offsets.specs.Docs.{IsDoc, page_items};
ghost use Rattle.ve_tx.specs.Cites.{TxCites};
ghost use Rattle.ve_tx.specs.Operation.{by_value};
ghost use Rattle.ve_edits.specs.Collected.{IsTransactionOf, CitesAsItems};
ghost use Rattle.ve_lists.specs.Moved.{joining, BeginsWith, IsListRefusal};

use crate::brackets::{closes_before, closing, is_list_item, kind_at};
use model_edit::ListFault;
use std::alloc::Global;
use ve_base::Memory;
use ve_edits::{Edits, partner};
use ve_items::Item;
use ve_kinds::Kind;
use ve_offsets::Doc;
use ve_tx::Transaction;

/// The edit before the item: it joins the list of the kind that ends the item before it, or a new
/// one there.
fn joined(alloc: Global, doc: Doc<'_>, at: usize, kind: Kind) -> Result<Edits, Memory>
    requires sibling { 0 < at }
    requires within { at ≤ length doc.list.now.items }
    ensures at { IfOk result (λ edits. edits.at ≡ at) }
    ensures makes { IfOk result (BeginsWith doc.entry.list.now.items (joining at kind)) }
{
    let mut edits = Edits::new(alloc);
    if closes_before(doc, at - 1, kind) {
        edits.change(doc.list, at - 2, 2, &[])?;
        return Ok(edits);
    }
    let opening = Item::Opening {
        kind,
        head: None,
        marks: None,
        pre: None,
        origin: None,
        generated: false,
    };
    edits.change(doc.list, at - 1, 1, &[opening])?;
    Ok(edits)
}

/// The transaction that moves the item, where another one stands before it in the list, which has
/// the kind.
fn indented(alloc: Global, doc: Doc<'_>, at: usize, kind: Kind) -> Result<Transaction, Memory>
    requires doc { IsDoc doc }
    requires sibling { 0 < at }
    requires within { at < length doc.list.now.items }
    requires opens { (values : _)
        → model.is_list_item (plain_list values doc.list.now.items) at ≡ true }
    ensures means { IfOk result (
        IsTransactionOf doc.entry.list.now.items (λ all. indent_edits all at kind)) }
    ensures cites { IfOk result (CitesAsItems doc.entry.list.now.items) }
{
    let other = partner(doc, at);
    let len = doc.list.len();
    prove!(other < len);
    let mut edits = joined(alloc, doc, at, kind)?;
    edits.change(doc.list, other + 1, 0, &[closing(kind), closing(Kind::Li)])?;
    let tx = edits.transaction(doc.list)?;
    Ok(tx)
}

/// The transaction that moves a list item into a list at the end of the item before it. That is the
/// list that stands there, if it has the kind of the item's own list, or else a new one.
/// `NotListItem` comes exactly where no list item begins at the position, and `NoSibling` exactly
/// where none ends just before it. Want of memory comes only where neither does.
pub fn indent(alloc: Global, doc: Doc<'_>, at: usize) -> Result<Transaction, ListFault>
    requires doc { IsDoc doc }
    requires cites { All (CitesWell doc.store.now) doc.list.now.items }
    ensures means { IfOk result (λ tx.
        model.indent (page_items doc.entry) at ≡ Ok (by_value doc.entry.store.now tx)) }
    ensures cites { IfOk result (λ tx. TxCites doc.entry.store.now tx) }
    ensures refused { IfErr result (λ fault.
        IsListRefusal fault (model.indent (page_items doc.entry) at)) }
    ensures memory { IfErr result (λ fault.
        fault ≡ ListFault.Memory → IsOk (model.indent (page_items doc.entry) at)) }
{
    if !is_list_item(doc, at) {
        return Err(ListFault::NotListItem { at });
    }
    if !closes_before(doc, at, Kind::Li) {
        return Err(ListFault::NoSibling { at });
    }
    match indented(alloc, doc, at, kind_at(doc, at)) {
        Ok(tx) => Ok(tx),
        Err(Memory) => Err(ListFault::Memory),
    }
}
