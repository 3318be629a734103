// The removal of a range.
ghost use Rattle.std.specs.Prelude.{◌≡◌, ◌≤◌, ◌<◌, Some, None, Ok, IsOk, IfOk, IfErr, All, length};
ghost use Rattle.model_items.specs.Plain.{plain_list, CitesWell};
ghost use Rattle.model_items.specs.Offsets as offsets;
ghost use Rattle.model_edit.specs.Remove.{removal_edits};
ghost use Rattle.model_edit.specs.Remove as model;
ghost use Rattle.ve_offsets.specs.Docs.{IsDoc, page_items};
ghost use Rattle.ve_tx.specs.Cites.{TxCites};
ghost use Rattle.ve_tx.specs.Operation.{by_value};
ghost use Rattle.ve_build_remove.specs.Joined.{join_of, edits_between};
ghost use Rattle.ve_edits.specs.Collected.{IsTransactionOf, CitesAsItems};
ghost use Rattle.ve_edits.specs.Refused.{IsRefusal};

use crate::join::{Join, join_at};
use model_edit::BuildFault;
use std::alloc::Global;
use ve_base::Memory;
use ve_edits::{Edits, has_internal, is_bad_span, is_unmatched, same_kind};
use ve_items::Item;
use ve_offsets::Doc;
use ve_tx::Transaction;

/// The positions of a range whose partners are not in it.
fn unmatched_places(
    alloc: Global,
    doc: Doc<'_>,
    from: usize,
    to: usize,
) -> Result<Vec<usize>, Memory>
    requires doc { IsDoc doc }
    requires order { from ≤ to }
    requires within { to ≤ length doc.list.now.items }
    ensures { IfOk result (λ all.
        (values : _)
        → all.items
        ≡ offsets.unmatched_places (plain_list values doc.entry.list.now.items) from to) }
{
    let mut all = Vec::new(alloc);
    for at in from..to {
        if !is_unmatched(doc, from, to, at) {
            continue;
        }
        all.push(at)?;
    }
    Ok(all)
}

/// Each matched item goes, and the unmatched brackets stay.
fn matched_removed(
    alloc: Global,
    doc: Doc<'_>,
    from: usize,
    to: usize,
) -> Result<Transaction, Memory>
    requires doc { IsDoc doc }
    requires order { from ≤ to }
    requires within { to ≤ length doc.list.now.items }
    ensures means { IfOk result (
        IsTransactionOf doc.entry.list.now.items (λ all. removal_edits all from to None)) }
    ensures cites { IfOk result (CitesAsItems doc.entry.list.now.items) }
{
    let mut edits = Edits::new(alloc);
    for at in from..to {
        if is_unmatched(doc, from, to, at) {
            continue;
        }
        edits.change(doc.list, at, 1, &[])?;
    }
    let tx = edits.transaction(doc.list)?;
    Ok(tx)
}

/// The whole range goes, and the second branch then ends with the first one's kind.
fn joined(
    alloc: Global,
    doc: Doc<'_>,
    from: usize,
    to: usize,
    join: Join,
) -> Result<Transaction, Memory>
    requires order { from ≤ to }
    requires past { to ≤ join.second_closing }
    requires within { join.second_closing < length doc.list.now.items }
    ensures means { IfOk result (
        IsTransactionOf doc.entry.list.now.items (λ all.
        removal_edits all from to (Some (join_of join)))) }
    ensures cites { IfOk result (CitesAsItems doc.entry.list.now.items) }
{
    let mut edits = Edits::new(alloc);
    edits.change(doc.list, from, to - from, &[])?;
    if same_kind(join.first, join.second) {
        let tx = edits.transaction(doc.list)?;
        return Ok(tx);
    }
    let closing = Item::Closing {
        kind: join.first,
        pre: None,
    };
    edits.change(doc.list, join.second_closing, 1, &[closing])?;
    let tx = edits.transaction(doc.list)?;
    Ok(tx)
}

/// The removed pieces of a range that may be removed.
fn removed(alloc: Global, doc: Doc<'_>, from: usize, to: usize) -> Result<Transaction, Memory>
    requires doc { IsDoc doc }
    requires order { from ≤ to }
    requires within { to ≤ length doc.list.now.items }
    ensures means { IfOk result (IsTransactionOf doc.entry.list.now.items (edits_between from to)) }
    ensures cites { IfOk result (CitesAsItems doc.entry.list.now.items) }
{
    let unmatched = unmatched_places(alloc, doc, from, to)?;
    match join_at(doc, from, to, unmatched.as_slice()) {
        Some(join) => {
            let tx = joined(alloc, doc, from, to, join)?;
            Ok(tx)
        }
        None => {
            let tx = matched_removed(alloc, doc, from, to)?;
            Ok(tx)
        }
    }
}

/// The transaction that removes a range. Where a branch of content ends in it, another begins in
/// it, and nothing else is unmatched, the whole range goes. So the second branch is joined to the
/// first. In every other range each matched item goes. `BadRange` comes exactly where the range is
/// none of the list, has an end inside a leaf, or holds a bracket of the internal list or of one of
/// its items. Want of memory comes only where the range may be removed.
pub fn removal(
    alloc: Global,
    doc: Doc<'_>,
    from: usize,
    to: usize,
) -> Result<Transaction, BuildFault>
    requires doc { IsDoc doc }
    requires cites { All (CitesWell doc.store.now) doc.list.now.items }
    ensures means { IfOk result (λ tx.
        model.removal (page_items doc.entry) from to ≡ Ok (by_value doc.entry.store.now tx)) }
    ensures cites { IfOk result (λ tx. TxCites doc.entry.store.now tx) }
    ensures refused { IfErr result (λ fault.
        IsRefusal fault (model.removal (page_items doc.entry) from to)) }
    ensures memory { IfErr result (λ fault.
        fault ≡ BuildFault.Memory → IsOk (model.removal (page_items doc.entry) from to)) }
{
    if is_bad_span(doc, from, to) {
        return Err(BuildFault::BadRange { from, to });
    }
    if has_internal(doc, from, to) {
        return Err(BuildFault::BadRange { from, to });
    }
    match removed(alloc, doc, from, to) {
        Ok(tx) => Ok(tx),
        Err(Memory) => Err(BuildFault::Memory),
    }
}
