// Marks set on the characters and inline leaves of a range, or taken off them.
ghost use Rattle.std.specs.Prelude.{◌≡◌, ◌≤◌, Ok, IsOk, IfOk, IfErr, All, length, slice_get, find};
ghost use Rattle.model_items.specs.Plain.{plain_list, CitesWell};
ghost use Rattle.model_items.specs.Offsets.{places_in, passes};
ghost use Rattle.model_edit.specs.Marking as model;
ghost use Rattle.ve_store.specs.Following.{Grows, together};
ghost use Rattle.ve_offsets.specs.Docs.{IsDoc, page_items};
ghost use Rattle.ve_tx.specs.Cites.{TxCites};
ghost use Rattle.ve_edits.specs.Filled.{BringsInserted};
ghost use Rattle.ve_edits.specs.Refused.{IsRefusal};
ghost use Rattle.ve_build_shape.specs.Remarked.{marks_after, IsMeant};

use crate::changes::Remark;
use crate::remark::{is_bad_mark, is_full, remarked};
use model_edit::BuildFault;
use std::alloc::Global;
use ve_base::{Mark, Memory};
use ve_edits::{Edits, is_bad_span};
use ve_offsets::Doc;
use ve_store::NewValues;
use ve_tx::Transaction;

/// The first position of a range where an item would have too many marks.
fn first_full(doc: Doc<'_>, from: usize, to: usize, mark: &Mark) -> Option<usize>
    requires within { to ≤ length doc.list.now.items }
    requires cites { All (CitesWell doc.store.now) doc.list.now.items }
    ensures { result
        ≡ find (λ at. passes (model.is_full_for mark.now) (slice_get (page_items doc.entry) at))
        (places_in from to) }
{
    for at in from..to {
        if is_full(doc.store, doc.list.get(at), mark) {
            return Some(at);
        }
    }
    None
}

/// The change of all items of a range.
fn remark_range(
    alloc: Global,
    doc: Doc<'_>,
    from: usize,
    to: usize,
    remark: Remark,
    mark: &Mark,
    new: &mut NewValues,
) -> Result<Transaction, Memory>
    requires order { from ≤ to }
    requires within { to ≤ length doc.list.now.items }
    requires cites { All (CitesWell doc.store.now) doc.list.now.items }
    requires follows { new.old.after ≡ length doc.store.now }
    ensures means { IfOk result (
        IsMeant doc.entry.store.now new.new (
        Ok (model.remark (marks_after remark mark.now) (page_items doc.entry) from to))) }
    ensures cites { IfOk result (TxCites (together doc.entry.store.now new.new)) }
    ensures brings { IfOk result (BringsInserted doc.entry.store.now new.old new.new) }
    ensures grows { Grows new.old new.new }
{
    let mut edits = Edits::new(alloc);
    let mut last = None;
    for at in from..to {
        let item = doc.list.get(at);
        let other = remarked(alloc, doc.store, new, &mut last, item, remark, mark)?;
        let Some(other) = other else {
            continue;
        };
        edits.change(doc.list, at, 1, &[other])?;
    }
    let tx = edits.transaction(doc.list)?;
    Ok(tx)
}

/// The transaction that sets a mark on each character and inline leaf of a range, inside its other
/// marks, unless it has an equal one. Origins stay.
///
/// `BadRange` comes exactly where the range is none of the list or an end of it is inside a leaf.
/// Then `BadMark` comes where the tag marks no text or an attribute has a reserved name. Last,
/// `TooManyMarks` comes at the first item that would have more than 64 marks. Want of memory comes
/// only where none of them does. After a refusal `new` may hold further values.
pub fn marking(
    alloc: Global,
    doc: Doc<'_>,
    from: usize,
    to: usize,
    mark: &Mark,
    new: &mut NewValues,
) -> Result<Transaction, BuildFault>
    requires doc { IsDoc doc }
    requires cites { All (CitesWell doc.store.now) doc.list.now.items }
    requires follows { new.old.after ≡ length doc.store.now }
    ensures means { IfOk result (
        IsMeant doc.entry.store.now new.new (
        model.marking (page_items doc.entry) from to mark.now)) }
    ensures cites { IfOk result (TxCites (together doc.entry.store.now new.new)) }
    ensures brings { IfOk result (BringsInserted doc.entry.store.now new.old new.new) }
    ensures grows { Grows new.old new.new }
    ensures refused { IfErr result (λ fault.
        IsRefusal fault (model.marking (page_items doc.entry) from to mark.now)) }
    ensures memory { IfErr result (λ fault.
        fault ≡ BuildFault.Memory
        → IsOk (model.marking (page_items doc.entry) from to mark.now)) }
{
    if is_bad_span(doc, from, to) {
        return Err(BuildFault::BadRange { from, to });
    }
    if is_bad_mark(mark) {
        return Err(BuildFault::BadMark);
    }
    if let Some(at) = first_full(doc, from, to, mark) {
        return Err(BuildFault::TooManyMarks { at });
    }
    match remark_range(alloc, doc, from, to, Remark::Set, mark, new) {
        Ok(tx) => Ok(tx),
        Err(Memory) => Err(BuildFault::Memory),
    }
}

/// The transaction that takes each mark equal to this off the characters and inline leaves of a
/// range. Origins stay.
///
/// `BadRange` and then `BadMark` come as in `marking`, and want of memory only where neither does.
/// After a refusal `new` may hold further values.
pub fn unmarking(
    alloc: Global,
    doc: Doc<'_>,
    from: usize,
    to: usize,
    mark: &Mark,
    new: &mut NewValues,
) -> Result<Transaction, BuildFault>
    requires doc { IsDoc doc }
    requires cites { All (CitesWell doc.store.now) doc.list.now.items }
    requires follows { new.old.after ≡ length doc.store.now }
    ensures means { IfOk result (
        IsMeant doc.entry.store.now new.new (
        model.unmarking (page_items doc.entry) from to mark.now)) }
    ensures cites { IfOk result (TxCites (together doc.entry.store.now new.new)) }
    ensures brings { IfOk result (BringsInserted doc.entry.store.now new.old new.new) }
    ensures grows { Grows new.old new.new }
    ensures refused { IfErr result (λ fault.
        IsRefusal fault (model.unmarking (page_items doc.entry) from to mark.now)) }
    ensures memory { IfErr result (λ fault.
        fault ≡ BuildFault.Memory
        → IsOk (model.unmarking (page_items doc.entry) from to mark.now)) }
{
    if is_bad_span(doc, from, to) {
        return Err(BuildFault::BadRange { from, to });
    }
    if is_bad_mark(mark) {
        return Err(BuildFault::BadMark);
    }
    match remark_range(alloc, doc, from, to, Remark::TakeOff, mark, new) {
        Ok(tx) => Ok(tx),
        Err(Memory) => Err(BuildFault::Memory),
    }
}
