// Whether a page may become the result of a change.
ghost use Rattle.std.specs.Prelude.{◌≡◌, ◌≤◌, ◌^◌, length, IfSome, IfNone, IfErr, OnOk, None, Some};
ghost use Rattle.ve_lawful.specs.Uncited.{verdict};
ghost use Rattle.ve_offsets.specs.Docs.{IsDoc};
ghost use Rattle.ve_repair.specs.Change.{CanApply, LawfulAfter};
ghost use Rattle.ve_tx.specs.Applied.{MakesEdited};
ghost use Rattle.ve_tx.specs.Spliced.{LieBetween, spliced_by};
ghost use Rattle.ve_editor.specs.Refusal.{IsEditRefusal, list_cause};

use crate::faults::of_law;
use model_site::EditFault;
use ve_base::{MAX_ITEMS, MAX_VALUES};
use ve_items::Linear;
use ve_lawful::LawFault;
use ve_offsets::Doc;
use ve_repair::check_change;
use ve_tx::{Change, Transaction};

/// How many items a list has after a change, where a `usize` names the number.
fn length_after(list: &Linear, change: &Change) -> Option<usize>
    requires { LieBetween 0 (length list.now.items) change.now.splices.items }
    ensures some { IfSome result (λ count.
        count ≡ length (spliced_by list.now.items change.now.splices.items)) }
    ensures none { IfNone result (
        2 ^ 64 ≤ length (spliced_by list.now.items change.now.splices.items)) }
{
    let mut kept = list.len();
    let mut come = 0usize;
    for splice in &change.splices {
        kept -= splice.removed;
        come = come.checked_add(splice.items.as_slice().len())?;
    }
    kept.checked_add(come)
}

/// The law's verdict on a page after the change of a transaction.
fn law_after(doc: Doc<'_>, tx: &Transaction, change: &Change) -> Result<(), LawFault>
    requires doc { IsDoc doc }
    requires applies { CanApply tx.now doc.list.now.items }
    requires made { MakesEdited doc.store.now doc.store.now tx.now doc.list.now.items
        change.now.splices.items }
    ensures ok { OnOk result (
        verdict (spliced_by doc.entry.list.now.items change.now.splices.items) ≡ None) }
    ensures lawful { OnOk result (LawfulAfter tx.now doc.entry.list.now.items) }
    ensures err { IfErr result (λ fault.
        verdict (spliced_by doc.entry.list.now.items change.now.splices.items) ≡ Some fault) }
{
    check_change(doc, tx)
}

/// Whether a page may become the result of a transaction's change. Else the first cause why not: by
/// the law, by the number of items, or by the number of values. A length that no `usize` names is a
/// want of memory like any other.
pub fn may_become(doc: Doc<'_>, tx: &Transaction, change: &Change) -> Result<(), EditFault>
    requires doc { IsDoc doc }
    requires applies { CanApply tx.now doc.list.now.items }
    requires made { MakesEdited doc.store.now doc.store.now tx.now doc.list.now.items
        change.now.splices.items }
    requires within { LieBetween 0 (length doc.list.now.items) change.now.splices.items }
    ensures ok { OnOk result (
        list_cause (spliced_by doc.entry.list.now.items change.now.splices.items)
        (length doc.entry.store.now)
        ≡ None) }
    ensures lawful { OnOk result (LawfulAfter tx.now doc.entry.list.now.items) }
    ensures err { IfErr result (
        IsEditRefusal (
        list_cause (spliced_by doc.entry.list.now.items change.now.splices.items)
        (length doc.entry.store.now))) }
{
    let Some(count) = length_after(doc.list, change) else {
        return Err(EditFault::Memory);
    };
    match law_after(doc, tx, change) {
        Ok(()) => {}
        Err(fault) => return Err(of_law(fault)),
    }
    if count > MAX_ITEMS {
        return Err(EditFault::TooManyItems { count });
    }
    if doc.store.len() > MAX_VALUES {
        return Err(EditFault::StoreFull);
    }
    Ok(())
}
