// Pending entries under an entry of another site, on a trial of the page.
ghost use Rattle.std.specs.Prelude.{◌≡◌, ◌≤◌, ◌+◌, ◌++◌, All, length, map, take, drop, IfOk, OnOk};
ghost use Rattle.model_change.specs.Replay.{flattened};
ghost use Rattle.model_site.specs.Entries.{all_reverted};
ghost use Rattle.model_site.specs.Replica.{all_performed};
ghost use Rattle.model_site.specs.Untold.{passed};
ghost use Rattle.ve_tx.specs.ByValue.{parcel_by_value, ParcelCites};
ghost use Rattle.model_change.specs.Cost.{cost_of_transactions};
ghost use Rattle.ve_editor.specs.Edited.{AllStand, entry_by_value};
ghost use Rattle.ve_site.specs.Dropped.{AreDropped, IsAdmitted, IsStack, back_over, numbered_alike};
ghost use Rattle.ve_editor.specs.Page.{replica_of};

use crate::untold::Untold;
use std::alloc::Global;
use std::sync::ledger::Ledger;
use ve_base::{Memory, Steps};
use ve_editor::Trial;
use ve_rebase::entry_in;
use ve_tx::{Entry, EntryList, Parcel};

/// Takes back all entries but the first so many, the last one first. An `Err` may leave some of
/// them taken back.
fn take_back<L: Ledger>(
    trial: &mut Trial,
    sent: &[Entry],
    unsent: &[Entry],
    count: usize,
    left: usize,
    steps: &mut Steps<L>,
) -> Result<(), Memory>
    requires stack { IsStack (replica_of trial.old.page) (sent.now ++ unsent.now) }
    requires count { count ≡ length (sent.now ++ unsent.now) }
    requires left { left ≤ count }
    ensures dropped { OnOk result (
        AreDropped (replica_of trial.old.page) (take left (sent.now ++ unsent.now))
        (drop left (sent.now ++ unsent.now)) (replica_of trial.new.page)) }
    ensures first { trial.new.first ≡ trial.old.first }
    ensures counted { steps.old ≤ steps.new }
    ensures steps { steps.new
        ≤ steps.old
        + cost_of_transactions (back_over trial.old.page.store (drop left (sent.now ++ unsent.now)))
        trial.old.page.items }
{
    let mut at = count;
    while at > left {
        at -= 1;
        trial.revert(entry_in(sent, unsent, at), steps)?;
    }
    Ok(())
}

/// Takes back all entries but the first so many, and performs a parcel then. It gives how many
/// values the store has after that. An `Err` may leave a part of it done.
pub fn admit_under<L: Ledger>(
    trial: &mut Trial,
    sent: &[Entry],
    unsent: &[Entry],
    left: usize,
    committed: &Parcel,
    steps: &mut Steps<L>,
) -> Result<usize, Memory>
    requires stack { IsStack (replica_of trial.old.page) (sent.now ++ unsent.now) }
    requires left { left ≤ length (sent.now ++ unsent.now) }
    requires cites { ParcelCites committed.now }
    requires stands { AllStand (parcel_by_value committed.now)
        (all_reverted (
        map (entry_by_value trial.old.page.store) (drop left (sent.now ++ unsent.now)))
        (replica_of trial.old.page)).items }
    ensures admitted { OnOk result (
        IsAdmitted (replica_of trial.old.page) (sent.now ++ unsent.now) left
        (parcel_by_value committed.now) (replica_of trial.new.page)) }
    ensures stored { IfOk result (λ stored. stored ≡ length trial.new.page.store) }
    ensures first { trial.new.first ≡ trial.old.first }
    ensures counted { steps.old ≤ steps.new }
    ensures steps { steps.new
        ≤ steps.old
        + cost_of_transactions (
        back_over trial.old.page.store (drop left (sent.now ++ unsent.now))
        ++ parcel_by_value committed.now) trial.old.page.items }
{
    let Some(count) = sent.len().checked_add(unsent.len()) else {
        return Err(Memory);
    };
    take_back(trial, sent, unsent, count, left, steps)?;
    let last = trial.admit(committed, steps)?;
    Ok(last.store_after)
}

/// Performs parcels, one after the other. An `Err` may leave some of them performed.
pub fn admit_each<L: Ledger>(
    trial: &mut Trial,
    parcels: &[Parcel],
    steps: &mut Steps<L>,
) -> Result<(), Memory>
    requires cite { All ParcelCites parcels.now }
    requires stand { AllStand (flattened (map parcel_by_value parcels.now)) trial.old.page.items }
    ensures page { OnOk result (
        replica_of trial.new.page
        ≡ all_performed (flattened (map parcel_by_value parcels.now)) (replica_of trial.old.page)) }
    ensures first { trial.new.first ≡ trial.old.first }
    ensures counted { steps.old ≤ steps.new }
    ensures steps { steps.new
        ≤ steps.old
        + cost_of_transactions (flattened (map parcel_by_value parcels.now)) trial.old.page.items }
{
    for parcel in parcels {
        trial.admit(parcel, steps)?;
    }
    Ok(())
}

/// Notes that all entries but the first so many were taken back, the last one first.
pub fn note_dropped(untold: &mut Untold, sent: &[Entry], unsent: &[Entry], left: usize)
    requires { left ≤ length (sent.now ++ unsent.now) }
    ensures { (values : _)
        → untold.new
        ≡ passed (back_over values (drop left (sent.now ++ unsent.now))) untold.old }
{
    untold.note_all_back(&unsent[left.saturating_sub(sent.len())..]);
    untold.note_all_back(&sent[left.min(sent.len())..]);
}

/// Entries parted at a position.
pub fn parted(
    alloc: Global,
    entries: EntryList,
    at: usize,
) -> Result<(Vec<Entry>, Vec<Entry>), Memory>
    ensures first { IfOk result (λ two. two.0.items ≡ take at entries) }
    ensures second { IfOk result (λ two. two.1.items ≡ drop at entries) }
{
    let mut first = Vec::new(alloc);
    let mut second = Vec::new(alloc);
    let all = entries.into_vec();
    // its type keeps that it counts its members, which `as_slice` tells
    let _lent = all.as_slice();
    for entry in all {
        let count = first.as_slice().len();
        if count == at {
            second.push(entry)?;
            continue;
        }
        first.push(entry)?;
    }
    Ok((first, second))
}

/// The same entries with one number as both of theirs: taking one of them back cuts nothing off a
/// store of so many values.
pub fn renumbered(mut entries: Vec<Entry>, stored: usize) -> Vec<Entry>
    ensures { result.items ≡ map (numbered_alike stored) entries.items }
{
    for entry in entries.iter_mut() {
        entry.store_before = stored;
        entry.store_after = stored;
    }
    entries
}
