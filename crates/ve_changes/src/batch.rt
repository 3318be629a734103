// Changes performed one after the other.
ghost use Rattle.std.specs.Prelude.{◌≡◌, ◌≢◌, ◌≤◌, ◌+◌, length, Ok, IfOk, IfErr, OnOk};
ghost use Rattle.model_site_law.specs.Sound.{Sound};
ghost use Rattle.model_world.specs.Edits.{batch_on, change_on};
ghost use Rattle.model_change.specs.Cost.{cost_of_transactions};
ghost use Rattle.model_world.specs.Cost.{made_in_turn, made_of};
ghost use Rattle.model_world_law.specs.Fit.{AllWritten, IsWritten};
ghost use Rattle.ve_changes.specs.Stops.{IsRefused};
ghost use Rattle.ve_changes.specs.Batches.{IsBatch, IsBatchRefused, IsPerformed, no_entry};
ghost use Rattle.ve_editor.specs.Page.{replica_of};

use crate::batch_stop::stop_at;
use crate::{BatchStop, ChangeStop, change_draft};
use model_site_law::events_keep;
use model_world::EditCommand;
use model_world_law::layers_fit;
use std::alloc::Global;
use std::sync::ledger::Ledger;
use ve_base::Steps;
use ve_editor::{Attempt, Trial};
use ve_tx::{Entry, TxList};

/// Performs one change, and gives its transaction as an entry. An `Err` changes nothing.
fn perform_one<L: Ledger>(
    alloc: Global,
    trial: &mut Trial,
    change: &EditCommand,
    steps: &mut Steps<L>,
) -> Result<Entry, ChangeStop>
    requires sound { Sound trial.old.page.items }
    requires written { IsWritten change.now }
    ensures ok { IfOk result (
        IsPerformed trial.old.page (change_on (replica_of trial.old.page) change.now)
        trial.new.page) }
    ensures refused { IfErr result (λ why.
        IsRefused why (change_on (replica_of trial.old.page) change.now)) }
    ensures first { trial.new.first ≡ trial.old.first }
    ensures counted { steps.old ≤ steps.new }
    ensures steps { IfErr result (λ stop. stop ≢ ChangeStop.Memory)
        → steps.new
        ≤ steps.old
        + cost_of_transactions (made_of (change_on (replica_of trial.old.page) change.now))
        trial.old.page.items }
{
    // a change that was read and isn't refused may be performed
    layers_fit();
    events_keep();
    let draft = change_draft(alloc, trial.doc(), change)?;
    match trial.perform(&draft, steps) {
        Ok(entry) => Ok(entry),
        Err(fault) => Err(ChangeStop::from(fault)),
    }
}

/// Performs changes in turn, and puts their transactions into an entry that has nothing yet. An
/// `Err` may leave some of them performed.
fn perform_each<L: Ledger>(
    alloc: Global,
    trial: &mut Trial,
    entry: &mut Entry,
    changes: &[EditCommand],
    steps: &mut Steps<L>,
) -> Result<(), BatchStop>
    requires sound { Sound trial.old.page.items }
    requires written { AllWritten changes.now }
    requires nothing { entry.old ≡ no_entry (length trial.old.page.store) }
    ensures ok { OnOk result (
        IsBatch trial.old.page (batch_on (replica_of trial.old.page) changes.now) trial.new.page
        entry.new) }
    ensures refused { IfErr result (
        IsBatchRefused (batch_on (replica_of trial.old.page) changes.now)) }
    ensures first { trial.new.first ≡ trial.old.first }
    ensures counted { steps.old ≤ steps.new }
    ensures steps { IfErr result (λ stop. stop ≢ BatchStop.Memory)
        → steps.new
        ≤ steps.old
        + cost_of_transactions (made_in_turn (replica_of trial.old.page) changes.now)
        trial.old.page.items }
{
    for at in 0..changes.len() {
        match perform_one(alloc, trial, &changes[at], steps) {
            Ok(later) => entry.append(later)?,
            Err(stop) => return Err(stop_at(at, stop)),
        }
    }
    Ok(())
}

/// The entry of no changes, on the page of a trial.
fn nothing_yet(alloc: Global, trial: &Trial) -> Entry
    ensures { result ≡ no_entry (length trial.now.page.store) }
{
    let count = trial.doc().store.len();
    Entry {
        txs: TxList::new(alloc),
        store_before: count,
        store_after: count,
        takes_back: None,
    }
}

/// Performs changes on the page of a trial, each on the result of those before it, and gives their
/// transactions as one entry. With no changes the page stays as it is, and the entry has no
/// transaction.
///
/// It is refused where one of them is, at the first such position: as that change is refused on the
/// result of those before it. Those before it stay made then.
pub fn perform_all<L: Ledger>(
    alloc: Global,
    trial: &mut Trial,
    changes: &[EditCommand],
    steps: &mut Steps<L>,
) -> Result<Entry, BatchStop>
    requires sound { Sound trial.old.page.items }
    requires written { AllWritten changes.now }
    ensures ok { IfOk result (
        IsBatch trial.old.page (batch_on (replica_of trial.old.page) changes.now)
        trial.new.page) }
    ensures refused { IfErr result (
        IsBatchRefused (batch_on (replica_of trial.old.page) changes.now)) }
    ensures first { trial.new.first ≡ trial.old.first }
    ensures counted { steps.old ≤ steps.new }
    ensures steps { IfErr result (λ stop. stop ≢ BatchStop.Memory)
        → steps.new
        ≤ steps.old
        + cost_of_transactions (made_in_turn (replica_of trial.old.page) changes.now)
        trial.old.page.items }
{
    let mut entry = nothing_yet(alloc, trial);
    match perform_each(alloc, trial, &mut entry, changes, steps) {
        Ok(()) => Ok(entry),
        Err(stop) => Err(stop),
    }
}

/// Changes that are made in turn, all of them or none. It is refused where one of them is, at the
/// first such position: as that change is refused on the result of those before it.
#[derive(Clone, Copy)]
pub struct Batch<'a> {
    alloc: Global,
    changes: &'a [EditCommand],
}

impl<'a> Batch<'a> {
    /// A batch of these changes.
    pub fn new(alloc: Global, changes: &'a [EditCommand]) -> Batch<'a>
        ensures { result.changes.now ≡ changes.now }
    {
        Batch { alloc, changes }
    }
}

impl Attempt for Batch<'_> {
    ghost use Rattle.ve_changes.specs.declared.batch_stop.BatchStop.{BatchStop};

    type Told = ();

    type Stop = BatchStop;

    ghost can_run = { λ b r. Sound r.items × AllWritten b.changes.now };

    ghost makes = { λ b r ts _. batch_on r b.changes.now ≡ Ok ts };

    ghost stops = { λ b r. IsBatchRefused (batch_on r b.changes.now) };

    ghost is_refusal = { λ stop. stop ≢ BatchStop.Memory };

    ghost cost = { λ b r. cost_of_transactions (made_in_turn r b.changes.now) r.items };

    fn run<L: Ledger>(
        &self,
        trial: &mut Trial,
        steps: &mut Steps<L>,
    ) -> Result<(Entry, ()), BatchStop> {
        match perform_all(self.alloc, trial, self.changes, steps) {
            Ok(entry) => Ok((entry, ())),
            Err(stop) => Err(stop),
        }
    }

    fn no_memory(&self) -> BatchStop {
        BatchStop::Memory
    }
}
