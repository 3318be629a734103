// Entries of other sites taken on a trial of the page: all of them, or none.
ghost use Rattle.std.specs.Prelude.{◌≡◌, ◌≤◌, ◌<◌, ◌+◌, All, length, map, take, IfOk, OnOk, OnErr};
ghost use Rattle.model_change.specs.Replay.{AllRun, flattened};
ghost use Rattle.model_site.specs.Site.{pending};
ghost use Rattle.model_site.specs.Take.{take_entry, take_foreign};
ghost use Rattle.ve_tx.specs.ByValue.{parcel_by_value, ParcelCites};
ghost use Rattle.model_change.specs.Cost.{cost_of_transactions};
ghost use Rattle.ve_editor.specs.Page.{replica_of};
ghost use Rattle.ve_site.specs.Ground.{ground_of};
ghost use Rattle.model_site.specs.Made.{taking_all, taking_one};
ghost use Rattle.ve_site.specs.Underway.{HaveTaken, IsRest, IsTaking, rest_site, taking_site, with_none_undone};

use crate::Site;
use crate::pending::{admit_each, admit_under, note_dropped, parted, renumbered};
use crate::untold::Untold;
use std::alloc::Global;
use std::sync::ledger::Ledger;
use ve_base::{Memory, Steps};
use ve_editor::{Editor, Trial};
use ve_rebase::{EntriesUnder, EntriesUnderAll, entries_under, entries_under_all};
use ve_tx::{Entry, EntryList, Parcel};

/// What a site has besides its page, with nothing undone.
#[derive(Drop)]
pub struct Rest {
    pub untold: Untold,
    pub seen: usize,
    pub sent: Vec<Entry>,
    pub unsent: EntryList,
    pub shared: usize,
    pub in_flight: Option<usize>,
    alloc: Global,
}

impl Rest {
    /// A copy of what a site has besides its page, with nothing undone.
    pub fn of(site: &Site) -> Result<Rest, Memory>
        ensures site { IfOk result (λ rest.
            rest_site site.now.site.replica rest ≡ with_none_undone site.now.site) }
        ensures is { IfOk result (IsRest site.now.site.replica) }
    {
        let sent = EntryList::copy_of(site.alloc, site.sent.as_slice())?;
        let unsent = EntryList::copy_of(site.alloc, site.history.done())?;
        let untold = site.untold.copy(site.alloc)?;
        Ok(Rest {
            untold,
            seen: site.seen,
            sent: sent.into_vec(),
            unsent,
            shared: site.shared,
            in_flight: site.in_flight,
            alloc: site.alloc,
        })
    }
}

/// A site while it takes entries of other sites on a trial of its page. Want of memory may leave it
/// half way, and the trial then goes back.
#[derive(Drop)]
pub struct Taking {
    pub trial: Trial,
    pub rest: Rest,
}

impl Taking {
    /// How many entries it has pending.
    fn pending_len(&self) -> Result<usize, Memory>
        ensures { IfOk result (λ count. count ≡ length (pending (taking_site self.now))) }
    {
        let sent = self.rest.sent.len();
        match sent.checked_add(self.rest.unsent.as_slice().len()) {
            Some(count) => Ok(count),
            None => Err(Memory),
        }
    }

    /// Takes the entries before the first that is in conflict with a pending one, and gives how
    /// many these are. The pending ones are written once.
    fn take_front<L: Ledger>(
        &mut self,
        parcels: &[Parcel],
        steps: &mut Steps<L>,
    ) -> Result<usize, Memory>
        requires is { IsTaking self.old }
        requires cite { All ParcelCites parcels.now }
        requires run { AllRun (flattened (map parcel_by_value parcels.now))
            (ground_of (taking_site self.old)) }
        ensures taken { IfOk result (λ count. HaveTaken parcels.now self.old count self.new) }
        ensures first { self.new.trial.first ≡ self.old.trial.first }
        ensures counted { steps.old ≤ steps.new }
        ensures steps { IfOk result (λ count.
            steps.new
            ≤ steps.old
            + cost_of_transactions (
            taking_all (map parcel_by_value (take count parcels.now)) (taking_site self.old))
            self.old.trial.page.items) }
        ensures within { steps.new
            ≤ steps.old
            + cost_of_transactions (
            taking_all (map parcel_by_value parcels.now) (taking_site self.old))
            self.old.trial.page.items }
    {
        let own_sent = self.rest.sent.as_slice();
        let own_unsent = self.rest.unsent.as_slice();
        let EntriesUnderAll { committed, kept } = entries_under_all(
            self.rest.alloc,
            parcels,
            own_sent,
            own_unsent,
        )?;
        let count = committed.as_slice().len();
        if count == 0 {
            return Ok(0);
        }
        let Some(seen) = self.rest.seen.checked_add(count) else {
            return Err(Memory);
        };
        let (sent, unsent) = parted(self.rest.alloc, kept, own_sent.len())?;
        admit_each(&mut self.trial, committed.as_slice(), steps)?;
        self.rest.untold.note_parcels(committed.as_slice());
        let stored = self.trial.doc().store.len();
        self.rest.seen = seen;
        self.rest.sent = renumbered(sent, stored);
        self.rest.unsent = EntryList::from_vec(renumbered(unsent, stored));
        Ok(count)
    }

    /// Takes an entry. From the first pending one on that is in conflict with it, the pending ones
    /// are taken back before, the last one first, and dropped.
    fn take_next<L: Ledger>(&mut self, foreign: &Parcel, steps: &mut Steps<L>) -> Result<(), Memory>
        requires is { IsTaking self.old }
        requires cites { ParcelCites foreign.now }
        requires run { AllRun (parcel_by_value foreign.now) (ground_of (taking_site self.old)) }
        ensures site { OnOk result (
            taking_site self.new
            ≡ take_entry (parcel_by_value foreign.now) (taking_site self.old)) }
        ensures is { OnOk result (IsTaking self.new) }
        ensures first { self.new.trial.first ≡ self.old.trial.first }
        ensures counted { steps.old ≤ steps.new }
        ensures steps { steps.new
            ≤ steps.old
            + cost_of_transactions (taking_one (parcel_by_value foreign.now) (taking_site self.old))
            self.old.trial.page.items }
    {
        let Some(seen) = self.rest.seen.checked_add(1) else {
            return Err(Memory);
        };
        let own_sent = self.rest.sent.as_slice();
        let own_unsent = self.rest.unsent.as_slice();
        let EntriesUnder { committed, kept } = entries_under(
            self.rest.alloc,
            foreign,
            own_sent,
            own_unsent,
        )?;
        let left = kept.as_slice().len();
        let (sent, unsent) = parted(self.rest.alloc, kept, own_sent.len())?;
        let stored = admit_under(
            &mut self.trial,
            own_sent,
            own_unsent,
            left,
            &committed,
            steps,
        )?;
        note_dropped(&mut self.rest.untold, own_sent, own_unsent, left);
        self.rest.untold.note(committed.entry.txs.as_slice());
        self.rest.seen = seen;
        self.rest.sent = renumbered(sent, stored);
        self.rest.unsent = EntryList::from_vec(renumbered(unsent, stored));
        Ok(())
    }

    /// Takes the entries before the first that is in conflict with a pending one, and then that
    /// one. It gives how many these are.
    fn take_some<L: Ledger>(
        &mut self,
        parcels: &[Parcel],
        steps: &mut Steps<L>,
    ) -> Result<usize, Memory>
        requires is { IsTaking self.old }
        requires cite { All ParcelCites parcels.now }
        requires run { AllRun (flattened (map parcel_by_value parcels.now))
            (ground_of (taking_site self.old)) }
        requires some { 0 < length parcels.now }
        ensures taken { IfOk result (λ count. HaveTaken parcels.now self.old count self.new) }
        ensures some { IfOk result (λ count. 0 < count) }
        ensures first { self.new.trial.first ≡ self.old.trial.first }
        ensures counted { steps.old ≤ steps.new }
        ensures steps { IfOk result (λ count.
            steps.new
            ≤ steps.old
            + cost_of_transactions (
            taking_all (map parcel_by_value (take count parcels.now)) (taking_site self.old))
            self.old.trial.page.items) }
        ensures within { steps.new
            ≤ steps.old
            + cost_of_transactions (
            taking_all (map parcel_by_value parcels.now) (taking_site self.old))
            self.old.trial.page.items }
    {
        let count = self.take_front(parcels, steps)?;
        if count == parcels.len() {
            return Ok(count);
        }
        self.take_next(&parcels[count], steps)?;
        Ok(count + 1)
    }

    /// Takes all entries, one after the other, and gives how many are pending then.
    fn take_all<L: Ledger>(
        &mut self,
        parcels: &[Parcel],
        steps: &mut Steps<L>,
    ) -> Result<usize, Memory>
        requires is { IsTaking self.old }
        requires cite { All ParcelCites parcels.now }
        requires run { AllRun (flattened (map parcel_by_value parcels.now))
            (ground_of (taking_site self.old)) }
        ensures site { OnOk result (
            taking_site self.new
            ≡ take_foreign (map parcel_by_value parcels.now) (taking_site self.old)) }
        ensures is { OnOk result (IsTaking self.new) }
        ensures left { IfOk result (λ left. left ≡ length (pending (taking_site self.new))) }
        ensures first { self.new.trial.first ≡ self.old.trial.first }
        ensures counted { steps.old ≤ steps.new }
        ensures steps { steps.new
            ≤ steps.old
            + cost_of_transactions (
            taking_all (map parcel_by_value parcels.now) (taking_site self.old))
            self.old.trial.page.items }
    {
        let mut at = 0;
        while at < parcels.len() {
            at += self.take_some(&parcels[at..], steps)?;
        }
        self.pending_len()
    }
}

/// The page after entries of other sites, one after the other, and what a site has besides it then,
/// with how many of its entries are pending. Where memory is wanting it is the page as it was.
pub fn taken_on_trial<L: Ledger>(
    editor: Editor,
    rest: Rest,
    parcels: &[Parcel],
    steps: &mut Steps<L>,
) -> (Editor, Result<(Rest, usize), Memory>)
    requires is { IsRest (replica_of editor) rest }
    requires cite { All ParcelCites parcels.now }
    requires run { AllRun (flattened (map parcel_by_value parcels.now))
        (ground_of (rest_site (replica_of editor) rest)) }
    ensures site { IfOk result.1 (λ taken.
        rest_site (replica_of result.0) taken.0
        ≡ take_foreign (map parcel_by_value parcels.now) (rest_site (replica_of editor) rest)) }
    ensures is { IfOk result.1 (λ taken. IsRest (replica_of result.0) taken.0) }
    ensures left { IfOk result.1 (λ taken.
        taken.1 ≡ length (pending (rest_site (replica_of result.0) taken.0))) }
    ensures kept { OnErr result.1 (result.0 ≡ editor) }
    ensures counted { steps.old ≤ steps.new }
    ensures steps { steps.new
        ≤ steps.old
        + cost_of_transactions (
        taking_all (map parcel_by_value parcels.now) (rest_site (replica_of editor) rest))
        editor.items }
{
    match Trial::begin(editor) {
        Ok(trial) => {
            let mut taking = Taking { trial, rest };
            let taken = taking.take_all(parcels, steps);
            let Taking { trial, rest } = taking;
            match taken {
                Ok(left) => (trial.keep(), Ok((rest, left))),
                Err(Memory) => (trial.take_back(), Err(Memory)),
            }
        }
        Err(editor) => (editor, Err(Memory)),
    }
}
