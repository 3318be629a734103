// What a site takes from the server.
ghost use Rattle.std.specs.Prelude.{◌≡◌, ◌≤◌, ◌+◌, All, length, map, None, IfOk, OnOk, OnErr};
ghost use Rattle.model_change.specs.Replay.{AllRun, flattened};
ghost use Rattle.model_site.specs.Session.{site_after, taken_as};
ghost use Rattle.model_site.specs.Site.{pending};
ghost use Rattle.model_site.specs.Take.{take_ack, take_foreign};
ghost use Rattle.model_change.specs.Cost.{cost_of_transactions};
ghost use Rattle.ve_editor.specs.Counted.{steps_of_blank};
ghost use Rattle.ve_server.specs.Fed.{feed_of};
ghost use Rattle.ve_site.specs.Ground.{ground_of};
ghost use Rattle.ve_site.specs.Numbered.{with_site};
ghost use Rattle.model_site.specs.Made.{taking_all, taking_one};
ghost use Rattle.ve_site.specs.Taking.{MayTake, steps_of_feed, steps_of_take};
ghost use Rattle.ve_site.specs.Underway.{AreTakenInPlace, IsTakenInPlace};
ghost use Rattle.ve_tx.specs.ByValue.{parcel_by_value, ParcelCites};

use crate::Site;
use crate::pending::{parted, renumbered};
use crate::taking::{Rest, taken_on_trial};
use model_site::Taken;
use std::sync::ledger::Ledger;
use ve_base::{Memory, Steps};
use ve_editor::Editor;
use ve_rebase::{EntriesUnder, entries_under};
use ve_server::{Feed, Parcels};
use ve_tx::{EntryList, Parcel};

impl Site {
    /// How many entries it has pending.
    pub fn pending_len(&self) -> Result<usize, Memory>
        ensures { IfOk result (λ count. count ≡ length (pending self.now.site)) }
    {
        match self.sent.len().checked_add(self.history.done().len()) {
            Some(count) => Ok(count),
            None => Err(Memory),
        }
    }

    /// Takes an entry of another site without a trial, where it makes at most one transaction, and
    /// gives how many entries are still pending. It is `None` where the entry makes more, and
    /// nothing changes then: these have to be made on a trial. An `Err` changes nothing.
    fn take_single<L: Ledger>(
        &mut self,
        foreign: &Parcel,
        steps: &mut Steps<L>,
    ) -> Result<Option<usize>, Memory>
        requires cites { ParcelCites foreign.now }
        requires run { AllRun (parcel_by_value foreign.now) (ground_of self.old.site) }
        ensures taken { IfOk result (λ taken.
            IsTakenInPlace (parcel_by_value foreign.now) self.old taken self.new) }
        ensures kept { OnErr result (self.new ≡ self.old) }
        ensures counted { steps.old ≤ steps.new }
        ensures steps { steps.new
            ≤ steps.old
            + cost_of_transactions (taking_one (parcel_by_value foreign.now) self.old.site)
            self.old.site.replica.items }
        ensures unstepped { IfOk result (λ taken. taken ≡ None → steps.new ≡ steps.old) }
    {
        if foreign.entry.txs.as_slice().len() > 1 {
            return Ok(None);
        }
        let Some(seen) = self.seen.checked_add(1) else {
            return Err(Memory);
        };
        let count = self.pending_len()?;
        let own_sent = self.sent.as_slice();
        let EntriesUnder { committed, kept } = entries_under(
            self.alloc,
            foreign,
            own_sent,
            self.history.done(),
        )?;
        let left = kept.as_slice().len();
        if left < count {
            return Ok(None);
        }
        let (sent, unsent) = parted(self.alloc, kept, own_sent.len())?;
        let stored = self.editor.admit(&committed, steps)?.store_after;
        self.untold.note(committed.entry.txs.as_slice());
        self.seen = seen;
        self.sent = renumbered(sent, stored);
        let done = EntryList::from_vec(renumbered(unsent, stored));
        let _gone = self.history.replace_done(done);
        self.history.clear_undone();
        Ok(Some(left))
    }

    /// Takes entries of other sites without a trial, where there is at most one, and it makes at
    /// most one transaction. It gives how many entries are still pending. Else it is `None`, and
    /// nothing changes. An `Err` changes nothing.
    fn take_in_place<L: Ledger>(
        &mut self,
        parcels: &[Parcel],
        steps: &mut Steps<L>,
    ) -> Result<Option<usize>, Memory>
        requires cite { All ParcelCites parcels.now }
        requires run { AllRun (flattened (map parcel_by_value parcels.now))
            (ground_of self.old.site) }
        ensures taken { IfOk result (λ taken.
            AreTakenInPlace (map parcel_by_value parcels.now) self.old taken self.new) }
        ensures kept { OnErr result (self.new ≡ self.old) }
        ensures counted { steps.old ≤ steps.new }
        ensures steps { steps.new
            ≤ steps.old + steps_of_feed (map parcel_by_value parcels.now) self.old.site }
        ensures unstepped { IfOk result (λ taken. taken ≡ None → steps.new ≡ steps.old) }
    {
        if parcels.is_empty() {
            let left = self.pending_len()?;
            self.history.clear_undone();
            return Ok(Some(left));
        }
        if parcels.len() > 1 {
            return Ok(None);
        }
        self.take_single(&parcels[0], steps)
    }

    /// Takes entries of other sites, one after the other, on a trial of the page, and gives how
    /// many entries are still pending. An `Err` changes nothing: what was made until then is taken
    /// back.
    fn take_on_trial<L: Ledger>(
        &mut self,
        parcels: &[Parcel],
        steps: &mut Steps<L>,
    ) -> Result<usize, Memory>
        requires cite { All ParcelCites parcels.now }
        requires run { AllRun (flattened (map parcel_by_value parcels.now))
            (ground_of self.old.site) }
        ensures site { OnOk result (
            self.new
            ≡ with_site (take_foreign (map parcel_by_value parcels.now) self.old.site) self.old) }
        ensures left { IfOk result (λ left. left ≡ length (pending self.new.site)) }
        ensures kept { OnErr result (self.new ≡ self.old) }
        ensures counted { steps.old ≤ steps.new }
        ensures steps { steps.new
            ≤ steps.old
            + (steps_of_blank
            + cost_of_transactions (taking_all (map parcel_by_value parcels.now) self.old.site)
            self.old.site.replica.items) }
    {
        let own = Rest::of(self)?;
        let blank = Editor::blank(self.alloc, steps)?;
        let editor = std::mem::replace(&mut self.editor, blank);
        let (editor, taken) = taken_on_trial(editor, own, parcels, steps);
        self.editor = editor;
        let (rest, left) = taken?;
        let Rest {
            untold,
            seen,
            sent,
            unsent,
            shared,
            in_flight,
            ..
        } = rest;
        self.untold = untold;
        self.seen = seen;
        self.sent = sent;
        let _gone = self.history.replace_done(unsent);
        self.history.clear_undone();
        self.shared = shared;
        self.in_flight = in_flight;
        Ok(left)
    }

    /// Takes entries of other sites, one after the other, and gives how many entries are still
    /// pending. An `Err` changes nothing.
    fn take_foreign<L: Ledger>(
        &mut self,
        entries: &Parcels,
        steps: &mut Steps<L>,
    ) -> Result<usize, Memory>
        requires run { AllRun (flattened entries.now.entries) (ground_of self.old.site) }
        ensures site { OnOk result (
            self.new ≡ with_site (take_foreign entries.now.entries self.old.site) self.old) }
        ensures left { IfOk result (λ left. left ≡ length (pending self.new.site)) }
        ensures kept { OnErr result (self.new ≡ self.old) }
        ensures counted { steps.old ≤ steps.new }
        ensures steps { steps.new ≤ steps.old + steps_of_feed entries.now.entries self.old.site }
    {
        let parcels = entries.as_slice();
        if let Some(left) = self.take_in_place(parcels, steps)? {
            return Ok(left);
        }
        self.take_on_trial(parcels, steps)
    }

    /// Takes the answer to what it sent: the entries that it still holds as sent are committed. An
    /// `Err` changes nothing.
    fn acknowledge(&mut self) -> Result<(), Memory>
        ensures site { OnOk result (self.new ≡ with_site (take_ack self.old.site) self.old) }
        ensures kept { OnErr result (self.new ≡ self.old) }
    {
        let Some(seen) = self.seen.checked_add(self.sent.as_slice().len()) else {
            return Err(Memory);
        };
        self.seen = seen;
        self.sent.clear();
        self.history.clear_undone();
        self.in_flight = None;
        Ok(())
    }

    /// Takes the server's next message: entries of other sites, or the answer to its submission.
    /// Nothing can be redone then.
    ///
    /// Each entry of another site is performed over the pending entries, and these are joined over
    /// it. At the first conflict that entry and all later ones are taken back first, the last one
    /// first, and dropped. These entries have to run one after the other from the confirmed list,
    /// the list with the pending entries taken back. An answer has no condition.
    ///
    /// The only `Err` is want of memory, which is also the answer where a joined transaction would
    /// be longer than a transaction may be. It changes nothing.
    pub fn take<L: Ledger>(&mut self, feed: &Feed, steps: &mut Steps<L>) -> Result<Taken, Memory>
        requires may { MayTake (feed_of feed.now) self.old.site }
        ensures site { OnOk result (
            self.new ≡ with_site (site_after (feed_of feed.now) self.old.site) self.old) }
        ensures taken { IfOk result (λ taken.
            taken ≡ taken_as (feed_of feed.now) self.old.site self.new.site) }
        ensures kept { OnErr result (self.new ≡ self.old) }
        ensures counted { steps.old ≤ steps.new }
        ensures steps { steps.new ≤ steps.old + steps_of_take (feed_of feed.now) self.old.site }
    {
        match feed {
            Feed::Foreign(entries) => {
                let pending = self.pending_len()?;
                let left = self.take_foreign(entries, steps)?;
                Ok(Taken::Foreign {
                    entries: entries.len(),
                    dropped: pending.saturating_sub(left),
                })
            }
            Feed::Ack(accepted) => {
                self.acknowledge()?;
                Ok(Taken::Acked {
                    accepted: *accepted,
                })
            }
        }
    }
}
