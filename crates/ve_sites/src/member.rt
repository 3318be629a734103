// A site of a session.
ghost use Rattle.std.specs.Prelude.{◌≡◌, ◌≢◌, ◌≤◌, ◌+◌, ◌++◌, ◌∷◌, [], List, Ok, drop, length, option_copied, option_map, slice_get, IsOk, IfSome, IfOk, IfErr, OnOk, OnErr};
ghost use Rattle.model_change.specs.Replay.{AllRun};
ghost use Rattle.model_change.specs.Transaction.{InsertedApart};
ghost use Rattle.model_site.specs.Refused.{edit_cause};
ghost use Rattle.model_site.specs.Session.{site_after, taken_as};
ghost use Rattle.model_site.specs.Site.{edit, redo, send, undo, with_entry_against, with_selection, with_told};
ghost use Rattle.model_site_law.specs.SelectionLaws.{StandsIn};
ghost use Rattle.model_change.specs.Cost.{cost_of_transactions};
ghost use Rattle.ve_editor.specs.Counted.{steps_of_blank, steps_over};
ghost use Rattle.ve_editor.specs.Edited.{IsDraftOf, drafted};
ghost use Rattle.ve_editor.specs.Refusal.{IsEditRefusal};
ghost use Rattle.ve_server.specs.Fed.{feed_of, submission_of};
ghost use Rattle.model_site.specs.Made.{redoing, undoing};
ghost use Rattle.ve_site.specs.Refusal.{IsRedoRefusal, IsSendRefusal, IsUndoRefusal};
ghost use Rattle.ve_site.specs.Attempted.{IsAttempted};
ghost use Rattle.ve_site.specs.Taking.{MayTake, steps_of_take};
ghost use Rattle.ve_sites.specs.Senders.{at_site, HasGone};
ghost use Rattle.ve_tx.specs.ByValue.{parcel_by_value, ParcelCites};

use model_edit::Selection;
use model_site::{EditFault, RedoFault, SendFault, Taken, UndoFault};
use std::alloc::Global;
use std::collections::VecDeque;
use std::marker::Model;
use std::sync::ledger::Ledger;
use ve_base::{Memory, Steps};
use ve_editor::Attempt;
use ve_server::{Feed, Submit};
use ve_site::Site;
use ve_tx::{Draft, Parcel};

/// A site, and the submissions that it sent and the server has not served, the next one first.
#[derive(Drop)]
pub struct Member {
    site: Site,
    submissions: VecDeque<Submit>,
}

impl Model for Member {
    ghost use Rattle.std.specs.Prelude.{All};
    ghost use Rattle.ve_sites.specs.Senders.{Sender, sender_of, IsFrom};

    ghost Value = { Sender };

    ghost view = { λ m. sender_of m.site m.submissions.items };

    ghost invariant = { λ m. All (IsFrom m.site.number) m.submissions.items };
}

impl Member {
    /// A site that has sent nothing. It takes no memory.
    pub fn new(alloc: Global, site: Site) -> Member
        ensures { result ≡ record { number = site.number; site = site.site; submissions = [] } }
    {
        Member {
            site,
            submissions: VecDeque::new(alloc),
        }
    }

    /// The number of the site.
    pub fn number(&self) -> u32
        ensures { result ≡ self.now.number }
    {
        self.site.number()
    }

    /// Lends the site.
    pub fn site(&self) -> &Site
        ensures number { result.now.number ≡ self.now.number }
        ensures site { result.now.site ≡ self.now.site }
    {
        &self.site
    }

    /// As `Site::edit`.
    pub fn edit<L: Ledger>(&mut self, draft: &Draft, steps: &mut Steps<L>) -> Result<(), EditFault>
        requires draft { IsDraftOf self.old.site.replica.store draft.now }
        requires apart { InsertedApart (drafted self.old.site.replica.store draft.now) }
        ensures site { OnOk result (
            edit (drafted self.old.site.replica.store draft.now) self.old.site
            ≡ Ok self.new.site) }
        ensures same { self.new ≡ at_site self.new.site self.old }
        ensures refused { IfErr result (
            IsEditRefusal (
            edit_cause (drafted self.old.site.replica.store draft.now)
            self.old.site.replica)) }
        ensures kept { OnErr result (self.new ≡ self.old) }
        ensures counted { steps.old ≤ steps.new }
        ensures steps { steps.new
            ≤ steps.old
            + cost_of_transactions (drafted self.old.site.replica.store draft.now ∷ [])
            self.old.site.replica.items }
        ensures unstepped { IfErr result (λ why. why ≢ EditFault.Memory → steps.new ≡ steps.old) }
    {
        self.site.edit(draft, steps)
    }

    /// As `Site::attempt`.
    pub fn attempt<A: Attempt, L: Ledger>(
        &mut self,
        attempt: &A,
        steps: &mut Steps<L>,
    ) -> Result<A::Told, A::Stop>
        requires can { A.can_run attempt.now self.old.site.replica }
        ensures made { IfOk result (λ told.
            IsAttempted (λ ts. A.makes attempt.now self.old.site.replica ts told) self.old.site
            self.new.site) }
        ensures same { self.new ≡ at_site self.new.site self.old }
        ensures stopped { IfErr result (A.stops attempt.now self.old.site.replica) }
        ensures kept { OnErr result (self.new ≡ self.old) }
        ensures counted { steps.old ≤ steps.new }
        ensures steps { IfErr result A.is_refusal
            → steps.new
            ≤ steps.old
            + steps_of_blank
            + A.cost attempt.now self.old.site.replica }
    {
        self.site.attempt(attempt, steps)
    }

    /// As `Site::undo`.
    pub fn undo<L: Ledger>(&mut self, steps: &mut Steps<L>) -> Result<(), UndoFault>
        ensures site { OnOk result (undo self.old.site ≡ Ok self.new.site) }
        ensures same { self.new ≡ at_site self.new.site self.old }
        ensures refused { IfErr result (IsUndoRefusal (undo self.old.site)) }
        ensures memory { IfErr result (λ why. why ≡ UndoFault.Memory → IsOk (undo self.old.site)) }
        ensures kept { OnErr result (self.new ≡ self.old) }
        ensures counted { steps.old ≤ steps.new }
        ensures steps { steps.new
            ≤ steps.old + steps_over (undoing self.old.site.unsent) self.old.site.replica.items }
    {
        self.site.undo(steps)
    }

    /// As `Site::redo`.
    pub fn redo<L: Ledger>(&mut self, steps: &mut Steps<L>) -> Result<(), RedoFault>
        ensures site { OnOk result (redo self.old.site ≡ Ok self.new.site) }
        ensures same { self.new ≡ at_site self.new.site self.old }
        ensures refused { IfErr result (IsRedoRefusal (redo self.old.site)) }
        ensures memory { IfErr result (λ why. why ≡ RedoFault.Memory → IsOk (redo self.old.site)) }
        ensures kept { OnErr result (self.new ≡ self.old) }
        ensures counted { steps.old ≤ steps.new }
        ensures steps { steps.new
            ≤ steps.old + steps_over (redoing self.old.site.undone) self.old.site.replica.items }
    {
        self.site.redo(steps)
    }

    /// As `Site::adopt`.
    pub fn adopt<L: Ledger>(&mut self, back: &Parcel, steps: &mut Steps<L>) -> Result<(), Memory>
        requires cites { ParcelCites back.now }
        requires run { AllRun (parcel_by_value back.now) self.old.site.replica.items }
        ensures site { OnOk result (
            self.new
            ≡ at_site (
            with_entry_against back.now.entry.takes_back (parcel_by_value back.now) self.old.site)
            self.old) }
        ensures kept { OnErr result (self.new ≡ self.old) }
        ensures counted { steps.old ≤ steps.new }
        ensures steps { steps.new
            ≤ steps.old + steps_over (parcel_by_value back.now) self.old.site.replica.items }
    {
        self.site.adopt(back, steps)
    }

    /// As `Site::select`.
    pub fn select(&mut self, selection: Selection)
        requires { StandsIn self.old.site.replica.items selection }
        ensures { self.new ≡ at_site (with_selection selection self.old.site) self.old }
    {
        self.site.select(selection);
    }

    /// As `Site::tell`.
    pub fn tell(&mut self)
        ensures { self.new ≡ at_site (with_told self.old.site) self.old }
    {
        self.site.tell();
    }

    /// Has the site send, and keeps what it sent behind what waits. It gives how many entries these
    /// are. It is refused as `Site::send` refuses, and an `Err` changes nothing.
    pub fn send(&mut self) -> Result<usize, SendFault>
        ensures sent { IfOk result (λ count. HasGone count self.old self.new) }
        ensures refused { IfErr result (IsSendRefusal (send self.old.site)) }
        ensures memory { IfErr result (λ why. why ≡ SendFault.Memory → IsOk (send self.old.site)) }
        ensures kept { OnErr result (self.new ≡ self.old) }
    {
        if let Some(fault) = self.site.send_refusal() {
            return Err(fault);
        }
        if self.submissions.reserve(1).is_err() {
            return Err(SendFault::Memory);
        }
        let submit = self.site.send()?;
        let count = submit.parcels.len();
        let pushed = self.submissions.push_back(submit).is_ok();
        prove!(pushed);
        Ok(count)
    }

    /// Lends the next submission, if there is one.
    pub fn next(&self) -> Option<&Submit>
        ensures next { option_map submission_of (option_copied result)
            ≡ slice_get self.now.submissions 0 }
        ensures from { IfSome result (λ s. s.now.site ≡ self.now.number) }
    {
        self.submissions.front()
    }

    /// Drops the next submission.
    pub fn drop_next(&mut self)
        ensures { self.new ≡ record self.old { submissions = drop 1 self.old.submissions } }
    {
        let _served = self.submissions.pop_front();
    }

    /// As `Site::take`.
    pub fn take<L: Ledger>(&mut self, feed: &Feed, steps: &mut Steps<L>) -> Result<Taken, Memory>
        requires may { MayTake (feed_of feed.now) self.old.site }
        ensures site { OnOk result (
            self.new ≡ at_site (site_after (feed_of feed.now) self.old.site) self.old) }
        ensures taken { IfOk result (λ taken.
            taken ≡ taken_as (feed_of feed.now) self.old.site self.new.site) }
        ensures kept { OnErr result (self.new ≡ self.old) }
        ensures counted { steps.old ≤ steps.new }
        ensures steps { steps.new ≤ steps.old + steps_of_take (feed_of feed.now) self.old.site }
    {
        self.site.take(feed, steps)
    }
}
