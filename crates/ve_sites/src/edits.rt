// Turns of one site by itself.
ghost use Rattle.std.specs.Prelude.{◌≡◌, ◌≢◌, ◌≤◌, ◌<◌, ◌+◌, ◌∷◌, [], All, Ok, Some, List, drop, length, map, IsOk, IfOk, IfErr, OnOk, OnErr};
ghost use Rattle.model_change.specs.Transaction.{InsertedApart};
ghost use Rattle.model_site.specs.Refused.{edit_cause};
ghost use Rattle.model_site.specs.Live.{revocation};
ghost use Rattle.model_site.specs.Site.{edit, entries_of, hinted_entries, hints_of, redo, revoke_entry, undo, with_selection, with_told};
ghost use Rattle.model_site_law.specs.SelectionLaws.{StandsIn};
ghost use Rattle.model_change.specs.Cost.{cost_of_transactions};
ghost use Rattle.ve_editor.specs.Counted.{steps_of_blank, steps_over};
ghost use Rattle.ve_editor.specs.Edited.{IsDraftOf, drafted};
ghost use Rattle.ve_editor.specs.Refusal.{IsEditRefusal};
ghost use Rattle.ve_peer_undo.specs.Counting.{hinted_parcel, RunFromPage};
ghost use Rattle.ve_peer_undo.specs.Refusal.{IsLiveRefusal};
ghost use Rattle.model_site.specs.Made.{redoing, undoing, revoking};
ghost use Rattle.ve_site.specs.Refusal.{IsRedoRefusal, IsUndoRefusal};
ghost use Rattle.ve_site.specs.Attempted.{IsAttempted};
ghost use Rattle.ve_sites.specs.FirstBack.{first_back};
ghost use Rattle.ve_sites.specs.Shared.{site_at, sites, with_site_at};
ghost use Rattle.ve_tx.specs.ByValue.{parcel_by_value, ParcelCites};

use crate::Sites;
use model_edit::Selection;
use model_site::{EditFault, RedoFault, UndoFault};
use std::alloc::Global;
use std::sync::ledger::Ledger;
use ve_base::{Memory, Steps};
use ve_editor::Attempt;
use ve_peer_undo::{LiveFault, entries_are_taken_back, live_reversal, reversal};
use ve_server::Parcels;
use ve_site::Site;
use ve_tx::{Draft, Parcel, ParcelList};

/// The entries that a site knows from one on: the committed ones that it has seen, and then its
/// pending ones, each with what it takes back.
fn known_from(alloc: Global, committed: &Parcels, i: usize, site: &Site) -> Result<Parcels, Memory>
    requires from { i ≤ site.now.site.seen }
    requires seen { site.now.site.seen ≤ length committed.now.entries }
    ensures entries { IfOk result (λ known.
        known.entries ≡ drop i (entries_of committed.now.entries site.now.site)) }
    ensures hints { IfOk result (λ known.
        known.hints ≡ drop i (hints_of committed.now.hints site.now.site)) }
{
    let seen = &committed.as_slice()[i..site.seen()];
    let mut known = Parcels::from_list(ParcelList::copy_of(alloc, seen)?);
    known.append(site.pending()?)?;
    Ok(known)
}

/// The parcel that takes the first of these entries back, which has that number, under all of them;
/// or, where `live`, under those that still count.
fn back_of(alloc: Global, number: usize, known: &[Parcel], live: bool) -> Result<Parcel, LiveFault>
    requires some { 0 < length known.now }
    requires cite { All ParcelCites known.now }
    requires run { RunFromPage (map parcel_by_value known.now) }
    ensures back { IfOk result (λ back.
        first_back live number (map hinted_parcel known.now) ≡ Ok (parcel_by_value back)) }
    ensures takes_back { IfOk result (λ back. back.entry.takes_back ≡ Some number) }
    ensures cites { IfOk result ParcelCites }
    ensures refused { IfErr result (
        IsLiveRefusal (first_back live number (map hinted_parcel known.now))) }
{
    if live {
        return live_reversal(alloc, number, known);
    }
    // entries that run meet what `reversal` asks
    entries_are_taken_back();
    let mut back = reversal(alloc, known, 0)?;
    back.entry.takes_back = Some(number);
    Ok(back)
}

impl Sites {
    /// Performs a draft at site `k`, as a new entry. It is refused as `Editor::perform` refuses,
    /// and an `Err` changes nothing.
    pub fn edit<L: Ledger>(
        &mut self,
        k: usize,
        draft: &Draft,
        steps: &mut Steps<L>,
    ) -> Result<(), EditFault>
        requires site { k < sites self.old }
        requires draft { IsDraftOf (site_at self.old k).replica.store draft.now }
        requires apart { InsertedApart (drafted (site_at self.old k).replica.store draft.now) }
        ensures site { OnOk result (
            edit (drafted (site_at self.old k).replica.store draft.now) (site_at self.old k)
            ≡ Ok (site_at self.new k)) }
        ensures same { OnOk result (self.new ≡ with_site_at k (site_at self.new k) self.old) }
        ensures refused { IfErr result (
            IsEditRefusal (
            edit_cause (drafted (site_at self.old k).replica.store draft.now)
            (site_at self.old k).replica)) }
        ensures kept { OnErr result (self.new ≡ self.old) }
        ensures counted { steps.old ≤ steps.new }
        ensures steps { steps.new
            ≤ steps.old
            + cost_of_transactions (drafted (site_at self.old k).replica.store draft.now ∷ [])
            (site_at self.old k).replica.items }
        ensures unstepped { IfErr result (λ why. why ≢ EditFault.Memory → steps.new ≡ steps.old) }
    {
        // its type keeps that it is in normal form, which `ops` tells
        let _ops = draft.tx.ops();
        self.members[k].edit(draft, steps)
    }

    /// Makes the changes of an attempt at site `k`, all of them or none, as one new entry. An `Err`
    /// changes nothing.
    ///
    /// The steps are those of the changes, and of a page without text.
    pub fn attempt<A: Attempt, L: Ledger>(
        &mut self,
        k: usize,
        attempt: &A,
        steps: &mut Steps<L>,
    ) -> Result<A::Told, A::Stop>
        requires site { k < sites self.old }
        requires can { A.can_run attempt.now (site_at self.old k).replica }
        ensures made { IfOk result (λ told.
            IsAttempted (λ ts. A.makes attempt.now (site_at self.old k).replica ts told)
            (site_at self.old k) (site_at self.new k)) }
        ensures same { OnOk result (self.new ≡ with_site_at k (site_at self.new k) self.old) }
        ensures stopped { IfErr result (A.stops attempt.now (site_at self.old k).replica) }
        ensures kept { OnErr result (self.new ≡ self.old) }
        ensures counted { steps.old ≤ steps.new }
        ensures steps { IfErr result A.is_refusal
            → steps.new
            ≤ steps.old
            + steps_of_blank
            + A.cost attempt.now (site_at self.old k).replica }
    {
        self.members[k].attempt(attempt, steps)
    }

    /// Takes back the last entry that site `k` has not sent. It is refused as `Site::undo` refuses,
    /// and an `Err` changes nothing.
    pub fn undo<L: Ledger>(&mut self, k: usize, steps: &mut Steps<L>) -> Result<(), UndoFault>
        requires site { k < sites self.old }
        ensures site { OnOk result (undo (site_at self.old k) ≡ Ok (site_at self.new k)) }
        ensures same { OnOk result (self.new ≡ with_site_at k (site_at self.new k) self.old) }
        ensures refused { IfErr result (IsUndoRefusal (undo (site_at self.old k))) }
        ensures memory { IfErr result (λ why.
            why ≡ UndoFault.Memory → IsOk (undo (site_at self.old k))) }
        ensures kept { OnErr result (self.new ≡ self.old) }
        ensures counted { steps.old ≤ steps.new }
        ensures steps { steps.new
            ≤ steps.old
            + steps_over (undoing (site_at self.old k).unsent)
            (site_at self.old k).replica.items }
    {
        self.members[k].undo(steps)
    }

    /// Performs again the last entry that site `k` undid, as a new entry. It is refused as
    /// `Site::redo` refuses, and an `Err` changes nothing.
    pub fn redo<L: Ledger>(&mut self, k: usize, steps: &mut Steps<L>) -> Result<(), RedoFault>
        requires site { k < sites self.old }
        ensures site { OnOk result (redo (site_at self.old k) ≡ Ok (site_at self.new k)) }
        ensures same { OnOk result (self.new ≡ with_site_at k (site_at self.new k) self.old) }
        ensures refused { IfErr result (IsRedoRefusal (redo (site_at self.old k))) }
        ensures memory { IfErr result (λ why.
            why ≡ RedoFault.Memory → IsOk (redo (site_at self.old k))) }
        ensures kept { OnErr result (self.new ≡ self.old) }
        ensures counted { steps.old ≤ steps.new }
        ensures steps { steps.new
            ≤ steps.old
            + steps_over (redoing (site_at self.old k).undone)
            (site_at self.old k).replica.items }
    {
        self.members[k].redo(steps)
    }

    /// Selects something else at site `k`.
    pub fn select(&mut self, k: usize, selection: Selection)
        requires site { k < sites self.old }
        requires stands { StandsIn (site_at self.old k).replica.items selection }
        ensures { self.new
            ≡ with_site_at k (with_selection selection (site_at self.old k)) self.old }
    {
        self.members[k].select(selection);
    }

    /// What changed at site `k` was told: from here on it notes what changes after that. It takes
    /// no memory.
    pub fn tell(&mut self, k: usize)
        requires site { k < sites self.old }
        ensures { self.new ≡ with_site_at k (with_told (site_at self.old k)) self.old }
    {
        self.members[k].tell();
    }

    /// Takes back, at site `k`, the committed entry `i` under all later entries that the site
    /// knows, as a new entry of its own, which names `i`. `Conflict` comes exactly where a later
    /// one conflicts with the reversal, and names the first two ranges that do. An `Err` changes
    /// nothing.
    ///
    /// Where `live`, later entries that took each other back don't stand in the way, and
    /// `TakenBack` comes exactly where a later one took `i` back already.
    pub fn revoke<L: Ledger>(
        &mut self,
        k: usize,
        i: usize,
        live: bool,
        steps: &mut Steps<L>,
    ) -> Result<(), LiveFault>
        requires site { k < sites self.old }
        requires seen { i < (site_at self.old k).seen }
        ensures site { OnOk result (
            revoke_entry self.old.session.committed self.old.session.hints live i
            (site_at self.old k)
            ≡ Ok (site_at self.new k)) }
        ensures same { OnOk result (self.new ≡ with_site_at k (site_at self.new k) self.old) }
        ensures refused { IfErr result (
            IsLiveRefusal (
            revocation live (
            hinted_entries self.old.session.committed self.old.session.hints (site_at self.old k))
            i)) }
        ensures kept { OnErr result (self.new ≡ self.old) }
        ensures counted { steps.old ≤ steps.new }
        ensures steps { steps.new
            ≤ steps.old
            + steps_over (
            revoking self.old.session.committed self.old.session.hints live i (site_at self.old k))
            (site_at self.old k).replica.items }
    {
        // the entries before `i` don't matter
        entries_are_taken_back();
        let alloc = *self.members.allocator();
        let known = known_from(alloc, self.server.committed(), i, self.members[k].site())?;
        let back = back_of(alloc, i, known.as_slice(), live)?;
        self.members[k].adopt(&back, steps)?;
        Ok(())
    }
}
