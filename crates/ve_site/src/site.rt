// A site.
ghost use Rattle.std.specs.Prelude.{◌≡◌, ◌≢◌, ◌≤◌, ◌+◌, ◌==◌, if◌then◌else◌, List, [], ◌∷◌, Ok, length, ◌↔◌, IsTrue, IsOk, IfOk, IfErr, OnOk, OnErr};
ghost use Rattle.model_change.specs.Transaction.{Transaction, InsertedApart};
ghost use Rattle.model_site.specs.Entries.{hints, parcels};
ghost use Rattle.model_site.specs.Replica.{all_performed};
ghost use Rattle.model_change.specs.Replay.{AllRun};
ghost use Rattle.model_site.specs.Site.{Site as ModelSite, edit, pending, redo, send, starting, undo, told, with_entry_against, with_selection, with_told};
ghost use Rattle.model_site_law.specs.Sound.{AllMayRun, Sound};
ghost use Rattle.model_site_law.specs.SelectionLaws.{StandsIn};

use crate::sent::parcels_of;
use crate::untold::Untold;
use model_edit::Selection;
use model_site::{EditFault, Patch, RedoFault, SendFault, UndoFault};
use std::alloc::Global;
use std::marker::Model;
use std::sync::ledger::Ledger;
use ve_base::{Memory, Steps};
use ve_editor::{Attempt, Editor};
use ve_history::History;
use ve_offsets::Doc;
use ve_server::{Parcels, Submit};
use ve_tx::{Draft, Entry, EntryList, Parcel};

/// A site: its editor, the entries that it sent and has no answer for, those that it has not sent,
/// and those that it undid. The view is its number beside the model's site.
#[derive(Drop)]
pub struct Site {
    number: u32,
    pub(crate) editor: Editor,
    // what it has not told of how its list changed
    pub(crate) untold: Untold,
    // how many committed entries its list has
    pub(crate) seen: usize,
    pub(crate) sent: Vec<Entry>,
    // the entries that are not sent, and those that were undone
    pub(crate) history: History,
    // how many entries it sent since the page was opened
    pub(crate) shared: usize,
    // how many entries the submission has that is on its way
    pub(crate) in_flight: Option<usize>,
    pub(crate) alloc: Global,
}

impl Model for Site {
    ghost use Rattle.ve_editor.specs.Page.{replica_of};
    ghost use Rattle.ve_site.specs.Numbered.{Numbered, site_of, IsSite};

    ghost Value = { Numbered };

    ghost view = { λ s. record { number = s.number; site = site_of (replica_of s.editor) s.untold s.seen s.sent.items s.history s.shared s.in_flight } };

    ghost invariant = { λ s. IsSite (replica_of s.editor) s.seen s.sent.items s.history s.shared s.in_flight };
}

/// Why a site that has nothing unsent undoes nothing, where it sent so many entries.
fn nothing_to_undo(sent: usize) -> UndoFault
    ensures { result
        ≡ (if sent == 0 then UndoFault.NothingToUndo else UndoFault.AlreadyShared sent) }
{
    if sent == 0 {
        return UndoFault::NothingToUndo;
    }
    UndoFault::AlreadyShared { sent }
}

impl Site {
    ghost use Rattle.ve_editor.specs.Edited.{IsDraftOf, drafted, entry_by_value, EntryCites};
    ghost use Rattle.ve_editor.specs.Page.{IsPage, replica_of};
    ghost use Rattle.ve_editor.specs.Refusal.{IsEditRefusal};
    ghost use Rattle.ve_offsets.specs.Docs.{page_items};
    ghost use Rattle.model_change.specs.Cost.{cost_of_transactions};
    ghost use Rattle.ve_editor.specs.Counted.{steps_of_blank, steps_over};
    ghost use Rattle.model_site.specs.Made.{undoing, redoing};
    ghost use Rattle.ve_server.specs.Fed.{submission_of};
    ghost use Rattle.ve_tx.specs.ByValue.{parcel_by_value, ParcelCites};
    ghost use Rattle.ve_site.specs.Numbered.{with_site};
    ghost use Rattle.ve_site.specs.Settled.{with_new_entry, Settles};
    ghost use Rattle.ve_site.specs.Attempted.{IsAttempted};
    ghost use Rattle.ve_site.specs.Refusal.{IsUndoRefusal, IsRedoRefusal, IsSendRefusal, send_refusal};
    ghost use Rattle.model_site.specs.Refused.{edit_cause};

    /// A site with the page that was opened, which has seen no committed entry and has nothing
    /// pending. It has told nothing yet. Its only `Err` is want of memory.
    pub fn new(alloc: Global, number: u32, editor: Editor) -> Result<Site, Memory>
        requires sound { Sound editor.items }
        requires selection { StandsIn editor.items editor.selection }
        ensures { IfOk result (λ site.
            site ≡ record { number = number; site = starting (replica_of editor) }) }
    {
        let untold = Untold::new(alloc, editor.doc().list.len())?;
        Ok(Site {
            number,
            editor,
            untold,
            seen: 0,
            sent: Vec::new(alloc),
            history: History::new(alloc),
            shared: 0,
            in_flight: None,
            alloc,
        })
    }

    /// Its number among the sites.
    pub fn number(&self) -> u32
        ensures { result ≡ self.now.number }
    {
        self.number
    }

    /// Lends the editor.
    pub fn editor(&self) -> &Editor
        ensures { replica_of result.now ≡ self.now.site.replica }
    {
        &self.editor
    }

    /// Lends its list, tree and values, to be read.
    pub fn doc(&self) -> Doc<'_>
        ensures items { page_items result ≡ self.now.site.replica.items }
        ensures store { result.store.now ≡ self.now.site.replica.store }
        ensures page { IsPage self.now.site.replica.store result.list.now.items result.tree.now }
    {
        self.editor.doc()
    }

    /// Its selection.
    pub fn selection(&self) -> Selection
        ensures { result ≡ self.now.site.replica.selection }
    {
        self.editor.selection()
    }

    /// How many committed entries its list has.
    pub fn seen(&self) -> usize
        ensures { result ≡ self.now.site.seen }
    {
        self.seen
    }

    /// Selects something else.
    pub fn select(&mut self, selection: Selection)
        requires { StandsIn self.old.site.replica.items selection }
        ensures { self.new ≡ with_site (with_selection selection self.old.site) self.old }
    {
        self.editor.select(selection);
    }

    /// What changed in its list since it was told, as patches, one after the other; at first all
    /// that was opened has come. A patch counts items: from a position on, so many went and so many
    /// came. A position is one of the list that the patches before it gave. A view that keeps the
    /// list of the last time makes room for each patch in turn, and fetches the items that they put
    /// in from the list as it is now. Of over `MAX_PATCHES` one patch is told, of the whole list.
    pub fn told(&self) -> Result<Vec<Patch>, Memory>
        ensures { IfOk result (λ patches. patches.items ≡ told self.now.site) }
    {
        self.untold.told(self.alloc, self.editor.doc().list.len())
    }

    /// What changed was told: from here on it notes what changes after that. It takes no memory.
    pub fn tell(&mut self)
        ensures { self.new ≡ with_site (with_told self.old.site) self.old }
    {
        let count = self.editor.doc().list.len();
        self.untold.clear(count);
    }

    /// Performs a draft as a new entry; undone entries can't be redone then. It is refused as
    /// `Editor::perform` refuses, and an `Err` changes nothing.
    pub fn edit<L: Ledger>(&mut self, draft: &Draft, steps: &mut Steps<L>) -> Result<(), EditFault>
        requires draft { IsDraftOf self.old.site.replica.store draft.now }
        requires apart { InsertedApart (drafted self.old.site.replica.store draft.now) }
        ensures site { OnOk result (
            edit (drafted self.old.site.replica.store draft.now) self.old.site
            ≡ Ok self.new.site) }
        ensures number { self.new.number ≡ self.old.number }
        ensures refused { IfErr result (
            IsEditRefusal (
            edit_cause (drafted self.old.site.replica.store draft.now)
            self.old.site.replica)) }
        ensures kept { OnErr result (self.new ≡ self.old) }
        ensures counted { steps.old ≤ steps.new }
        ensures steps { steps.new
            ≤ steps.old
            + cost_of_transactions (drafted self.old.site.replica.store draft.now ∷ [])
            self.old.site.replica.items }
        ensures unstepped { IfErr result (λ why. why ≢ EditFault.Memory → steps.new ≡ steps.old) }
    {
        if self.history.reserve().is_err() {
            return Err(EditFault::Memory);
        }
        // its type keeps that it is in normal form, which `ops` tells
        let _ops = draft.tx.ops();
        let entry = self.editor.perform(draft, steps)?;
        self.untold.note(entry.txs.as_slice());
        let pushed = self.history.push(entry).is_ok();
        prove!(pushed);
        Ok(())
    }

    /// Makes the changes of an attempt, all of them or none, as one new entry; undone entries can't
    /// be redone then. An `Err` changes nothing.
    ///
    /// The steps are those of the changes, and of a page without text.
    pub fn attempt<A: Attempt, L: Ledger>(
        &mut self,
        attempt: &A,
        steps: &mut Steps<L>,
    ) -> Result<A::Told, A::Stop>
        requires can { A.can_run attempt.now self.old.site.replica }
        ensures made { IfOk result (λ told.
            IsAttempted (λ ts. A.makes attempt.now self.old.site.replica ts told) self.old.site
            self.new.site) }
        ensures number { self.new.number ≡ self.old.number }
        ensures stopped { IfErr result (A.stops attempt.now self.old.site.replica) }
        ensures kept { OnErr result (self.new ≡ self.old) }
        ensures counted { steps.old ≤ steps.new }
        ensures steps { IfErr result A.is_refusal
            → steps.new
            ≤ steps.old
            + steps_of_blank
            + A.cost attempt.now self.old.site.replica }
    {
        if self.history.reserve().is_err() {
            return Err(attempt.no_memory());
        }
        let (entry, told) = self.editor.attempt(attempt, steps)?;
        self.untold.note(entry.txs.as_slice());
        let pushed = self.history.push(entry).is_ok();
        prove!(pushed);
        Ok(told)
    }

    /// Takes a changed copy of its editor in place of its own, and the entry of the changes. They
    /// are edits that were performed one after the other and are one, as a batch is. The undone
    /// entries can't be redone then. An `Err` changes nothing.
    pub fn settle(&mut self, editor: Editor, entry: Entry) -> Result<(), Memory>
        requires settles { Settles self.old.site.replica (replica_of editor) entry }
        ensures site { OnOk result (
            self.new
            ≡ with_site (with_new_entry (replica_of editor) entry self.old.site) self.old) }
        ensures kept { OnErr result (self.new ≡ self.old) }
    {
        self.history.reserve()?;
        self.editor = editor;
        self.untold.note(entry.txs.as_slice());
        let pushed = self.history.push(entry).is_ok();
        prove!(pushed);
        Ok(())
    }

    /// Takes back the last entry that is not sent. It can be redone until another edit is made or a
    /// feed is taken. Where nothing is unsent, `NothingToUndo` comes exactly if the site sent no
    /// entry since the page was opened, and `AlreadyShared` exactly if it did. Want of memory comes
    /// only where an entry is unsent. An `Err` changes nothing.
    pub fn undo<L: Ledger>(&mut self, steps: &mut Steps<L>) -> Result<(), UndoFault>
        ensures site { OnOk result (undo self.old.site ≡ Ok self.new.site) }
        ensures number { self.new.number ≡ self.old.number }
        ensures refused { IfErr result (IsUndoRefusal (undo self.old.site)) }
        ensures memory { IfErr result (λ why. why ≡ UndoFault.Memory → IsOk (undo self.old.site)) }
        ensures kept { OnErr result (self.new ≡ self.old) }
        ensures counted { steps.old ≤ steps.new }
        ensures steps { steps.new
            ≤ steps.old + steps_over (undoing self.old.site.unsent) self.old.site.replica.items }
    {
        if self.history.reserve_undo().is_err() {
            return Err(UndoFault::Memory);
        }
        let Some(last) = self.history.undo_top() else {
            return Err(nothing_to_undo(self.shared));
        };
        let Ok(parcel) = Parcel::of(self.alloc, last, self.editor.doc().store) else {
            return Err(UndoFault::Memory);
        };
        if self.editor.revert(last, steps).is_err() {
            return Err(UndoFault::Memory);
        }
        self.untold.note_back(last.txs.as_slice());
        let moved = self.history.move_down(parcel).is_ok();
        prove!(moved);
        Ok(())
    }

    /// Performs the last undone entry again, as a new entry that takes back what it took back.
    /// `NothingToRedo` comes exactly where nothing was undone since the last edit or take that was
    /// not redone, and want of memory only where something was. An `Err` changes nothing.
    pub fn redo<L: Ledger>(&mut self, steps: &mut Steps<L>) -> Result<(), RedoFault>
        ensures site { OnOk result (redo self.old.site ≡ Ok self.new.site) }
        ensures number { self.new.number ≡ self.old.number }
        ensures refused { IfErr result (IsRedoRefusal (redo self.old.site)) }
        ensures memory { IfErr result (λ why. why ≡ RedoFault.Memory → IsOk (redo self.old.site)) }
        ensures kept { OnErr result (self.new ≡ self.old) }
        ensures counted { steps.old ≤ steps.new }
        ensures steps { steps.new
            ≤ steps.old + steps_over (redoing self.old.site.undone) self.old.site.replica.items }
    {
        if self.history.reserve_redo().is_err() {
            return Err(RedoFault::Memory);
        }
        let Some(undone) = self.history.redo_top() else {
            return Err(RedoFault::NothingToRedo);
        };
        let Ok(entry) = self.editor.admit(undone, steps) else {
            return Err(RedoFault::Memory);
        };
        self.untold.note(entry.txs.as_slice());
        let moved = self.history.move_up(entry).is_ok();
        prove!(moved);
        Ok(())
    }

    /// Whether it has taken nothing, and has nothing pending.
    pub fn is_untouched(&self) -> bool
        ensures { IsTrue result ↔ ((self.now.site.seen ≡ 0) × (pending self.now.site ≡ [])) }
    {
        if self.seen > 0 {
            return false;
        }
        if !self.sent.is_empty() {
            return false;
        }
        self.history.done().is_empty()
    }

    /// Its pending entries, serialised, and what they take back: those that it sent, and then those
    /// that it has not sent.
    pub fn pending(&self) -> Result<Parcels, Memory>
        ensures entries { IfOk result (λ all. all.entries ≡ parcels (pending self.now.site)) }
        ensures hints { IfOk result (λ all. all.hints ≡ hints (pending self.now.site)) }
    {
        let store = self.editor.doc().store;
        let mut entries = parcels_of(self.alloc, self.sent.as_slice(), store)?;
        entries.append(parcels_of(self.alloc, self.history.done(), store)?)?;
        Ok(entries)
    }

    /// Performs a parcel as a new entry of its own, which takes back what the parcel does; undone
    /// entries can't be redone then. The parcel's transactions have to run on the list. The limits
    /// of items and of values don't bind it. An `Err` changes nothing.
    pub fn adopt<L: Ledger>(&mut self, back: &Parcel, steps: &mut Steps<L>) -> Result<(), Memory>
        requires cites { ParcelCites back.now }
        requires run { AllRun (parcel_by_value back.now) self.old.site.replica.items }
        ensures site { OnOk result (
            self.new
            ≡ with_site (
            with_entry_against back.now.entry.takes_back (parcel_by_value back.now) self.old.site)
            self.old) }
        ensures kept { OnErr result (self.new ≡ self.old) }
        ensures counted { steps.old ≤ steps.new }
        ensures steps { steps.new
            ≤ steps.old + steps_over (parcel_by_value back.now) self.old.site.replica.items }
    {
        self.history.reserve()?;
        let entry = self.editor.admit(back, steps)?;
        self.untold.note(entry.txs.as_slice());
        let adopted = self.history.push(entry).is_ok();
        prove!(adopted);
        Ok(())
    }

    /// Why nothing can be sent: `InFlight` where a submission is not acknowledged yet, and else
    /// `NothingToSend` where nothing is unsent. Where it is `None`, `send` can only want memory.
    pub fn send_refusal(&self) -> Option<SendFault>
        ensures { result ≡ send_refusal (send self.now.site) }
    {
        if let Some(entries) = self.in_flight {
            return Some(SendFault::InFlight { entries });
        }
        if self.history.done().is_empty() {
            return Some(SendFault::NothingToSend);
        }
        None
    }

    /// Sends all entries that are not sent, as one submission made on the committed entries that it
    /// has seen. It is refused exactly as `send_refusal` says, and wants memory only where that is
    /// `None`. An `Err` changes nothing.
    pub fn send(&mut self) -> Result<Submit, SendFault>
        ensures sent { IfOk result (λ sent.
            send self.old.site ≡ Ok (self.new.site, submission_of sent)) }
        ensures from { IfOk result (λ sent. sent.site ≡ self.old.number) }
        ensures number { self.new.number ≡ self.old.number }
        ensures refused { IfErr result (IsSendRefusal (send self.old.site)) }
        ensures memory { IfErr result (λ why. why ≡ SendFault.Memory → IsOk (send self.old.site)) }
        ensures kept { OnErr result (self.new ≡ self.old) }
    {
        if let Some(fault) = self.send_refusal() {
            return Err(fault);
        }
        let unsent = self.history.done();
        let count = unsent.len();
        let Some(shared) = self.shared.checked_add(count) else {
            return Err(SendFault::Memory);
        };
        let Ok(parcels) = parcels_of(self.alloc, unsent, self.editor.doc().store) else {
            return Err(SendFault::Memory);
        };
        if self.sent.reserve(count).is_err() {
            return Err(SendFault::Memory);
        }
        let none = EntryList::new(self.alloc);
        let mut moved = self.history.replace_done(none).into_vec();
        let appended = self.sent.append(&mut moved).is_ok();
        prove!(appended);
        self.shared = shared;
        self.in_flight = Some(count);
        Ok(Submit {
            site: self.number,
            base: self.seen,
            parcels,
        })
    }
}
