// Two stacks of changes.
ghost use Rattle.std.specs.Prelude.{◌≡◌, ◌≢◌, ◌≤◌, ◌-◌, ◌++◌, [], ◌∷◌, IsOk, IfOk, OnOk, OnErr, None, Some, length, slice_get, drop, option_copied};
ghost use Rattle.ve_history.specs.Stacks.{without_last};

use std::alloc::Global;
use std::marker::Model;
use ve_base::Memory;
use ve_tx::{Entry, EntryList, Parcel};

/// The entries that are done and can be undone, and the parcels that were undone and can be redone.
/// `spare` is how many more either stack takes without memory.
pub struct History {
    done: Vec<Entry>,
    // the last one undone at the end, so that it is taken off without moving the others
    undone: Vec<Parcel>,
    spare: usize,
}

impl Drop for History {
    fn drop(self) {
        let History {
            done,
            undone,
            spare: _,
        } = self;
        drop(done);
        drop(undone);
    }
}

impl Model for History {
    ghost use Rattle.std.specs.Prelude.{◌+◌, ◌≤◌, reverse, vec_len, vec_capacity};
    ghost use Rattle.ve_history.specs.Stacks.{Stacks};

    ghost Value = { Stacks };

    ghost view = { λ h. record { done = h.done.items; undone = reverse h.undone.items; spare = h.spare } };

    ghost invariant = { λ h. record { done : vec_len h.done + h.spare ≤ vec_capacity h.done; undone : vec_len h.undone + h.spare ≤ vec_capacity h.undone } };
}

impl History {
    /// The empty history. It takes no memory.
    pub fn new(alloc: Global) -> History
        ensures done { result.done ≡ [] }
        ensures undone { result.undone ≡ [] }
        ensures spare { result.spare ≡ 0 }
    {
        History {
            done: Vec::new(alloc),
            undone: Vec::new(alloc),
            spare: 0,
        }
    }

    /// Takes room for one more on either stack. An `Err` changes nothing.
    pub fn reserve(&mut self) -> Result<(), Memory>
        ensures done { self.new.done ≡ self.old.done }
        ensures undone { self.new.undone ≡ self.old.undone }
        ensures ok { OnOk result (1 ≤ self.new.spare) }
        ensures spare { self.old.spare ≤ self.new.spare }
        ensures err { OnErr result (self.new ≡ self.old) }
        ensures within { 1 ≤ self.old.spare → IsOk result }
    {
        if self.spare == 0 {
            self.done.reserve(1)?;
            self.undone.reserve(1)?;
            self.spare = 1;
        }
        Ok(())
    }

    /// Takes room as `reserve` does, where there is an entry to undo. Where there is none it takes no
    /// memory. An `Err` changes nothing.
    pub fn reserve_undo(&mut self) -> Result<(), Memory>
        ensures done { self.new.done ≡ self.old.done }
        ensures undone { self.new.undone ≡ self.old.undone }
        ensures ok { OnOk result (self.old.done ≢ [] → 1 ≤ self.new.spare) }
        ensures spare { self.old.spare ≤ self.new.spare }
        ensures err { OnErr result (self.new ≡ self.old) }
        ensures none { self.old.done ≡ [] → IsOk result }
        ensures within { 1 ≤ self.old.spare → IsOk result }
    {
        if self.done.is_empty() {
            return Ok(());
        }
        self.reserve()
    }

    /// Takes room as `reserve` does, where there is a parcel to redo. Where there is none it takes
    /// no memory. An `Err` changes nothing.
    pub fn reserve_redo(&mut self) -> Result<(), Memory>
        ensures done { self.new.done ≡ self.old.done }
        ensures undone { self.new.undone ≡ self.old.undone }
        ensures ok { OnOk result (self.old.undone ≢ [] → 1 ≤ self.new.spare) }
        ensures spare { self.old.spare ≤ self.new.spare }
        ensures err { OnErr result (self.new ≡ self.old) }
        ensures none { self.old.undone ≡ [] → IsOk result }
        ensures within { 1 ≤ self.old.spare → IsOk result }
    {
        if self.undone.is_empty() {
            return Ok(());
        }
        self.reserve()
    }

    /// Puts a new entry on the first stack; nothing can be redone then. It succeeds within the
    /// spare room, of which it takes one. An `Err` changes nothing.
    pub fn push(&mut self, entry: Entry) -> Result<(), Memory>
        ensures done { OnOk result (self.new.done ≡ self.old.done ++ entry ∷ []) }
        ensures undone { OnOk result (self.new.undone ≡ []) }
        ensures err { OnErr result (self.new ≡ self.old) }
        ensures spare { OnOk result (self.old.spare - 1 ≤ self.new.spare) }
        ensures within { 1 ≤ self.old.spare → IsOk result }
    {
        self.reserve()?;
        self.clear_undone();
        let pushed = self.done.push(entry).is_ok();
        prove!(pushed);
        self.spare -= 1;
        Ok(())
    }

    /// Lends the entry that was done last, if there is one.
    pub fn undo_top(&self) -> Option<&Entry>
        ensures { option_copied result ≡ slice_get self.now.done (length self.now.done - 1) }
    {
        self.done.as_slice().last()
    }

    /// Lends the parcel that was undone last, if there is one.
    pub fn redo_top(&self) -> Option<&Parcel>
        ensures { option_copied result ≡ slice_get self.now.undone 0 }
    {
        self.undone.as_slice().last()
    }

    /// Takes the last entry off the first stack and puts its parcel on the second. It succeeds
    /// within the spare room, and an `Err` changes nothing.
    pub fn move_down(&mut self, undone: Parcel) -> Result<(), Memory>
        requires { self.old.done ≢ [] }
        ensures done { OnOk result (self.new.done ≡ without_last self.old.done) }
        ensures undone { OnOk result (self.new.undone ≡ undone ∷ self.old.undone) }
        ensures err { OnErr result (self.new ≡ self.old) }
        ensures spare { OnOk result (self.old.spare - 1 ≤ self.new.spare) }
        ensures within { 1 ≤ self.old.spare → IsOk result }
    {
        self.reserve()?;
        let pushed = self.undone.push(undone).is_ok();
        prove!(pushed);
        let _ = self.done.pop();
        self.spare -= 1;
        Ok(())
    }

    /// Takes the last parcel off the second stack and puts its entry, done again, on the first. It
    /// succeeds within the spare room, and an `Err` changes nothing.
    pub fn move_up(&mut self, redone: Entry) -> Result<(), Memory>
        requires { self.old.undone ≢ [] }
        ensures done { OnOk result (self.new.done ≡ self.old.done ++ redone ∷ []) }
        ensures undone { OnOk result (self.new.undone ≡ drop 1 self.old.undone) }
        ensures err { OnErr result (self.new ≡ self.old) }
        ensures spare { OnOk result (self.old.spare - 1 ≤ self.new.spare) }
        ensures within { 1 ≤ self.old.spare → IsOk result }
    {
        self.reserve()?;
        let pushed = self.done.push(redone).is_ok();
        prove!(pushed);
        let _ = self.undone.pop();
        self.spare -= 1;
        Ok(())
    }

    /// Lends the entries that are done, oldest first.
    pub fn done(&self) -> &[Entry]
        ensures { result.now ≡ self.now.done }
    {
        self.done.as_slice()
    }

    /// Puts a list in the place of the entries that are done, and hands these back. It takes no
    /// memory, and keeps no spare room.
    pub fn replace_done(&mut self, done: EntryList) -> EntryList
        ensures handed { result ≡ self.old.done }
        ensures done { self.new.done ≡ done }
        ensures undone { self.new.undone ≡ self.old.undone }
        ensures spare { self.new.spare ≡ 0 }
    {
        self.spare = 0;
        let mut list = done.into_vec();
        std::mem::swap(&mut self.done, &mut list);
        EntryList::from_vec(list)
    }

    /// Empties the second stack. It takes no memory.
    pub fn clear_undone(&mut self)
        ensures done { self.new.done ≡ self.old.done }
        ensures undone { self.new.undone ≡ [] }
        ensures spare { self.new.spare ≡ self.old.spare }
    {
        self.undone.clear();
    }
}
