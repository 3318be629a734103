// What takes a change of a list back, noted before the change is made, or not noted at all.
ghost use Rattle.std.proofs.Common.{rules};
ghost use Rattle.std.proofs.lemmas.Grind.{common_steps};
ghost use Rattle.std.specs.Prelude.{◌≡◌, ◌≤◌, ◌+◌, ◌++◌, ℕ, List, length, take, OnOk};
ghost use Rattle.model_items.specs.declared.item.Item.{Item};
ghost use Rattle.ve_editor.specs.Back.{backward};
ghost use Rattle.ve_tx.specs.Spliced.{LieBetween, come_count};
ghost use Rattle.ve_tx.specs.declared.splice.Splice.{Splice};

use crate::back::Back;
use std::alloc::Global;
use ve_base::Memory;
use ve_items::Linear;
use ve_tx::Change;

/// Where it is noted what takes changes of a list back: on a trial in a `Back`, elsewhere nowhere.
pub trait Notes {
    /// Before these splices of a list were made, what undoes them was noted behind what was there,
    /// and the list has so much room.
    ghost have: { Self → List Item → List Splice → ℕ → Self → Type 0 };

    /// What was noted first is noted still.
    ghost keep: { Self → Self → Type 0 };

    /// Notes what undoes a change of a list, before it is made. Where it is noted, the list takes
    /// room for the change, and for all that is noted. An `Err` may leave some of it noted.
    fn note_change(
        &mut self,
        alloc: Global,
        list: &mut Linear,
        change: &Change,
    ) -> Result<(), Memory>
        requires { LieBetween 0 (length list.old.items) change.now.splices.items }
        ensures notes { OnOk result (
            have self.old list.old.items change.now.splices.items list.new.spare self.new) }
        ensures front { keep self.old self.new }
        ensures items { list.new.items ≡ list.old.items }
        ensures spare { list.old.spare ≤ list.new.spare };

    /// That holds where nothing is noted.
    ghost stays: { (x : Self) → keep x x };
}

impl Notes for Back {
    ghost have = { λ old items splices spare new.
        (new ≡ old ++ backward items splices)
        × (come_count new + come_count splices ≤ spare) };

    ghost keep = { λ old new. take (length old) new ≡ old };

    ghost stays = { Prim.search (rules, common_steps) };

    fn note_change(
        &mut self,
        alloc: Global,
        list: &mut Linear,
        change: &Change,
    ) -> Result<(), Memory> {
        let splices = change.splices.as_slice();
        self.note(alloc, list, splices)?;
        let Some(owed) = self.owed_with(splices) else {
            return Err(Memory);
        };
        list.reserve(owed)
    }
}

/// No notes: for changes that are made outside a trial.
#[derive(Clone, Copy)]
pub struct NoNotes;

impl Notes for NoNotes {
    ghost have = { λ _ _ _ _ _. Unit {0} };

    ghost keep = { λ _ _. Unit {0} };

    ghost stays = { λ _. tt };

    fn note_change(
        &mut self,
        _alloc: Global,
        _list: &mut Linear,
        _change: &Change,
    ) -> Result<(), Memory> {
        Ok(())
    }
}
