// What an arena keeps under a number, and what it notes of it in a trial.
ghost use Rattle.std.specs.Prelude.{◌≡◌, ◌≢◌, ◌<◌, ◌≤◌, ◌+◌, ◌++◌, ℕ, [], ◌∷◌, true, false, None, Some, OnOk, IsSome, count_by, is_some, length, option_map, vec_capacity, if◌then◌else◌};
ghost use Rattle.ve_arena.specs.Slots.{AreNoted, AreSettled, IsReady, kept, node_in, slot_of, vacated, with_slot_field};

use crate::{ArenaNode, Field};
use slab::Slab;
use ve_base::Memory;

/// What stands under a number: a node, or in a trial nothing any more, so that the number isn't
/// given out again. And the number of the note of what stood there when the trial began.
#[derive(Clone, Copy)]
pub struct Slot {
    pub node: Option<ArenaNode>,
    pub note: Option<usize>,
}

/// What stood under a number when a trial began: a node, or nothing.
#[derive(Clone, Copy)]
pub struct Note {
    pub number: usize,
    pub node: Option<ArenaNode>,
}

/// Makes a slot ready to be written: in a trial it is noted, unless it was.
pub fn make_ready(slots: &mut Slab<Slot>, notes: &mut Vec<Note>, in_trial: bool, number: usize)
    requires there { IsSome (slot_of slots.old.slots number) }
    requires noted { AreNoted slots.old.slots notes.old.items }
    requires room { in_trial ≡ true → count_by is_some slots.old.slots ≤ vec_capacity notes.old }
    requires is_still { in_trial ≡ false → notes.old.items ≡ [] }
    ensures ready { IsReady in_trial number slots.old.slots notes.old.items slots.new.slots
        notes.new.items }
    ensures room { vec_capacity notes.new ≡ vec_capacity notes.old }
{
    if !in_trial {
        return;
    }
    let slot = slots[number];
    if slot.note.is_some() {
        return;
    }
    slots[number] = Slot {
        node: slot.node,
        note: Some(notes.len()),
    };
    notes.push_reserved(Note {
        number,
        node: slot.node,
    });
}

/// Writes a field of the node in a slot.
pub fn set_field(slots: &mut Slab<Slot>, number: usize, field: Field)
    requires { IsSome (slot_of slots.old.slots number) }
    ensures here { slot_of slots.new.slots number
        ≡ option_map (with_slot_field field) (slot_of slots.old.slots number) }
    ensures others { (n : ℕ)
        → n ≢ number
        → slot_of slots.new.slots n ≡ slot_of slots.old.slots n }
{
    if let Some(node) = &mut slots[number].node {
        node.set(field);
    }
}

/// Takes the node out of a slot, which stays.
pub fn vacate(slots: &mut Slab<Slot>, number: usize)
    requires { IsSome (slot_of slots.old.slots number) }
    ensures here { slot_of slots.new.slots number
        ≡ option_map vacated (slot_of slots.old.slots number) }
    ensures others { (n : ℕ)
        → n ≢ number
        → slot_of slots.new.slots n ≡ slot_of slots.old.slots n }
{
    slots[number].node = None;
}

/// In a trial takes room for the note of one slot more, where there are so many.
pub fn reserve_notes(notes: &mut Vec<Note>, in_trial: bool, slots: usize) -> Result<(), Memory>
    requires { length notes.old.items ≤ slots }
    ensures items { notes.new.items ≡ notes.old.items }
    ensures room { OnOk result (in_trial ≡ true → slots + 1 ≤ vec_capacity notes.new) }
    ensures more { vec_capacity notes.old ≤ vec_capacity notes.new }
{
    if !in_trial {
        return Ok(());
    }
    let Some(left) = (slots - notes.len()).checked_add(1) else {
        return Err(Memory);
    };
    notes.reserve(left)?;
    Ok(())
}

/// The number of the next note, in a trial.
pub fn note_for(notes: &[Note], in_trial: bool) -> Option<usize>
    ensures { result ≡ (if in_trial then Some (length notes.now) else None) }
{
    if in_trial { Some(notes.len()) } else { None }
}

/// In a trial notes that nothing stood in a slot.
pub fn push_note(notes: &mut Vec<Note>, in_trial: bool, number: usize)
    requires { in_trial ≡ true → length notes.old.items < vec_capacity notes.old }
    ensures items { notes.new.items
        ≡ (if in_trial then notes.old.items ++ record { number = number; node = None } ∷ []
        else notes.old.items) }
    ensures room { vec_capacity notes.new ≡ vec_capacity notes.old }
{
    if in_trial {
        notes.push_reserved(Note { number, node: None });
    }
}

/// Ends a trial at one slot, which has a node from now on, or is gone.
fn settle_one(slots: &mut Slab<Slot>, number: usize, node: Option<ArenaNode>)
    requires { IsSome (slot_of slots.old.slots number) }
    ensures here { slot_of slots.new.slots number ≡ kept node }
    ensures others { (n : ℕ)
        → n ≢ number
        → slot_of slots.new.slots n ≡ slot_of slots.old.slots n }
{
    match node {
        Some(node) => {
            slots[number] = Slot {
                node: Some(node),
                note: None,
            };
        }
        None => {
            slots.remove(number);
        }
    }
}

/// The node that stays in the slot of a note.
fn staying(slots: &Slab<Slot>, note: Note, back: bool) -> Option<ArenaNode>
    requires { IsSome (slot_of slots.now.slots note.number) }
    ensures { result
        ≡ (if back then note.node else node_in (slot_of slots.now.slots note.number)) }
{
    if back {
        return note.node;
    }
    slots[note.number].node
}

/// Ends a trial at each slot that has a note: with the node that stood there when it began, or with
/// the one that is there.
pub fn settle(slots: &mut Slab<Slot>, notes: &[Note], back: bool)
    requires { AreNoted slots.old.slots notes.now }
    ensures { AreSettled back notes.now (length notes.now) slots.old.slots slots.new.slots }
{
    for i in 0..notes.len() {
        let note = notes[i];
        let node = staying(slots, note, back);
        settle_one(slots, note.number, node);
    }
}
