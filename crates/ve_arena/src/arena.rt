// The arena: making, freeing, linking and copying nodes, one step each, and trials.
ghost use Rattle.std.specs.Prelude.{◌≡◌, ◌+◌, [], None, Some, IfOk, OnOk, OnErr, if◌then◌else◌};
ghost use Rattle.ve_arena.specs.Arena.{node_under, IsLive, live_count, Changes, Puts, new_node, settled, first_slots};
ghost use Rattle.ve_arena.specs.Arena.{with_parent, with_first, with_last, with_before, with_after, with_len, with_field};

use crate::slot::{
    Note, Slot, make_ready, note_for, push_note, reserve_notes, set_field, settle, vacate,
};
use crate::{ArenaNode, Field, NodeId, NodeWhat};
use slab::Slab;
use std::alloc::Global;
use std::marker::Model;
use std::sync::ledger::Ledger;
use ve_base::{Memory, Steps};

/// Nodes under numbers that the arena picks. It is seen as a list of slots: the node under each
/// number from 0 on, or nothing. During a trial it is also seen as the slots that were there when
/// that began.
///
/// In a trial the first write to a slot notes what stood there. There is room for a note of each
/// slot from the start, so a write can't fail. A freed node leaves its slot, so that no other gets
/// its number before the trial ends.
pub struct Arena {
    slots: Slab<Slot>,
    notes: Vec<Note>,
    in_trial: bool,
    // how many slots lost their node in the trial
    freed: usize,
}

impl Drop for Arena {
    fn drop(self) {
        let Arena {
            slots,
            notes,
            in_trial: _,
            freed: _,
        } = self;
        drop(slots);
        drop(notes);
    }
}

impl Model for Arena {
    ghost use Rattle.std.specs.Prelude.{Some, None, if◌then◌else◌, vec_capacity};
    ghost use Rattle.ve_arena.specs.Arena.{ArenaView};
    ghost use Rattle.ve_arena.specs.Slots.{IsSound, first_nodes, nodes_in};

    ghost Value = { ArenaView };

    ghost view = { λ a. record {
      slots = nodes_in a.slots.slots;
      first = if a.in_trial then Some (first_nodes a.slots.slots a.notes.items) else None;
    } };

    ghost invariant = { λ a.
        IsSound a.slots.slots a.notes.items (vec_capacity a.notes) a.in_trial a.freed };
}

impl Arena {
    /// An arena without nodes. It takes no memory.
    pub fn new(alloc: Global) -> Arena
        ensures { result ≡ settled [] }
    {
        Arena {
            slots: Slab::new(alloc),
            notes: Vec::new(alloc),
            in_trial: false,
            freed: 0,
        }
    }

    /// A copy, with each node under its number. Each node of the copy is one step, also where there
    /// is no memory for it.
    pub fn copy<L: Ledger>(&self, steps: &mut Steps<L>) -> Result<Arena, Memory>
        ensures copy { IfOk result (λ copy. copy ≡ settled self.now.slots) }
        ensures step_a_node { steps.new ≡ steps.old + live_count self.now.slots }
    {
        // before the answer, so that a call without memory counts too
        for _ in 0..self.slots.len() - self.freed {
            steps.tick();
        }
        let mut slots = self.slots.clone()?;
        let mut notes = self.notes.clone()?;
        settle(&mut slots, notes.as_slice(), false);
        notes.clear();
        Ok(Arena {
            slots,
            notes,
            in_trial: false,
            freed: 0,
        })
    }

    /// Lends a node.
    pub fn node(&self, n: NodeId) -> &ArenaNode
        requires { IsLive self.now.slots n }
        ensures { node_under self.now.slots n ≡ Some result.now }
    {
        match &self.slots[n.0].node {
            Some(node) => node,
            None => unreachable!(),
        }
    }

    /// A new node without links and of length 0, under a number that had no node. It is one step,
    /// also where there is no memory for it; then the arena is as before.
    pub fn make<L: Ledger>(
        &mut self,
        what: NodeWhat,
        steps: &mut Steps<L>,
    ) -> Result<NodeId, Memory>
        ensures free { IfOk result (λ n. node_under self.old.slots n ≡ None) }
        ensures made { IfOk result (λ n.
            Puts self.old.slots self.new.slots n (Some (new_node what))) }
        ensures err { OnErr result (self.new ≡ self.old) }
        ensures first { self.new.first ≡ self.old.first }
        ensures step { steps.new ≡ steps.old + 1 }
    {
        steps.tick(); // before the answer, so that a call without memory counts too
        reserve_notes(&mut self.notes, self.in_trial, self.slots.len())?;
        let node = ArenaNode {
            what,
            parent: None,
            first: None,
            last: None,
            before: None,
            after: None,
            len: 0,
        };
        let note = note_for(self.notes.as_slice(), self.in_trial);
        let number = self.slots.insert(Slot {
            node: Some(node),
            note,
        })?;
        push_note(&mut self.notes, self.in_trial, number);
        Ok(NodeId(number))
    }

    /// Drops a node. Links to it stay as they are.
    pub fn free<L: Ledger>(&mut self, n: NodeId, steps: &mut Steps<L>)
        requires { IsLive self.old.slots n }
        ensures gone { Puts self.old.slots self.new.slots n None }
        ensures first { self.new.first ≡ self.old.first }
        ensures step { steps.new ≡ steps.old + 1 }
    {
        steps.tick();
        make_ready(&mut self.slots, &mut self.notes, self.in_trial, n.0);
        if self.in_trial {
            vacate(&mut self.slots, n.0);
            self.freed += 1;
            return;
        }
        self.slots.remove(n.0);
    }

    /// Writes a field of a node.
    fn write(&mut self, n: NodeId, field: Field)
        requires { IsLive self.old.slots n }
        ensures write { Changes self.old.slots self.new.slots n (with_field field) }
        ensures first { self.new.first ≡ self.old.first }
    {
        make_ready(&mut self.slots, &mut self.notes, self.in_trial, n.0);
        set_field(&mut self.slots, n.0, field);
    }

    /// Ends a trial: with the nodes as they were, or as they are.
    fn settle(&mut self, back: bool)
        ensures { self.new ≡ settled (if back then first_slots self.old else self.old.slots) }
    {
        settle(&mut self.slots, self.notes.as_slice(), back);
        self.notes.clear();
        self.in_trial = false;
        self.freed = 0;
    }

    /// Writes a node's parent, and nothing else.
    pub fn set_parent<L: Ledger>(&mut self, n: NodeId, to: Option<NodeId>, steps: &mut Steps<L>)
        requires { IsLive self.old.slots n }
        ensures write { Changes self.old.slots self.new.slots n (with_parent to) }
        ensures first { self.new.first ≡ self.old.first }
        ensures step { steps.new ≡ steps.old + 1 }
    {
        steps.tick();
        self.write(n, Field::Parent(to));
    }

    /// Writes a node's first child.
    pub fn set_first<L: Ledger>(&mut self, n: NodeId, to: Option<NodeId>, steps: &mut Steps<L>)
        requires { IsLive self.old.slots n }
        ensures write { Changes self.old.slots self.new.slots n (with_first to) }
        ensures first { self.new.first ≡ self.old.first }
        ensures step { steps.new ≡ steps.old + 1 }
    {
        steps.tick();
        self.write(n, Field::First(to));
    }

    /// Writes a node's last child.
    pub fn set_last<L: Ledger>(&mut self, n: NodeId, to: Option<NodeId>, steps: &mut Steps<L>)
        requires { IsLive self.old.slots n }
        ensures write { Changes self.old.slots self.new.slots n (with_last to) }
        ensures first { self.new.first ≡ self.old.first }
        ensures step { steps.new ≡ steps.old + 1 }
    {
        steps.tick();
        self.write(n, Field::Last(to));
    }

    /// Writes the sibling before a node.
    pub fn set_before<L: Ledger>(&mut self, n: NodeId, to: Option<NodeId>, steps: &mut Steps<L>)
        requires { IsLive self.old.slots n }
        ensures write { Changes self.old.slots self.new.slots n (with_before to) }
        ensures first { self.new.first ≡ self.old.first }
        ensures step { steps.new ≡ steps.old + 1 }
    {
        steps.tick();
        self.write(n, Field::Before(to));
    }

    /// Writes the sibling after a node.
    pub fn set_after<L: Ledger>(&mut self, n: NodeId, to: Option<NodeId>, steps: &mut Steps<L>)
        requires { IsLive self.old.slots n }
        ensures write { Changes self.old.slots self.new.slots n (with_after to) }
        ensures first { self.new.first ≡ self.old.first }
        ensures step { steps.new ≡ steps.old + 1 }
    {
        steps.tick();
        self.write(n, Field::After(to));
    }

    /// Writes how many items a node takes.
    pub fn set_len<L: Ledger>(&mut self, n: NodeId, len: usize, steps: &mut Steps<L>)
        requires { IsLive self.old.slots n }
        ensures write { Changes self.old.slots self.new.slots n (with_len len) }
        ensures first { self.new.first ≡ self.old.first }
        ensures step { steps.new ≡ steps.old + 1 }
    {
        steps.tick();
        self.write(n, Field::Len(len));
    }

    /// Begins a trial: from now on the arena can go back to the nodes that it has. It takes memory
    /// for what is to be noted, and no step; without memory nothing has changed.
    pub fn begin(&mut self) -> Result<(), Memory>
        requires none { self.old.first ≡ None }
        ensures slots { self.new.slots ≡ self.old.slots }
        ensures first { OnOk result (self.new.first ≡ Some self.old.slots) }
        ensures err { OnErr result (self.new.first ≡ None) }
    {
        self.notes.reserve(self.slots.len())?;
        self.in_trial = true;
        Ok(())
    }

    /// Ends a trial with the nodes as they are. Without one nothing changes.
    pub fn keep(&mut self)
        ensures { self.new ≡ settled self.old.slots }
    {
        self.settle(false);
    }

    /// Ends a trial with the nodes as they were, each under its number. Without one nothing
    /// changes. It takes no memory. Each node that it puts back was written, made or freed in the
    /// trial, so it counts no step.
    pub fn take_back(&mut self)
        ensures { self.new ≡ settled (first_slots self.old) }
    {
        self.settle(true);
    }
}
