// The writes of a repair, in order, once it is planned.
ghost use Rattle.std.specs.Prelude.{◌≡◌, ◌+◌, All};
ghost use Rattle.ve_repair.specs.Labels.{AllLead};
ghost use Rattle.ve_repair.specs.Writes.{NamesLive, Wrote, CarriedOut, cost, weight};

use crate::linking::{link, unlink};
use std::sync::ledger::Ledger;
use ve_arena::{Arena, NodeId};
use ve_base::Steps;

/// A write of a repair: one step, or the few that go together.
#[derive(Clone, Copy)]
pub enum Write {
    /// A node is taken from its parent's children.
    Unlink {
        n: NodeId,
        from: NodeId,
    },
    /// A node that is nobody's child becomes one, right of `left`.
    Link {
        n: NodeId,
        to: NodeId,
        left: Option<NodeId>,
    },
    /// A node takes so many items.
    Resize {
        n: NodeId,
        len: usize,
    },
}

/// Makes one of the writes.
fn make_write<L: Ledger>(arena: &mut Arena, write: Write, steps: &mut Steps<L>)
    requires live { NamesLive arena.old.slots write }
    requires leads { AllLead arena.old.slots }
    ensures wrote { Wrote arena.old.slots arena.new.slots write }
    ensures leads { AllLead arena.new.slots }
    ensures first { arena.new.first ≡ arena.old.first }
    ensures steps { steps.new ≡ steps.old + cost write }
{
    match write {
        Write::Unlink { n, from } => unlink(arena, n, from, steps),
        Write::Link { n, to, left } => link(arena, n, to, left, steps),
        Write::Resize { n, len } => arena.set_len(n, len, steps),
    }
}

/// Makes the writes in their order.
pub(crate) fn carry_out<L: Ledger>(arena: &mut Arena, writes: &[Write], steps: &mut Steps<L>)
    requires live { All (NamesLive arena.old.slots) writes.now }
    requires leads { AllLead arena.old.slots }
    ensures carried { CarriedOut arena.old.slots arena.new.slots writes.now }
    ensures leads { AllLead arena.new.slots }
    ensures first { arena.new.first ≡ arena.old.first }
    ensures steps { steps.new ≡ steps.old + weight writes.now }
{
    for write in writes {
        make_write(arena, *write, steps);
    }
}
