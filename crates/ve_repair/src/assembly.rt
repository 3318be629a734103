// The repair of a tree's nodes after a change of its list.
ghost use Rattle.std.specs.Prelude.{◌≡◌, ◌≤◌, ◌+◌, [], IfOk, OnOk, OnErr, length, map};
ghost use Rattle.ve_tree.specs.IsTree.{IsTree, unvalued};
ghost use Rattle.ve_tx.specs.Operation.{bare};
ghost use Rattle.ve_repair.specs.Change.{CanApply, LawfulAfter};
ghost use Rattle.ve_repair.specs.Kept.{KeepsNumbers};
ghost use Rattle.ve_repair.specs.Range.{IsChangedRange};
ghost use Rattle.ve_repair.specs.Repaired.{IsTreeAfter, SameNodes, IsWithinTouch};
ghost use Rattle.ve_repair.specs.Start.{StartsRange};
ghost use Rattle.ve_repair.specs.Frees.{nodes_of};
ghost use Rattle.ve_repair.specs.Reader.{Slots, HasMade, MakesOn, IsPaid, IsPaidOrOne};
ghost use Rattle.ve_repair.specs.Courses.{ReadsOut};
ghost use Rattle.ve_repair.specs.Partly.{StopsAmong};
ghost use Rattle.ve_repair.specs.Assembly.{MayRead, CanPlan, AreAllWrites, SomeMade};

use crate::close::close_all;
use crate::cursor::Cursor;
use crate::free::free_nodes;
use crate::plan::Plan;
use crate::range::ChangedRange;
use crate::read::ChangeReader;
use crate::script::How;
use crate::sizes::Sizes;
use crate::start::Start;
use crate::write::{Write, carry_out};
use std::alloc::Global;
use std::sync::ledger::Ledger;
use ve_arena::{Arena, NodeId};
use ve_base::{Memory, Steps};
use ve_items::Linear;
use ve_tx::{Op, Transaction};

/// The start of the changed range, and what is open there, with nothing planned yet.
#[derive(Drop)]
pub(crate) struct Begun {
    pub start: Start,
    pub plan: Plan,
    pub sizes: Sizes,
}

/// The script of operations, with so many items in front of them that stand in one text with
/// theirs.
fn read_all<L: Ledger>(
    reader: &mut ChangeReader,
    arena: &mut Arena,
    front: usize,
    ops: &[Op],
    steps: &mut Steps<L>,
) -> Result<(), Memory>
    requires reads { MayRead arena.old.slots reader.old front ops.now }
    ensures read { OnOk result (
        ReadsOut arena.old.slots reader.old front ops.now arena.new.slots reader.new) }
    ensures made { MakesOn arena.old.slots reader.old.script arena.new.slots reader.new.script }
    ensures first { arena.new.first ≡ arena.old.first }
    ensures paid { OnOk result (IsPaid steps.old reader.old.script steps.new reader.new.script) }
    ensures at_most { OnErr result (
        IsPaidOrOne steps.old reader.old.script steps.new reader.new.script) }
    ensures part { OnErr result (
        StopsAmong arena.old.slots reader.old front ops.now reader.new.script) }
{
    reader.retain(arena, front, steps)?;
    reader.read(arena, ops, steps)
}

/// The writes that a script asks for: links, and then lengths. It reads the old tree, and writes
/// nothing.
fn planned(
    arena: &Arena,
    root: NodeId,
    reader: &ChangeReader,
    plan: Plan,
    sizes: Sizes,
) -> Result<Vec<Write>, Memory>
    requires can { CanPlan arena.now.slots root reader.now plan.stacks sizes }
    requires nothing { plan.writes ≡ [] }
    ensures { IfOk result (λ ws.
        AreAllWrites arena.now.slots root reader.now plan.stacks sizes ws.items) }
{
    let mut plan = plan;
    let mut sizes = sizes;
    plan.run(reader.script())?;
    close_all(&mut plan, arena, reader.cursor().next, arena.node(root).len)?;
    let mut writes = plan.into_writes();
    sizes.run(arena, reader.script(), &mut writes)?;
    sizes.close(arena, &mut writes)?;
    Ok(writes)
}

/// Want of memory: the nodes that were made for a script are freed.
fn undone<L: Ledger>(
    arena: &mut Arena,
    reader: &ChangeReader,
    steps: &mut Steps<L>,
) -> Result<(), Memory>
    requires made { SomeMade arena.old.slots reader.now.script }
    ensures same { (before : Slots)
        → HasMade before arena.old.slots (nodes_of How.Put reader.now.script)
        → SameNodes before arena.new.slots }
    ensures first { arena.new.first ≡ arena.old.first }
    ensures err { OnOk result ⊥ }
    ensures steps { steps.new ≡ steps.old + length (nodes_of How.Put reader.now.script) }
{
    free_nodes(arena, How::Put, reader.script(), steps);
    Err(Memory)
}

/// Makes the nodes of a list's tree those of the list that a transaction gives, which is lawful;
/// the transaction has a replace. `list` is the old list, which no code reads. At `Memory` each
/// node is as before.
pub(crate) fn relink_nodes<L: Ledger>(
    alloc: Global,
    arena: &mut Arena,
    root: NodeId,
    list: &Linear,
    tx: &Transaction,
    range: ChangedRange,
    begun: Begun,
    steps: &mut Steps<L>,
) -> Result<(), Memory>
    requires tree { IsTree arena.old.slots root (unvalued list.now.items) }
    requires applies { CanApply tx.now list.now.items }
    requires lawful { LawfulAfter tx.now list.now.items }
    requires range { IsChangedRange (map bare tx.now) range }
    requires start { StartsRange arena.old.slots root range.from begun.start begun.plan.stacks
        begun.sizes }
    requires nothing { begun.plan.writes ≡ [] }
    ensures links { OnOk result (IsTreeAfter arena.new.slots root tx.now list.now.items) }
    ensures numbers { OnOk result (
        KeepsNumbers arena.old.slots arena.new.slots root tx.now list.now.items) }
    ensures kept { OnErr result (SameNodes arena.old.slots arena.new.slots) }
    ensures first { arena.new.first ≡ arena.old.first }
    ensures counted { steps.old ≤ steps.new }
    ensures steps { IsWithinTouch steps.old steps.new tx.now list.now.items }
{
    let ops = tx.ops();
    let start = begun.start;
    let mut reader = ChangeReader::new(
        alloc,
        Cursor {
            parent: start.parent,
            next: start.next,
            inside: 0,
        },
    );
    let read = read_all(
        &mut reader,
        arena,
        range.from - start.place,
        &ops[range.first..range.last],
        steps,
    );
    if read.is_err() {
        return undone(arena, &reader, steps);
    }
    let Ok(writes) = planned(arena, root, &reader, begun.plan, begun.sizes) else {
        return undone(arena, &reader, steps);
    };
    carry_out(arena, writes.as_slice(), steps);
    free_nodes(arena, How::Cut, reader.script(), steps);
    Ok(())
}
