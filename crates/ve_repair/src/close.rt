// The levels that are open when a script ends.
ghost use Rattle.std.specs.Prelude.{◌≡◌, ◌≤◌, ◌++◌, OnOk, List};
ghost use Rattle.model_items.specs.Tree.{item_count};
ghost use Rattle.ve_tree.specs.Named.{Named, unnumbered};
ghost use Rattle.ve_repair.specs.Closing.{StacksForRow, WritesForRow, outer_stacks, level_writes, close_writes, IsRoomyRow, AreLeft, AreSomeLeft, IsRowFrom};

use crate::plan::Plan;
use crate::script::How;
use ve_arena::{Arena, NodeId};
use ve_base::Memory;

/// The siblings from one on become the last children so far of the innermost new node, one after
/// the other. `most` is no less than the items that they take.
fn keep_rest(
    plan: &mut Plan,
    arena: &Arena,
    first: Option<NodeId>,
    most: usize,
) -> Result<(), Memory>
    requires row { IsRoomyRow arena.now.slots first most }
    ensures stacks { OnOk result (
        StacksForRow arena.now.slots first most plan.old.stacks plan.new.stacks) }
    ensures writes { OnOk result (
        WritesForRow arena.now.slots first most plan.old.stacks plan.old.writes plan.new.writes) }
{
    let mut next = first;
    let mut left = most;
    while let Some(n) = next {
        plan.place(How::Keep, n)?;
        let node = arena.node(n);
        next = node.after;
        left -= node.len;
    }
    Ok(())
}

/// The same at a level, where the open nodes of both lists are two.
fn keep_level(
    plan: &mut Plan,
    arena: &Arena,
    first: Option<NodeId>,
    most: usize,
) -> Result<(), Memory>
    requires row { IsRoomyRow arena.now.slots first most }
    ensures outer { OnOk result (outer_stacks plan.new.stacks ≡ outer_stacks plan.old.stacks) }
    ensures writes { OnOk result (
        (f : Named)
        → IsRowFrom arena.now.slots first f
        → item_count (unnumbered f) ≤ most
        → plan.new.writes ≡ plan.old.writes ++ level_writes f plan.old.stacks) }
{
    if plan.is_same_parent() {
        return Ok(());
    }
    keep_rest(plan, arena, first, most)
}

/// All levels that are open, from the innermost outwards: `first` is what comes next in the
/// innermost one.
pub(crate) fn close_all(
    plan: &mut Plan,
    arena: &Arena,
    first: Option<NodeId>,
    most: usize,
) -> Result<(), Memory>
    requires left { AreSomeLeft arena.now.slots most plan.old.stacks.old first }
    ensures writes { OnOk result (
        (fs : List Named)
        → AreLeft arena.now.slots most plan.old.stacks.old first fs
        → plan.new.writes ≡ plan.old.writes ++ close_writes fs plan.old.stacks) }
{
    let mut next = first;
    while let Some(open) = plan.innermost() {
        keep_level(plan, arena, next, most)?;
        next = arena.node(open).after;
        plan.close(How::Keep);
    }
    Ok(())
}
