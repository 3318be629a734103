// Building the tree of a list, from the list's end to its start. So each node is made at its end
// and becomes the first child of its parent.
ghost use Rattle.std.specs.Prelude.{◌≡◌, ◌≢◌, ◌+◌, ◌-◌, ◌≤◌, ◌<◌, None, IfOk, OnOk, OnErr, IfSome, length};
ghost use Rattle.model_items.specs.Law.{Lawful};
ghost use Rattle.model_items.specs.Tree as forest;
ghost use Rattle.ve_arena.specs.Arena.{slot_at, IsLive};
ghost use Rattle.ve_tree.specs.IsTree.{unvalued};
ghost use Rattle.ve_tree.specs.Grown.{IsChildless, MadeFirst, first_in, reading_from, TookSteps, ReadChildren, IsRunFrom};

use crate::unread::Unread;
use std::sync::ledger::Ledger;
use ve_arena::{Arena, NodeId, NodeWhat};
use ve_base::{Memory, Steps};
use ve_items::Item;

/// Makes a node, the first child of its parent, in at most five steps.
pub(crate) fn make_first<L: Ledger>(
    arena: &mut Arena,
    what: NodeWhat,
    parent: NodeId,
    steps: &mut Steps<L>,
) -> Result<NodeId, Memory>
    requires live { IsLive arena.old.slots parent }
    requires next_live { IfSome (first_in (slot_at arena.old.slots parent.0)) (λ next.
        IsLive arena.old.slots next) }
    requires next_apart { IfSome (first_in (slot_at arena.old.slots parent.0)) (λ next.
        next.0 ≢ parent.0) }
    ensures vacant { IfOk result (λ n. slot_at arena.old.slots n.0 ≡ None) }
    ensures made { IfOk result (λ n.
        MadeFirst (first_in (slot_at arena.old.slots parent.0)) arena.old.slots arena.new.slots
        n.0 parent.0 what) }
    ensures err { OnErr result (arena.new ≡ arena.old) }
    ensures first { arena.new.first ≡ arena.old.first }
    ensures counted { steps.old ≤ steps.new }
    ensures steps { steps.new ≤ steps.old + 5 }
    ensures paid { OnOk result (steps.old + 5 ≤ steps.new) }
{
    let first = arena.node(parent).first;
    let n = arena.make(what, steps)?;
    arena.set_parent(n, Some(parent), steps);
    arena.set_after(n, first, steps);
    match first {
        Some(next) => arena.set_before(next, Some(n), steps),
        None => arena.set_last(parent, Some(n), steps),
    }
    arena.set_first(parent, Some(n), steps);
    Ok(n)
}

/// Passes the run of characters that comes next, and says how many they are.
fn pass_run(rest: &mut Unread<'_>) -> usize
    ensures items { rest.new.items ≡ rest.old.items }
    ensures run { IsRunFrom rest.old.items rest.new.left rest.old.left }
    ensures count { result ≡ rest.old.left - rest.new.left }
{
    let end = rest.left();
    'run: while rest.left() > 0 {
        let Item::Char { .. } = rest.last() else {
            break;
        };
        rest.pass();
    }
    end - rest.left()
}

/// Reads the siblings that come next, and makes them the children of their parent, which has none
/// yet. What is left ends with the parent's opening, or is nothing.
pub fn read_children<L: Ledger>(
    arena: &mut Arena,
    rest: &mut Unread<'_>,
    parent: NodeId,
    steps: &mut Steps<L>,
) -> Result<(), Memory>
    requires childless { IsChildless arena.old.slots parent.0 }
    requires within { rest.old.left ≤ length rest.old.items }
    requires lawful { Lawful (unvalued rest.old.items) }
    requires begun { (reading_from rest.old.items rest.old.left).here ≡ forest.Empty }
    ensures items { OnOk result (rest.new.items ≡ rest.old.items) }
    ensures read { OnOk result (
        ReadChildren arena.old.slots arena.new.slots parent.0 rest.old.items rest.new.left
        rest.old.left) }
    ensures first { arena.new.first ≡ arena.old.first }
    ensures steps_ok { OnOk result (
        TookSteps rest.old.items rest.new.left rest.old.left steps.old steps.new) }
    ensures counted { steps.old ≤ steps.new }
    ensures steps { TookSteps rest.old.items 0 rest.old.left steps.old steps.new }
{
    'sibling: while rest.left() > 0 {
        let end = rest.left();
        match rest.last() {
            Item::Opening { .. } => break,
            Item::Char { .. } => {
                let run = make_first(arena, NodeWhat::Run, parent, steps)?;
                let count = pass_run(rest);
                arena.set_len(run, count, steps);
            }
            Item::Closing { kind, .. } => {
                let node = make_first(arena, NodeWhat::Node(kind), parent, steps)?;
                rest.pass();
                read_children(arena, rest, node, steps)?;
                rest.pass(); // the opening
                arena.set_len(node, end - rest.left(), steps);
            }
        }
    }
    Ok(())
}
