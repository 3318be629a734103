// A change of a page: the tree follows as the last step that may fail, and then the list, which
// takes no more memory.
ghost use Rattle.std.specs.Prelude.{◌≡◌, ◌≤◌, ◌+◌, OnOk, OnErr};
ghost use Rattle.ve_repair.specs.Change.{CanApply, LawfulAfter};
ghost use Rattle.ve_repair.specs.Kept.{KeepsNumbers};
ghost use Rattle.ve_repair.specs.Repaired.{IsTreeOfAfter, IsWithinTouch, SameNodes};
ghost use Rattle.ve_tree.specs.IsTree.{unvalued};
ghost use Rattle.ve_tree.specs.TreeOf.{IsTreeOf};
ghost use Rattle.ve_tx.specs.Spliced.{come_count, spliced_by};
ghost use Rattle.ve_editor.specs.Prepared.{FitsInto};

use std::alloc::Global;
use std::sync::ledger::Ledger;
use ve_base::{Memory, Steps};
use ve_items::Linear;
use ve_repair::relink;
use ve_tree::Tree;
use ve_tx::{Change, Transaction};

/// Makes the tree of a list that of the list which a transaction gives. The list itself has still
/// to become that: so this is the last step that may fail. Nodes that stay keep their numbers. At
/// want of memory it is the tree of the list still.
pub fn prepare<L: Ledger>(
    alloc: Global,
    list: &Linear,
    tree: &mut Tree,
    tx: &Transaction,
    steps: &mut Steps<L>,
) -> Result<(), Memory>
    requires tree { IsTreeOf tree.old (unvalued list.now.items) }
    requires applies { CanApply tx.now list.now.items }
    requires lawful { LawfulAfter tx.now list.now.items }
    ensures tree { OnOk result (IsTreeOfAfter tree.new tx.now list.now.items) }
    ensures numbers { OnOk result (
        KeepsNumbers tree.old.arena.slots tree.new.arena.slots tree.old.root tx.now
        list.now.items) }
    ensures root { tree.new.root ≡ tree.old.root }
    ensures kept { OnErr result (IsTreeOf tree.new (unvalued list.now.items)) }
    ensures same { OnErr result (SameNodes tree.old.arena.slots tree.new.arena.slots) }
    ensures first { tree.new.arena.first ≡ tree.old.arena.first }
    ensures counted { steps.old ≤ steps.new }
    ensures steps { IsWithinTouch steps.old steps.new tx.now list.now.items }
{
    relink(alloc, tree, list, tx, steps)
}

/// Makes the change of the list. It takes no memory, and uses up no more of the list's room than
/// what comes.
pub fn commit(list: &mut Linear, change: Change)
    requires { FitsInto list.old change }
    ensures items { list.new.items ≡ spliced_by list.old.items change.splices.items }
    ensures spare { list.old.spare ≤ list.new.spare + come_count change.splices.items }
{
    change.splice_into(list);
}
