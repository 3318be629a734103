// The repair of the tree after a change of its list.
ghost use Rattle.std.specs.Prelude.{◌≡◌, ◌≤◌, OnOk, OnErr, IfErr, List};
ghost use Rattle.model_items.specs.declared.plain_item.PlainItem.{PlainItem};
ghost use Rattle.ve_tree.specs.IsTree.{unvalued};
ghost use Rattle.ve_tree.specs.TreeOf.{IsTreeOf};
ghost use Rattle.ve_repair.specs.Change.{CanApply, LawfulAfter};
ghost use Rattle.ve_repair.specs.Kept.{KeepsNumbers};
ghost use Rattle.ve_repair.specs.Repaired.{IsTreeOfAfter, SameNodes, IsCause, CostsNone, IsWithinTouch, fault_of};

use crate::assembly::{Begun, relink_nodes};
use crate::fault::RepairFault;
use crate::law::check_change;
use crate::plan::Plan;
use crate::range::changed_range;
use crate::sizes::Sizes;
use crate::start::start_at;
use model_items::LawFault;
use std::alloc::Global;
use std::sync::ledger::Ledger;
use ve_base::{Memory, Steps};
use ve_items::Linear;
use ve_offsets::Doc;
use ve_store::Store;
use ve_tree::Tree;
use ve_tx::Transaction;

/// Makes the tree of a list that of the list which a transaction gives, where that one is lawful;
/// `list` is the old one. Nodes that stay keep their numbers, and the landmarks follow. It takes at
/// most eight steps for each node that the transaction touches, and sixteen more, at an `Err` too.
/// The only refusal is `Memory`: after it the tree is as before, node by node.
pub fn relink<L: Ledger>(
    alloc: Global,
    tree: &mut Tree,
    list: &Linear,
    tx: &Transaction,
    steps: &mut Steps<L>,
) -> Result<(), Memory>
    requires tree { IsTreeOf tree.old (unvalued list.now.items) }
    requires applies { CanApply tx.now list.now.items }
    requires lawful { LawfulAfter tx.now list.now.items }
    ensures tree { OnOk result (IsTreeOfAfter tree.new tx.now list.now.items) }
    ensures numbers { OnOk result (
        KeepsNumbers tree.old.arena.slots tree.new.arena.slots tree.old.root tx.now
        list.now.items) }
    ensures root { tree.new.root ≡ tree.old.root }
    ensures kept { OnErr result (
        (others : List PlainItem) → IsTreeOf tree.old others → IsTreeOf tree.new others) }
    ensures same { OnErr result (SameNodes tree.old.arena.slots tree.new.arena.slots) }
    ensures first { tree.new.arena.first ≡ tree.old.arena.first }
    ensures counted { steps.old ≤ steps.new }
    ensures steps { IsWithinTouch steps.old steps.new tx.now list.now.items }
{
    // attributes are no part of a tree
    let Some(range) = changed_range(tx.ops()) else {
        return Ok(());
    };
    let mut plan = Plan::new(alloc);
    let mut sizes = Sizes::new(alloc);
    let start = start_at(tree, range.from, &mut plan, &mut sizes)?;
    let begun = Begun { start, plan, sizes };
    relink_nodes(
        alloc,
        &mut tree.arena,
        tree.root,
        list,
        tx,
        range,
        begun,
        steps,
    )?;
    tree.follow(range.from, range.to + 1, range.len + 1);
    Ok(())
}

fn fault_of(fault: LawFault) -> RepairFault
    ensures { result ≡ fault_of fault }
{
    match fault {
        LawFault::Unlawful { at } => RepairFault::Unlawful { at },
        LawFault::TooDeep { at } => RepairFault::TooDeep { at },
    }
}

/// Makes the tree of a list that of the list which a transaction gives; `list` is the old one.
/// Where the new list is not lawful it is refused as `Unlawful` or `TooDeep`, with its first
/// offence and the position of that in the new list, in items. Then nothing is written, and no step
/// is taken. At want of memory it is refused as `Memory`, and the new list is lawful. After each
/// refusal the tree is as before, node by node. It takes at most eight steps for each node that the
/// transaction touches, and sixteen more.
pub fn repair<L: Ledger>(
    alloc: Global,
    tree: &mut Tree,
    list: &Linear,
    tx: &Transaction,
    steps: &mut Steps<L>,
) -> Result<(), RepairFault>
    requires tree { IsTreeOf tree.old (unvalued list.now.items) }
    requires applies { CanApply tx.now list.now.items }
    ensures tree { OnOk result (IsTreeOfAfter tree.new tx.now list.now.items) }
    ensures cause { IfErr result (IsCause tx.now list.now.items) }
    ensures numbers { OnOk result (
        KeepsNumbers tree.old.arena.slots tree.new.arena.slots tree.old.root tx.now
        list.now.items) }
    ensures root { tree.new.root ≡ tree.old.root }
    ensures kept { OnErr result (
        (others : List PlainItem) → IsTreeOf tree.old others → IsTreeOf tree.new others) }
    ensures same { OnErr result (SameNodes tree.old.arena.slots tree.new.arena.slots) }
    ensures first { tree.new.arena.first ≡ tree.old.arena.first }
    ensures none { IfErr result (CostsNone steps.old steps.new) }
    ensures counted { steps.old ≤ steps.new }
    ensures steps { IsWithinTouch steps.old steps.new tx.now list.now.items }
{
    let store = Store::new(alloc);
    let doc = Doc {
        list,
        tree: &*tree,
        store: &store,
    };
    if let Err(fault) = check_change(doc, tx) {
        return Err(fault_of(fault));
    }
    match relink(alloc, tree, list, tx, steps) {
        Ok(()) => Ok(()),
        Err(Memory) => Err(RepairFault::Memory),
    }
}
