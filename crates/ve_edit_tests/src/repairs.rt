// A tree that is repaired.
ghost use Rattle.std.specs.Prelude.{◌≡◌, All, IfOk};
ghost use Rattle.model_items.specs.Plain.{CitesWell};
ghost use Rattle.ve_edit_tests.specs.Makes.{Makes};
ghost use Rattle.ve_tx.specs.Cites.{TxCites};

use std::alloc::Global;
use std::marker::Brand;
use std::sync::ledger::{Blank, Ledger};
use std::test::Fail;
use ve_base::Steps;
use ve_items::Linear;
use ve_lawful::check;
use ve_repair::repair;
use ve_store::Store;
use ve_tree::Tree;
use ve_tx::Transaction;
use ve_tx_samples::{page, transaction};

/// The list that a transaction makes.
fn made(alloc: Global, list: &Linear, tx: &Transaction, store: &mut Store) -> Result<Linear, Fail>
    requires list { All (CitesWell store.old) list.now.items }
    requires cites { TxCites store.old tx.now }
    ensures { IfOk result (λ new. Makes tx.now list.now.items new.items) }
{
    let mut new = list.copy(alloc)?;
    tx.apply(alloc, &mut new, store)?;
    Ok(new)
}

/// Whether the tree of a list is repaired after a transaction.
fn is_repaired<L: Ledger>(
    alloc: Global,
    list: &Linear,
    new: &Linear,
    tx: &Transaction,
    steps: &mut Steps<L>,
) -> Result<bool, Fail>
    requires { Makes tx.now list.now.items new.now.items }
{
    check(list)?;
    let mut tree = Tree::build(alloc, list, steps)?;
    Ok(repair(alloc, &mut tree, list, tx, steps).is_ok())
}

/// Whether that of a paragraph is, which is split.
fn is_split<L: Ledger>(rt: &HostRuntime, blank: Blank) -> Result<bool, Fail>
    requires name { blank.name ≡ L.name }
    requires parts { blank.parts ≡ L.parts }
    requires one { blank.parts ≡ 1 }
{
    let mut steps = Steps::<L>::start(rt, blank);
    let list = page(rt.alloc(), "<p>ab</p>")?;
    let tx = transaction(rt.alloc(), "2 +</p><p> 4")?;
    let mut store = Store::new(rt.alloc());
    let new = made(rt.alloc(), &list, &tx, &mut store)?;
    is_repaired(rt.alloc(), &list, &new, &tx, &mut steps)
}

#[test]
fn a_tree_is_repaired(rt: HostRuntime) -> Result<(), Fail> {
    assert!(rt; is_split::<Brand>(&rt, Blank::new(1))?);
    Ok(())
}
