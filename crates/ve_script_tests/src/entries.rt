// An entry that is joined with a committed one.
ghost use Rattle.std.specs.Prelude.{◌≡◌, ◌+◌, [], ◌∷◌, IfOk};
ghost use Rattle.model_change.specs.Transaction.{old_length};
ghost use Rattle.ve_tx.specs.ByValue.{parcel_by_value};
ghost use Rattle.ve_tx.specs.Operation.{by_value};

use std::alloc::Global;
use std::test::Fail;
use ve_base::Memory;
use ve_items::Items;
use ve_rebase::{RebaseFault, entry_over_list};
use ve_samples::letter;
use ve_tx::{Entry, Op, OpList, Parcel, ParcelList, Transaction, TxList, ValueList};

/// One character put between so many items.
fn insertion(alloc: Global, at: usize, after: usize) -> Result<Transaction, Memory>
    ensures { IfOk result (λ tx. (values : _) → old_length (by_value values tx) ≡ at + after) }
{
    let mut inserted = Items::new(alloc);
    inserted.push(letter('x'))?;
    let mut ops = OpList::new(alloc);
    ops.push(Op::Retain(at))?;
    ops.push(Op::Replace {
        removed: Items::new(alloc),
        inserted,
    })?;
    ops.push(Op::Retain(after))?;
    match Transaction::from_ops(ops) {
        Ok(tx) => Ok(tx),
        Err(_) => Err(Memory),
    }
}

/// An entry of one transaction, which cites nothing.
fn entry(alloc: Global, tx: Transaction) -> Result<Parcel, Memory>
    ensures { IfOk result (λ parcel. parcel_by_value parcel ≡ by_value [] tx ∷ []) }
{
    let mut txs = TxList::new(alloc);
    txs.push(tx)?;
    Ok(Parcel {
        entry: Entry {
            txs,
            store_before: 0,
            store_after: 0,
            takes_back: None,
        },
        values: ValueList::new(alloc),
    })
}

/// A character near the end, joined with a committed one near the start.
fn joined_entry(alloc: Global) -> Result<(ParcelList, Parcel), RebaseFault> {
    let mut committed = ParcelList::new(alloc);
    committed.push(entry(alloc, insertion(alloc, 2, 3)?)?)?;
    let mine = entry(alloc, insertion(alloc, 4, 1)?)?;
    entry_over_list(alloc, &committed, &mine)
}

/// Where the first change of an entry lies, if it has one.
fn first_place(parcel: &Parcel) -> Option<usize> {
    let tx = parcel.entry.txs.as_slice().first()?;
    let (start, _) = tx.active_range()?;
    Some(start)
}

/// How many entries there are, and where the first change of the first one lies.
fn first_of(parcels: &ParcelList) -> (usize, Option<usize>) {
    let parcels = parcels.as_slice();
    match parcels.first() {
        Some(parcel) => (parcels.len(), first_place(parcel)),
        None => (0, None),
    }
}

#[test]
fn an_entry_comes_after_those_that_are_committed(rt: HostRuntime) -> Result<(), Fail> {
    let (over, mine) = joined_entry(rt.alloc())?;
    let found = first_of(&over) == (1, Some(2)) && first_place(&mine) == Some(5);
    assert!(rt; found);
    Ok(())
}
