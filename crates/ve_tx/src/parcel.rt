// Parcels: entries serialised with their values, to go from one store to another.
ghost use Rattle.std.specs.Prelude.{◌≡◌, [], All, map, IfOk};
ghost use Rattle.model_change.specs.Store.{fill};
ghost use Rattle.model_items.specs.Plain.{AreDistinct};
ghost use Rattle.ve_tx.specs.Cites.{TxCites};
ghost use Rattle.ve_tx.specs.Operation.{by_value};
ghost use Rattle.ve_tx.specs.Parcel.{all_cited};

use crate::copies::Copies;
use crate::{Entry, TxList};
use std::alloc::Global;
use ve_base::{ListOf, Memory, TryCopy, Value};
use ve_store::Store;

/// The values that a parcel brings.
pub type ValueList = ListOf<Value>;

/// An entry with the values that its items cite. They cite this list, and no store.
#[derive(Drop)]
pub struct Parcel {
    pub entry: Entry,
    pub values: ValueList,
}

/// A list of parcels.
pub type ParcelList = ListOf<Parcel>;

impl Parcel {
    /// The parcel of an entry: the same transactions by value, with their kept positions, and all
    /// else that the entry says. Its values are those that the transactions cite in the store, each once, in the
    /// order in which they are first cited. In one operation the items removed come before those
    /// inserted; in one item come head, marks and whitespace.
    pub fn of(alloc: Global, entry: &Entry, store: &Store) -> Result<Parcel, Memory>
        requires { All (TxCites store.now) entry.now.txs }
        ensures txs { IfOk result (λ parcel.
            map (by_value parcel.values) parcel.entry.txs
            ≡ map (by_value store.now) entry.now.txs) }
        ensures store_before { IfOk result (λ parcel.
            parcel.entry.store_before ≡ entry.now.store_before) }
        ensures store_after { IfOk result (λ parcel.
            parcel.entry.store_after ≡ entry.now.store_after) }
        ensures takes_back { IfOk result (λ parcel.
            parcel.entry.takes_back ≡ entry.now.takes_back) }
        ensures values { IfOk result (λ parcel.
            parcel.values ≡ fill [] (all_cited (map (by_value store.now) entry.now.txs))) }
        ensures distinct { IfOk result (λ parcel. AreDistinct parcel.values) }
        ensures cites { IfOk result (λ parcel. All (TxCites parcel.values) parcel.entry.txs) }
    {
        let mut copies = Copies::new(alloc);
        let mut txs = TxList::new(alloc);
        for tx in entry.txs.as_slice() {
            let tx = tx.recited(alloc, store, &mut copies)?;
            txs.push(tx)?;
        }
        Ok(Parcel {
            entry: Entry {
                txs,
                store_before: entry.store_before,
                store_after: entry.store_after,
                takes_back: entry.takes_back,
            },
            values: copies.values,
        })
    }
}

impl TryCopy for Parcel {
    fn copy(&self, alloc: Global) -> Result<Parcel, Memory> {
        Ok(Parcel {
            entry: self.entry.copy(alloc)?,
            values: self.values.copy(alloc)?,
        })
    }
}
