// Entries as they travel, by value.
ghost use Rattle.std.specs.Prelude.{◌≡◌, ◌↔◌, [], IsTrue, length, OnOk, OnErr};

use std::alloc::Global;
use std::marker::Model;
use ve_base::{Memory, TryCopy};
use ve_tx::{Parcel, ParcelList};

/// Parcels, each of which cites its own values. They are seen by value: a list of entries, each a
/// list of transactions, and beside it what each takes back.
#[derive(Drop)]
pub struct Parcels {
    list: ParcelList,
}

impl Model for Parcels {
    ghost use Rattle.std.specs.Prelude.{All};
    ghost use Rattle.ve_tx.specs.ByValue.{ParcelCites};
    ghost use Rattle.ve_server.specs.Travelling.{Travelling, travelling};

    ghost Value = { Travelling };

    ghost view = { λ p. travelling p.list };

    ghost invariant = { λ p. All ParcelCites p.list };
}

impl Parcels {
    ghost use Rattle.std.specs.Prelude.{All};
    ghost use Rattle.ve_tx.specs.ByValue.{ParcelCites};
    ghost use Rattle.ve_server.specs.Travelling.{none_travelling, travel_with, travelling};

    /// No parcels. It takes no memory.
    pub fn new(alloc: Global) -> Parcels
        ensures { result ≡ none_travelling }
    {
        Parcels {
            list: ParcelList::new(alloc),
        }
    }

    /// These parcels. It takes no memory.
    pub fn from_list(list: ParcelList) -> Parcels
        requires { All ParcelCites list }
        ensures { result ≡ travelling list }
    {
        Parcels { list }
    }

    /// Appends other parcels. An `Err` changes nothing.
    pub fn append(&mut self, later: Parcels) -> Result<(), Memory>
        ensures ok { OnOk result (self.new ≡ travel_with self.old later) }
        ensures err { OnErr result (self.new ≡ self.old) }
    {
        self.list.append(later.list)
    }

    /// How many they are.
    pub fn len(&self) -> usize
        ensures { result ≡ length self.now.entries }
    {
        self.list.as_slice().len()
    }

    /// Whether there are none.
    pub fn is_empty(&self) -> bool
        ensures { IsTrue result ↔ (self.now.entries ≡ []) }
    {
        self.list.as_slice().is_empty()
    }

    /// Lends the parcels in order.
    pub fn as_slice(&self) -> &[Parcel]
        ensures values { travelling result.now ≡ self.now }
        ensures cite { All ParcelCites result.now }
    {
        self.list.as_slice()
    }
}

impl TryCopy for Parcels {
    fn copy(&self, alloc: Global) -> Result<Parcels, Memory> {
        Ok(Parcels {
            list: self.list.copy(alloc)?,
        })
    }
}
