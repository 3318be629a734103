// Transactions that are one change.
ghost use Rattle.std.specs.Prelude.{◌≡◌, OnOk, OnErr};
ghost use Rattle.ve_tx.specs.Entry.{entry_with};

use crate::TxList;
use std::alloc::Global;
use ve_base::{ListOf, Memory, TryCopy};

/// Transactions that were made one after the other, and are undone together.
#[derive(Drop)]
pub struct Entry {
    pub txs: TxList,
    /// How many values the store had before them.
    pub store_before: usize,
    /// How many it had after them.
    pub store_after: usize,
    /// The number of the entry that this one takes back, among those that a server committed. A
    /// hint: no contract rests on it.
    pub takes_back: Option<usize>,
}

/// A list of entries.
pub type EntryList = ListOf<Entry>;

impl Entry {
    /// Makes one entry of this and a later one: the later one's transactions follow, and so many
    /// values are in the store after them. An `Err` changes nothing.
    pub fn append(&mut self, later: Entry) -> Result<(), Memory>
        ensures ok { OnOk result (self.new ≡ entry_with self.old later) }
        ensures err { OnErr result (self.new ≡ self.old) }
    {
        self.txs.append(later.txs)?;
        self.store_after = later.store_after;
        Ok(())
    }
}

impl TryCopy for Entry {
    fn copy(&self, alloc: Global) -> Result<Entry, Memory> {
        Ok(Entry {
            txs: self.txs.copy(alloc)?,
            store_before: self.store_before,
            store_after: self.store_after,
            takes_back: self.takes_back,
        })
    }
}
