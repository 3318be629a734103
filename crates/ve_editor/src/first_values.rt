// The values that a page's store had when a trial began.
ghost use Rattle.std.specs.Prelude.{◌≡◌, take, OnOk, OnErr};
ghost use Rattle.ve_editor.specs.Back.{HasFirst, first_values};

use std::alloc::Global;
use ve_base::{Memory, TryCopy};
use ve_store::Store;

/// The values that a store had first: so many of its own, or a copy, where some of them were cut
/// off.
pub enum FirstValues {
    Prefix(usize),
    Copied(Store),
}

impl Drop for FirstValues {
    fn drop(self) {
        match self {
            FirstValues::Prefix(_) => (),
            FirstValues::Copied(first) => drop(first),
        }
    }
}

impl FirstValues {
    /// Keeps them before the store is cut to so many values. They are copied where some of them
    /// will go, and an `Err` changes nothing.
    pub fn keep(&mut self, alloc: Global, store: &Store, left: usize) -> Result<(), Memory>
        requires { HasFirst store.now self.old }
        ensures first { OnOk result (
            first_values (take left store.now) self.new ≡ first_values store.now self.old) }
        ensures has { OnOk result (HasFirst (take left store.now) self.new) }
        ensures err { OnErr result (self.new ≡ self.old) }
    {
        let FirstValues::Prefix(count) = self else {
            return Ok(());
        };
        let count = *count;
        if count <= left {
            return Ok(());
        }
        let mut first = store.copy(alloc)?;
        first.truncate(count);
        *self = FirstValues::Copied(first);
        Ok(())
    }

    /// The store with the values that it had first.
    pub fn restored(self, mut store: Store) -> Store
        requires { HasFirst store self }
        ensures { result ≡ first_values store self }
    {
        match self {
            FirstValues::Prefix(count) => {
                store.truncate(count);
                store
            }
            FirstValues::Copied(first) => first,
        }
    }
}
