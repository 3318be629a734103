// The values that a page's items cite.
ghost use Rattle.std.specs.Prelude.{◌≡◌, ◌↔◌, ◌<◌, ◌≤◌, [], Contains, length, take, slice_get, Ok, Err, Some, IsSome, IfSome, IfOk, OnOk, OnErr};
ghost use Rattle.std.specs.List.{position_or_len};
ghost use Rattle.ve_base.specs.Limits.{max_values};
ghost use Rattle.model_change.specs.Store.{admitted};
ghost use Rattle.model_items.specs.Plain.{AreDistinct};
ghost use Rattle.model_items.specs.Same.{value_same};

use crate::StoreFault;
use crate::hashed::Hashed;
use indexmap::IndexSet;
use std::alloc::Global;
use std::marker::Model;
use ve_base::{Hashing, MAX_VALUES, Memory, TryCopy, Value, ValueId};

/// A list of distinct values, which items cite by their positions. A value is found by its hash.
pub struct Store {
    values: IndexSet<Hashed, Hashing>,
}

impl Drop for Store {
    fn drop(self) {
        let Store { values } = self;
        drop(values);
    }
}

impl Model for Store {
    ghost use Rattle.std.specs.Prelude.{List};
    ghost use Rattle.ve_base.specs.declared.value.Value.{Value as Cited};

    ghost Value = { List Cited };

    ghost view = { λ s. s.values.keys };
}

impl Store {
    /// The empty store. It takes no memory.
    pub fn new(alloc: Global) -> Store
        ensures { result ≡ [] }
    {
        Store {
            values: IndexSet::with_hasher(alloc, Hashing::new()),
        }
    }

    /// How many values it holds.
    pub fn len(&self) -> usize
        ensures count { result ≡ length self.now }
        ensures distinct { AreDistinct self.now }
    {
        self.values.len()
    }

    /// The value at a position.
    pub fn get(&self, id: ValueId) -> &Value
        requires { id.0 < length self.now }
        ensures { slice_get self.now id.0 ≡ Some result.now }
    {
        match self.values.get_index(id.0) {
            Some(stored) => &stored.value,
            None => unreachable!(),
        }
    }

    /// The position of a value, where it is there.
    pub(crate) fn find(&self, value: &Hashed) -> Option<usize>
        ensures place { IfSome result (λ place.
            place ≡ position_or_len (value_same value.now) self.now) }
        ensures stored { IfSome result (λ place. slice_get self.now place ≡ Some value.now) }
        ensures some { IsSome result ↔ Contains self.now value.now }
    {
        self.values.get_index_of(value)
    }

    /// The position of a value, which is appended where it isn't there. An `Err` changes nothing.
    pub fn admit(&mut self, value: Value) -> Result<ValueId, Memory>
        ensures place { IfOk result (λ id. id.0 ≡ position_or_len (value_same value) self.old) }
        ensures stored { IfOk result (λ id. slice_get self.new id.0 ≡ Some value) }
        ensures ok { OnOk result (self.new ≡ admitted self.old value) }
        ensures err { OnErr result (self.new ≡ self.old) }
    {
        let (place, _) = self.values.insert_full(Hashed { value })?;
        Ok(ValueId(place))
    }

    /// The same, but a full store takes no new value.
    pub fn intern(&mut self, value: Value) -> Result<ValueId, StoreFault>
        ensures place { IfOk result (λ id. id.0 ≡ position_or_len (value_same value) self.old) }
        ensures stored { IfOk result (λ id. slice_get self.new id.0 ≡ Some value) }
        ensures ok { OnOk result (self.new ≡ admitted self.old value) }
        ensures err { OnErr result (self.new ≡ self.old) }
        ensures full { (result ≡ Err StoreFault.Full)
            ↔ ((max_values ≤ length self.old) × (¬ Contains self.old value)) }
    {
        if self.values.len() < MAX_VALUES {
            return self.admit(value).map_err(|_| StoreFault::Memory);
        }
        match self.find(&Hashed { value }) {
            Some(place) => Ok(ValueId(place)),
            None => Err(StoreFault::Full),
        }
    }

    /// Keeps the first `n` values.
    pub fn truncate(&mut self, n: usize)
        ensures { self.new ≡ take n self.old }
    {
        self.values.truncate(n);
    }
}

impl TryCopy for Store {
    fn copy(&self, alloc: Global) -> Result<Store, Memory> {
        let mut copy = Store::new(alloc);
        let len = self.len();
        for place in 0..len {
            let value = self.get(ValueId(place)).copy(alloc)?;
            copy.admit(value)?;
        }
        Ok(copy)
    }
}
