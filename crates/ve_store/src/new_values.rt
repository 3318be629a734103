// Values that an edit brings, before its store takes them.
ghost use Rattle.std.specs.Prelude.{◌≡◌, ◌<◌, ◌++◌, [], length, slice_get, Some, IfOk, OnOk, OnErr};
ghost use Rattle.std.specs.List.{position_or_len};
ghost use Rattle.model_change.specs.Store.{admitted};
ghost use Rattle.model_items.specs.Same.{value_same};
ghost use Rattle.ve_store.specs.Following.{Grows, together};

use crate::Store;
use crate::hashed::Hashed;
use std::alloc::Global;
use std::marker::Model;
use ve_base::{Memory, Value, ValueId};

/// A list of values that are to follow a store of a given length: the first one's position is that
/// length.
pub struct NewValues {
    after: usize,
    values: Store,
}

impl Drop for NewValues {
    fn drop(self) {
        let NewValues { after: _, values } = self;
        drop(values);
    }
}

impl Model for NewValues {
    ghost use Rattle.ve_store.specs.Following.{Following};

    ghost Value = { Following };

    ghost view = { λ n. record { after = n.after; values = n.values } };
}

impl NewValues {
    /// No values, to follow this store. It takes no memory.
    pub fn new(alloc: Global, store: &Store) -> NewValues
        ensures { result ≡ record { after = length store.now; values = [] } }
    {
        NewValues {
            after: store.len(),
            values: Store::new(alloc),
        }
    }

    /// How many values there are.
    pub fn len(&self) -> usize
        ensures { result ≡ length self.now.values }
    {
        self.values.len()
    }

    /// The value at a position of the store and these values together.
    pub fn get<'v>(&'v self, store: &'v Store, id: ValueId) -> &'v Value
        requires follows { self.now.after ≡ length store.now }
        requires within { id.0 < length (together store.now self.now) }
        ensures { slice_get (together store.now self.now) id.0 ≡ Some result.now }
    {
        if id.0 < self.after {
            store.get(id)
        } else {
            self.values.get(ValueId(id.0 - self.after))
        }
    }

    /// The position of a value in the store and these values together; it is appended where it is
    /// in neither. An `Err` changes nothing. A position that no `usize` names is a want of memory
    /// like any other.
    pub fn id_of(&mut self, store: &Store, value: Value) -> Result<ValueId, Memory>
        requires { self.old.after ≡ length store.now }
        ensures place { IfOk result (λ id.
            id.0 ≡ position_or_len (value_same value) (together store.now self.old)) }
        ensures stored { IfOk result (λ id.
            slice_get (together store.now self.new) id.0 ≡ Some value) }
        ensures ok { OnOk result (
            together store.now self.new ≡ admitted (together store.now self.old) value) }
        ensures grows { Grows self.old self.new }
        ensures err { OnErr result (self.new ≡ self.old) }
    {
        let hashed = Hashed { value };
        if let Some(place) = store.find(&hashed) {
            return Ok(ValueId(place));
        }
        if usize::MAX - self.values.len() < self.after {
            return Err(Memory);
        }
        let id = self.values.admit(hashed.value)?;
        Ok(ValueId(self.after + id.0))
    }
}
