// Equal values: how one is made, and how two are told to be equal.
ghost use Rattle.std.specs.Prelude.{◌≡◌, ◌↔◌, IfOk, IsTrue};

use crate::Memory;
use std::alloc::Global;

/// A value that can be copied where there is memory.
pub trait TryCopy: Drop + Sized {
    /// An equal value.
    fn copy(&self, alloc: Global) -> Result<Self, Memory>
        ensures { IfOk result (λ copy. copy ≡ self.now) };
}

/// Values that can be compared as a whole.
pub trait Same {
    /// Whether both are equal.
    fn same(&self, other: &Self) -> bool
        ensures { IsTrue result ↔ (self.now ≡ other.now) };
}

impl TryCopy for usize {
    fn copy(&self, _alloc: Global) -> Result<usize, Memory> {
        Ok(*self)
    }
}

impl Same for usize {
    fn same(&self, other: &usize) -> bool {
        *self == *other
    }
}

impl<T: TryCopy> TryCopy for Option<T> {
    fn copy(&self, alloc: Global) -> Result<Option<T>, Memory> {
        match self {
            Some(value) => Ok(Some(value.copy(alloc)?)),
            None => Ok(None),
        }
    }
}

impl<T: Same> Same for Option<T> {
    fn same(&self, other: &Option<T>) -> bool {
        match (self, other) {
            (Some(value), Some(other)) => value.same(other),
            (None, None) => true,
            (Some(_), None) | (None, Some(_)) => false,
        }
    }
}
