// Which calls of a source or sink in memory fail.
ghost use Rattle.std.specs.Prelude.{◌↔◌, Contains, IsTrue};

use crate::ListOf;

/// A list of call numbers, counted from 0.
pub type Calls = ListOf<usize>;

impl ListOf<usize> {
    /// Whether the number is listed.
    pub fn contains(&self, call: usize) -> bool
        ensures { IsTrue result ↔ Contains self.now call }
    {
        self.as_slice().contains(&call)
    }
}
