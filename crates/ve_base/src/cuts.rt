// How large the pieces are that a source in memory gives.
ghost use Rattle.std.specs.Prelude.{◌≡◌, ◌<◌, ◌++◌, ◌∷◌, [], All, OnOk, OnErr};

use crate::{Memory, Same, TryCopy};
use std::alloc::Global;
use std::marker::Model;

/// A list of greatest piece sizes in bytes, each at least 1.
#[derive(Drop)]
pub struct Cuts {
    list: Vec<usize>,
}

impl Model for Cuts {
    ghost use Rattle.std.specs.Prelude.{ℕ, List, All, ◌<◌};
    ghost use Rattle.std.specs.Coded.{coded_ℕ, coded_list};

    ghost Value = { List ℕ };

    ghost coded = { coded_list coded_ℕ };

    ghost view = { λ c. c.list.items };

    ghost invariant = { λ c. All (λ cut. 0 < cut) c.list.items };
}

impl Cuts {
    /// No sizes. It takes no memory.
    pub fn new(alloc: Global) -> Cuts
        ensures { result ≡ [] }
    {
        Cuts {
            list: Vec::new(alloc),
        }
    }

    /// Appends a size. An `Err` changes nothing.
    pub fn push(&mut self, cut: usize) -> Result<(), Memory>
        requires { 0 < cut }
        ensures ok { OnOk result (self.new ≡ self.old ++ cut ∷ []) }
        ensures err { OnErr result (self.new ≡ self.old) }
    {
        self.list.push(cut)?;
        Ok(())
    }

    /// Lends them in order.
    pub fn as_slice(&self) -> &[usize]
        ensures items { result.now ≡ self.now }
        ensures positive { All (λ cut. 0 < cut) self.now }
    {
        self.list.as_slice()
    }
}

impl TryCopy for Cuts {
    fn copy(&self, alloc: Global) -> Result<Cuts, Memory> {
        Ok(Cuts {
            list: Vec::from_slice(alloc, &self.list)?,
        })
    }
}

impl Same for Cuts {
    fn same(&self, other: &Cuts) -> bool {
        self.as_slice() == other.as_slice()
    }
}
