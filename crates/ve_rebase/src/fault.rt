// Why transactions are not joined.
use thiserror::Error;
use ve_base::Memory;

/// Why transactions are not joined.
#[derive(Clone, Copy, Debug, PartialEq, Eq, Error)]
pub enum RebaseFault {
    /// The two conflict. Both active ranges, each as its start and its end in the old list of its transaction, in items.
    #[error("the ranges {a_range:?} and {b_range:?} conflict")]
    Conflict {
        a_range: (usize, usize),
        b_range: (usize, usize),
    },
    /// There is no memory for what is joined, or it would be longer than a transaction may be.
    #[error("there is no memory for it")]
    Memory,
}

impl From<Memory> for RebaseFault {
    ghost use Rattle.std.specs.Prelude.{◌≡◌};
    ghost use Rattle.ve_rebase.specs.declared.fault.RebaseFault.TheVariants as fault;

    ghost from_gives = { λ _ given. given ≡ fault.Memory };

    fn from(_: Memory) -> Self {
        RebaseFault::Memory
    }
}
