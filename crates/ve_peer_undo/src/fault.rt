// Why an entry is not taken back, under all later ones or under those alone that count.
use thiserror::Error;
use ve_base::Memory;

/// Why an entry is not taken back.
#[derive(Clone, Copy, Debug, PartialEq, Eq, Error)]
pub enum RevokeFault {
    /// A later entry conflicts with what takes it back: the active ranges of the first two transactions that
    /// do, each as its start and its end in the list that both apply to, in items.
    #[error("the range {reversal:?} of what takes it back conflicts with the later {later:?}")]
    Conflict {
        later: (usize, usize),
        reversal: (usize, usize),
    },
    /// There is no memory for it, or it would be longer than a transaction may be.
    #[error("there is no memory for it")]
    Memory,
}

impl From<Memory> for RevokeFault {
    ghost use Rattle.std.specs.Prelude.{◌≡◌};
    ghost use Rattle.ve_peer_undo.specs.declared.fault.RevokeFault.TheVariants as fault;

    ghost from_gives = { λ _ given. given ≡ fault.Memory };

    fn from(_: Memory) -> Self {
        RevokeFault::Memory
    }
}

/// Why an entry is not taken back under the later ones that still count.
#[derive(Clone, Copy, Debug, PartialEq, Eq, Error)]
pub enum LiveFault {
    /// The entry of that number took it back already.
    #[error("entry {by} took it back")]
    TakenBack {
        by: usize,
    },
    /// An entry that counts conflicts with what takes it back: the active ranges of the first two
    /// transactions that do, each as its start and its end in the list that both apply to, in items.
    #[error("the range {reversal:?} of what takes it back conflicts with the later {later:?}")]
    Conflict {
        later: (usize, usize),
        reversal: (usize, usize),
    },
    /// There is no memory for it, or it would be longer than a transaction may be.
    #[error("there is no memory for it")]
    Memory,
}

impl From<Memory> for LiveFault {
    ghost use Rattle.std.specs.Prelude.{◌≡◌};
    ghost use Rattle.ve_peer_undo.specs.declared.fault.LiveFault.TheVariants as fault;

    ghost from_gives = { λ _ given. given ≡ fault.Memory };

    fn from(_: Memory) -> Self {
        LiveFault::Memory
    }
}

impl From<RevokeFault> for LiveFault {
    ghost use Rattle.std.specs.Prelude.{◌≡◌};
    ghost use Rattle.ve_peer_undo.specs.Refusal.{live_fault};

    ghost from_gives = { λ fault given. given ≡ live_fault fault };

    fn from(fault: RevokeFault) -> Self {
        match fault {
            RevokeFault::Conflict { later, reversal } => LiveFault::Conflict { later, reversal },
            RevokeFault::Memory => LiveFault::Memory,
        }
    }
}
