// Why changes aren't performed.
ghost use Rattle.std.specs.Prelude.{◌≡◌};
ghost use Rattle.ve_changes.specs.Batches as model;

use crate::ChangeStop;
use model_world::Refusal;
use thiserror::Error;
use ve_base::Memory;

/// Why a batch isn't made: the change at a place, counted from 0, is refused, or there is no memory for it.
#[derive(Clone, Copy, Debug, PartialEq, Eq, Error)]
pub enum BatchStop {
    /// A change is refused, and those before it are not.
    #[error("the change at {at} is refused")]
    Refused { at: usize, refusal: Refusal },
    /// There is no memory for it.
    #[error("there is no memory for it")]
    Memory,
}

impl From<Memory> for BatchStop {
    ghost use Rattle.std.specs.Prelude.{◌≡◌};
    ghost use Rattle.ve_changes.specs.declared.batch_stop.BatchStop.TheVariants as stop;

    ghost from_gives = { λ _ given. given ≡ stop.Memory };

    fn from(_: Memory) -> Self {
        BatchStop::Memory
    }
}

/// The stop of the change at a position, as the stop of all of them.
pub fn stop_at(at: usize, stop: ChangeStop) -> BatchStop
    ensures { result ≡ model.stop_at at stop }
{
    match stop {
        ChangeStop::Refused(refusal) => BatchStop::Refused { at, refusal },
        ChangeStop::Memory => BatchStop::Memory,
    }
}
