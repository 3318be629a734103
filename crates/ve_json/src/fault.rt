// Why nothing is read.
use model_world::{Field, Refusal};
use thiserror::Error;
use ve_base::Memory;

/// Why a JSON value is no value of the sort that is asked for.
#[derive(Clone, Copy, Debug, PartialEq, Eq, Error)]
pub enum ValueFault {
    #[error("the value is not well formed")]
    IllFormed,
    #[error("there is no memory for it")]
    Memory,
}

/// Why the members of a command aren't read.
#[derive(Clone, Copy, Debug, PartialEq, Eq, Error)]
pub enum BadMember {
    #[error("a member is missing or not well formed")]
    Named(Field),
    #[error("there is no memory for it")]
    Memory,
}

/// Why a line gives no command.
#[derive(Clone, Copy, Debug, PartialEq, Eq, Error)]
pub enum CommandFault {
    #[error("the line is refused")]
    Refused(Refusal),
    #[error("there is no memory for it")]
    Memory,
}

impl From<Memory> for ValueFault {
    ghost use Rattle.std.specs.Prelude.{◌≡◌};
    ghost use Rattle.ve_json.specs.declared.fault.ValueFault.TheVariants as unread;

    ghost from_gives = { λ _ given. given ≡ unread.Memory };

    fn from(_: Memory) -> Self {
        ValueFault::Memory
    }
}

impl From<Memory> for CommandFault {
    ghost use Rattle.std.specs.Prelude.{◌≡◌};
    ghost use Rattle.ve_json.specs.declared.fault.CommandFault.TheVariants as fault;

    ghost from_gives = { λ _ given. given ≡ fault.Memory };

    fn from(_: Memory) -> Self {
        CommandFault::Memory
    }
}

impl From<BadMember> for CommandFault {
    ghost use Rattle.std.specs.Prelude.{◌≡◌};
    ghost use Rattle.ve_json.specs.Gives.{refusal_of};

    ghost from_gives = { λ why given. given ≡ refusal_of why };

    fn from(why: BadMember) -> Self {
        match why {
            BadMember::Named(field) => CommandFault::Refused(Refusal::BadCommand { field }),
            BadMember::Memory => CommandFault::Memory,
        }
    }
}
