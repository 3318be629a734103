// Why words ask for nothing.
ghost use Rattle.std.specs.Prelude.{◌≡◌};
ghost use Rattle.ve_words.specs.Words.{unasked_by};

use clap::error::ErrorKind;
use std::alloc::AllocError;
use thiserror::Error;

/// Why words ask for no mode.
#[derive(Clone, Copy, Debug, PartialEq, Eq, Error)]
pub enum Unasked {
    /// They ask for help.
    #[error("help was asked for")]
    Help,
    /// They aren't understood.
    #[error("the words aren't understood")]
    Usage,
    /// There is no memory to read them.
    #[error("there is no memory to read the words")]
    Memory,
}

impl From<AllocError> for Unasked {
    ghost use Rattle.std.specs.Prelude.{◌≡◌};
    ghost use Rattle.ve_words.specs.declared.unasked.Unasked.TheVariants as unasked;

    ghost from_gives = { λ _ given. given ≡ unasked.Memory };

    fn from(_: AllocError) -> Self {
        Unasked::Memory
    }
}

impl Unasked {
    /// The answer for a kind of `clap`'s errors.
    pub(crate) fn by(kind: ErrorKind) -> Unasked
        ensures { result ≡ unasked_by kind }
    {
        match kind {
            ErrorKind::DisplayHelp => Unasked::Help,
            ErrorKind::OutOfMemory => Unasked::Memory,
            _ => Unasked::Usage,
        }
    }
}
