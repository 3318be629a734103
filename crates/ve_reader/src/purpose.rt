// The purpose of reading, and why reading stops.
use thiserror::Error;
use ve_base::Memory;

/// Whether a page, a body or a fragment is read.
#[derive(Clone, Copy, Debug, PartialEq, Eq)]
pub enum Purpose {
    /// The body of a page: its nodes have origins, and its references are editable.
    Page,
    /// The body of a reference, without either.
    Body,
    /// A fragment that is inserted, in which no node is generated, either.
    Fragment,
}

/// Why reading stops: what is over a limit, with the byte where it starts, or want of memory.
#[derive(Clone, Copy, Debug, PartialEq, Eq, Error)]
pub enum ReadStop {
    /// A node would stand inside of `max_open_kinds` kinds already.
    #[error("byte {at} is too deep")]
    TooDeep { at: usize },
    /// An annotation would stand inside of `max_marks` marks already.
    #[error("byte {at} has too many marks")]
    TooManyMarks { at: usize },
    /// There is no memory for it.
    #[error("out of memory")]
    Memory,
}

impl From<Memory> for ReadStop {
    ghost use Rattle.std.specs.Prelude.{◌≡◌};
    ghost use Rattle.ve_reader.specs.declared.purpose.ReadStop.TheVariants.{Memory as OutOfMemory};

    ghost from_gives = { λ _ e. e ≡ OutOfMemory };

    fn from(_: Memory) -> Self {
        ReadStop::Memory
    }
}
