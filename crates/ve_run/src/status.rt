// How a run ends.
ghost use Rattle.std.specs.Prelude.{◌≡◌};
ghost use Rattle.ve_run.specs.Status.{exit_number, status_of};

use crate::stop::Stop;

/// How a run ended.
#[derive(Clone, Copy, Debug, PartialEq, Eq)]
pub enum Status {
    /// In mode `run` the script was read to its end, and every reply was written; else the whole
    /// text was written.
    Done,
    /// The words weren't understood, and the usage line was written.
    Usage,
    /// The source failed. The replies to all lines ended before it were written.
    ReadFault,
    /// The sink failed. What was written is a prefix of the output.
    WriteFault,
    /// The script is longer than 2^26 bytes. The replies to all lines that end within these were
    /// written.
    InputTooLong,
    /// Memory was wanting. What was written is a prefix of the output.
    Memory,
    /// Help was asked for, and the usage line was written.
    Help,
}

impl Status {
    /// The number that the program ends with: 0 where all is well.
    pub fn number(self) -> u8
        ensures { result ≡ exit_number self }
    {
        match self {
            Status::Done | Status::Help => 0,
            Status::Usage => 2,
            Status::ReadFault => 3,
            Status::WriteFault => 4,
            Status::InputTooLong => 5,
            Status::Memory => 6,
        }
    }
}

impl Stop {
    /// The status of a run that stopped so.
    pub fn status(self) -> Status
        ensures { result ≡ status_of self }
    {
        match self {
            Stop::Memory => Status::Memory,
            Stop::ReadFault => Status::ReadFault,
            Stop::WriteFault => Status::WriteFault,
            Stop::InputTooLong => Status::InputTooLong,
        }
    }
}
