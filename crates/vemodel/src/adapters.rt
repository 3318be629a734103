// Readers and writers of std as sources and sinks. They are the edge that is trusted: no clause
// knows what a terminal or a pipe holds. `read` and `write` hand std's answer to `Faults`, whose
// clauses say what becomes of it. That it is std's answer that they hand, their one line shows.
ghost use Rattle.std.specs.Prelude.{◌≡◌};

use crate::faults::Faults;
use std::io::{Read, Write};
use ve_base::{Failed, Sink, Source};

/// A reader as a source. It tells what is left where the reader does, and counts the reader's
/// errors.
#[derive(Drop)]
pub struct ReadSource<R: Read + Drop> {
    reader: R,
    faults: Faults,
}

impl<R: Read + Drop> ReadSource<R> {
    /// Without a fault so far.
    pub fn new(reader: R) -> Self
        ensures { result.faults.count ≡ 0 }
    {
        ReadSource {
            reader,
            faults: Faults::none(),
        }
    }
}

impl<R: Read + Drop> Source for ReadSource<R> {
    ghost left = { λ s. R.remaining s.reader };

    ghost faults = { λ s. s.faults.count };

    fn read(&mut self, room: &mut [u8]) -> Result<usize, Failed> {
        self.faults.of_read(self.reader.read(room))
    }
}

/// A writer as a sink. It tells what it holds where the writer does. It counts the writer's errors,
/// and each time that it takes nothing of a piece.
#[derive(Drop)]
pub struct WriteSink<W: Write + Drop> {
    writer: W,
    faults: Faults,
}

impl<W: Write + Drop> WriteSink<W> {
    /// Without a fault so far.
    pub fn new(writer: W) -> Self
        ensures { result.faults.count ≡ 0 }
    {
        WriteSink {
            writer,
            faults: Faults::none(),
        }
    }
}

impl<W: Write + Drop> Sink for WriteSink<W> {
    ghost held = { λ s. W.contents s.writer };

    ghost faults = { λ s. s.faults.count };

    fn write(&mut self, piece: &[u8]) -> Result<usize, Failed> {
        self.faults.of_write(piece, self.writer.write(piece))
    }
}
