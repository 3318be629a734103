// Scripts on a machine of the tests' own. Sources give pieces of all sizes and fail once; sinks
// take a byte at a time and fail once. After its fault each source and sink would go on.
ghost use Rattle.std.specs.Prelude.{◌≡◌};

use std::alloc::Global;
use std::marker::Brand;
use std::sync::ledger::{Blank, Ledger};
use std::test::Fail;
use ve_base::{Bytes, Calls, Cuts, Failed, MemSink, MemSource, Memory, Sink, Source, Steps, Text};
use ve_json::{Answer, reply_text};
use ve_run::{Machine, Status, run};

/// Answers `ok` with 1, 2, 3 in turn, and when it has answered the most lines it has no memory.
#[derive(Drop)]
struct Counter {
    alloc: Global,
    answered: usize,
    most: usize,
}

impl Machine for Counter {
    ghost use Rattle.std.specs.Prelude.{◌+◌};
    ghost use Rattle.model_world.specs.declared.reply.Reply.TheVariants.{Length};

    ghost meaning = { record {
      reply = λ counter _. Length (counter.answered + 1);
      next = λ counter _. record counter { answered = counter.answered + 1 };
      cost = λ _ _. 0;
    } };

    fn step<L: Ledger>(
        &mut self,
        _line: &[u8],
        out: &mut Bytes,
        _steps: &mut Steps<L>,
    ) -> Result<(), Memory> {
        if self.answered >= self.most {
            return Err(Memory);
        }
        reply_text(self.alloc, &Answer::Length(self.answered + 1), out)?;
        self.answered += 1;
        Ok(())
    }
}

/// Counts the reads.
#[derive(Drop)]
struct CountedSource {
    source: MemSource,
    reads: usize,
}

impl Source for CountedSource {
    ghost use Rattle.std.specs.Prelude.{Some};

    ghost left = { λ s. Some s.source.left };

    ghost faults = { λ s. s.source.faults };

    fn read(&mut self, room: &mut [u8]) -> Result<usize, Failed> {
        self.reads = self.reads.saturating_add(1);
        self.source.read(room)
    }
}

/// Counts the writes, and takes a byte at a time where it drips.
#[derive(Drop)]
struct CountedSink<'a> {
    sink: MemSink<'a>,
    drips: bool,
    writes: usize,
}

impl<'a> Sink for CountedSink<'a> {
    ghost use Rattle.std.specs.Prelude.{Some};

    ghost held = { λ s. Some s.sink.held };

    ghost faults = { λ s. s.sink.faults };

    fn write(&mut self, piece: &[u8]) -> Result<usize, Failed> {
        self.writes = self.writes.saturating_add(1);
        if self.drips && piece.len() > 1 {
            self.sink.write(&piece[..1])
        } else {
            self.sink.write(piece)
        }
    }
}

/// A script, how it comes and goes, and what is to be done.
#[derive(Clone, Copy)]
struct Case {
    words: &'static [&'static str],
    script: &'static [u8],
    /// The sizes of its first pieces.
    cuts: &'static [usize],
    /// Which read fails, and which write, counted from 0.
    failed_read: Option<usize>,
    failed_write: Option<usize>,
    /// How many bytes the sink has room for, at most 64.
    room: usize,
    /// How many lines the machine answers.
    most: usize,
    status: Status,
    written: &'static [u8],
    answered: usize,
    /// How many reads and writes there are, the failed ones too, where the sink doesn't drip.
    reads: usize,
    writes: usize,
    /// Whether all but the writes is so of a sink that drips, too.
    drips: bool,
}

const USUAL: Case = Case {
    words: &["run"],
    script: b"a\nb\nc\n",
    cuts: &[],
    failed_read: None,
    failed_write: None,
    room: 64,
    most: 9,
    status: Status::Done,
    written: b"ok 1\nok 2\nok 3\n",
    answered: 3,
    reads: 2,
    writes: 3,
    drips: true,
};

fn only(alloc: Global, call: Option<usize>) -> Result<Calls, Memory> {
    let mut calls = Calls::new(alloc);
    if let Some(call) = call {
        calls.push(call)?;
    }
    Ok(calls)
}

fn source_of(alloc: Global, case: &Case) -> Result<CountedSource, Memory> {
    let mut bytes = Bytes::new(alloc);
    bytes.push(case.script)?;
    let mut cuts = Cuts::new(alloc);
    for cut in case.cuts {
        cuts.push((*cut).max(1))?;
    }
    Ok(CountedSource {
        source: MemSource::new(bytes, cuts, only(alloc, case.failed_read)?),
        reads: 0,
    })
}

fn words_of(alloc: Global, case: &Case) -> Result<Vec<Text>, Memory> {
    let mut words = Vec::new(alloc);
    for word in case.words {
        words.push(Text::from_str(alloc, word)?)?;
    }
    Ok(words)
}

/// How a run ended, what it wrote, how many lines its machine answered, and how many reads and
/// writes there were.
#[derive(Drop)]
struct Outcome {
    status: Status,
    written: Bytes,
    answered: usize,
    reads: usize,
    writes: usize,
}

/// The bytes that a sink holds.
fn held(alloc: Global, sink: &MemSink<'_>) -> Result<Bytes, Memory> {
    let mut written = Bytes::new(alloc);
    written.push(sink.held())?;
    Ok(written)
}

/// Runs a case from a source to a sink whose calls fail so.
fn ran_from<L: Ledger>(
    rt: &HostRuntime,
    blank: Blank,
    case: &Case,
    words: &[Text],
    source: &mut CountedSource,
    drips: bool,
    fails: Calls,
) -> Result<Outcome, Memory>
    requires name { blank.name ≡ L.name }
    requires parts { blank.parts ≡ L.parts }
    requires one { blank.parts ≡ 1 }
{
    let alloc = rt.alloc();
    let mut steps: Steps<L> = Steps::start(rt, blank);
    let mut world = Counter {
        alloc,
        answered: 0,
        most: case.most,
    };
    let mut room = [0u8; 64];
    let mut sink = CountedSink {
        sink: MemSink::new(&mut room[..case.room.min(64)], fails),
        drips,
        writes: 0,
    };
    let status = run(alloc, words, source, &mut sink, &mut world, &mut steps);
    Ok(Outcome {
        status,
        written: held(alloc, &sink.sink)?,
        answered: world.answered,
        reads: source.reads,
        writes: sink.writes,
    })
}

fn ran_with<L: Ledger>(
    rt: &HostRuntime,
    blank: Blank,
    case: &Case,
    drips: bool,
) -> Result<Outcome, Memory>
    requires name { blank.name ≡ L.name }
    requires parts { blank.parts ≡ L.parts }
    requires one { blank.parts ≡ 1 }
{
    let words = words_of(rt.alloc(), case)?;
    let mut source = source_of(rt.alloc(), case)?;
    let fails = only(rt.alloc(), case.failed_write)?;
    ran_from::<L>(rt, blank, case, words.as_slice(), &mut source, drips, fails)
}

/// Whether a run did what its case says. A sink that drips is written to oftener.
fn is_as_said(case: &Case, outcome: &Outcome, drips: bool) -> bool {
    outcome.status == case.status
        && outcome.written.as_slice() == case.written
        && outcome.answered == case.answered
        && outcome.reads == case.reads
        && (drips || outcome.writes == case.writes)
}

/// Scripts of three lines and neighbours of them, whole and broken off.
const CASES: [Case; 17] = [
    USUAL,
    // one byte a read, and pieces of odd sizes
    Case {
        cuts: &[1, 1, 1, 1, 1, 1],
        reads: 7,
        ..USUAL
    },
    Case {
        cuts: &[3, 1, 2],
        reads: 4,
        ..USUAL
    },
    // a last line without a newline, an empty one, and one with a carriage return
    Case {
        script: b"a\nb\nc",
        cuts: &[5],
        ..USUAL
    },
    Case {
        script: b"\n\n\r",
        ..USUAL
    },
    Case {
        script: b"",
        written: b"",
        answered: 0,
        reads: 1,
        writes: 0,
        ..USUAL
    },
    // what had ended is answered, and what hadn't isn't; a read that failed isn't tried again
    Case {
        failed_read: Some(0),
        status: Status::ReadFault,
        written: b"",
        answered: 0,
        reads: 1,
        writes: 0,
        ..USUAL
    },
    Case {
        cuts: &[2],
        failed_read: Some(1),
        status: Status::ReadFault,
        written: b"ok 1\n",
        answered: 1,
        writes: 1,
        ..USUAL
    },
    Case {
        cuts: &[3],
        failed_read: Some(1),
        status: Status::ReadFault,
        written: b"ok 1\n",
        answered: 1,
        writes: 1,
        ..USUAL
    },
    // the last read, which would only have met the end
    Case {
        failed_read: Some(1),
        status: Status::ReadFault,
        ..USUAL
    },
    Case {
        room: 7,
        status: Status::WriteFault,
        written: b"ok 1\nok",
        answered: 2,
        reads: 1,
        writes: 3,
        ..USUAL
    },
    Case {
        most: 1,
        status: Status::Memory,
        written: b"ok 1\n",
        answered: 1,
        reads: 1,
        writes: 1,
        ..USUAL
    },
    Case {
        words: &[],
        status: Status::Usage,
        written: b"usage: vemodel run | make | soak [--start N] [--edits N]\n",
        answered: 0,
        reads: 0,
        writes: 1,
        ..USUAL
    },
    Case {
        words: &["run", "run"],
        room: 5,
        status: Status::WriteFault,
        written: b"usage",
        answered: 0,
        reads: 0,
        writes: 2,
        ..USUAL
    },
    // a write that failed is not tried again, and a line whose piece has come is answered before
    // the next piece is read
    Case {
        failed_write: Some(1),
        status: Status::WriteFault,
        written: b"ok 1\n",
        answered: 2,
        reads: 1,
        writes: 2,
        drips: false,
        ..USUAL
    },
    Case {
        cuts: &[2, 2],
        failed_write: Some(0),
        status: Status::WriteFault,
        written: b"",
        answered: 1,
        reads: 1,
        writes: 1,
        drips: false,
        ..USUAL
    },
    Case {
        words: &["help"],
        failed_write: Some(0),
        status: Status::WriteFault,
        written: b"",
        answered: 0,
        reads: 0,
        writes: 1,
        drips: false,
        ..USUAL
    },
];

#[test]
fn every_line_is_answered_in_turn(rt: HostRuntime) -> Result<(), Fail> {
    for (number, case) in CASES.iter().enumerate() {
        for drips in [false, true] {
            if drips && !case.drips {
                continue;
            }
            let outcome = ran_with::<Brand>(&rt, Blank::new(1), case, drips)?;
            assert!(rt; is_as_said(case, &outcome, drips), "case {number}");
        }
    }
    Ok(())
}
