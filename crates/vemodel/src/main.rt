//! The program: a script from standard input, its replies to standard output.
//!
//! It calls `run_program` on the words, standard input and standard output, and ends with the
//! status's number (`exit_of`). Standard input and output are adapted here (`adapters`) in a few
//! lines. A count of faults rises where it is handed an error of std, or that nothing was taken of
//! a piece, and nowhere else (`faults`). `run_all` says of each reader and writer of std all that
//! `run_program` says: where they tell their bytes, the promise holds with these lines in between.
//! No clause knows what a terminal or a pipe gave or got, what the words were, that an adapter
//! hands on what std gave, nor that `main` does nothing else. Each is a line or a few, and a stored
//! run and tools/check-program show it. Nothing else may touch the outside.
#![tactic(auto)]

mod adapters;
mod faults;
#[cfg(test)]
mod tests;

ghost use Rattle.std.specs.Prelude.{◌≡◌, ◌≤◌, ℕ, [], Some, IfSome};
ghost use Rattle.std.specs.Io.KnownBytes.{Appends};
ghost use Rattle.std.specs.Process.{exit_status};
ghost use Rattle.ve_base.specs.Outside.{Rose};
ghost use Rattle.model_world.specs.World.{Closed, output_of};
ghost use Rattle.ve_run.specs.Asked.{asked_for, IsRun, IsSoak};
ghost use Rattle.ve_run.specs.Ended.{EndsByLength, EndsByWords};
ghost use Rattle.ve_run.specs.Run.{NoFaults};
ghost use Rattle.ve_run.specs.Status.{exit_number};
ghost use Rattle.ve_session.specs.Program.{seen_of, EndedNew, WrotePrefixNew};

use adapters::{ReadSource, WriteSink};
use std::env;
use std::io::{ErrorKind, Read, Write};
use std::marker::Brand;
use std::process::ExitCode;
use std::sync::ledger::{Blank, Ledger};
use ve_base::{Memory, Steps, Text};
use ve_session::{Status, run_program};

/// The words after the program's name. Where one of them isn't UTF-8, none is understood, and there
/// are none.
fn words(rt: &HostRuntime) -> Result<Vec<Text>, Memory> {
    let mut words = Vec::new(rt.alloc());
    match env::args(rt) {
        Ok(args) => {
            for arg in args.skip(1) {
                words.push(Text::from_str(rt.alloc(), arg.as_str())?)?;
            }
        }
        Err(error) if error.kind() == ErrorKind::InvalidData => {}
        Err(_) => return Err(Memory),
    }
    Ok(words)
}

/// Runs the program on a reader and a writer of std. It alone owns the steps, and `run_program` the
/// world. Its clauses are those of `run_program`, of this reader and writer.
fn run_all<R: Read + Drop, W: Write + Drop, L: Ledger>(
    rt: &HostRuntime,
    words: &[Text],
    source: &mut ReadSource<R>,
    sink: &mut WriteSink<W>,
    blank: Blank,
) -> Status
    requires name { blank.name ≡ L.name }
    requires parts { blank.parts ≡ L.parts }
    requires one { blank.parts ≡ 1 }
    // Where reader and writer tell their bytes, the output that the definitions give for the script
    // is written, and nothing else.
    ensures headline { IsRun words.now → result ≡ Status.Done → IfSome (R.remaining source.old.reader) (λ script.
        Appends (W.contents sink.old.writer) (W.contents sink.new.writer) (output_of Closed script)
        × (R.remaining source.new.reader ≡ Some [])) }
    // In each mode and at each status, also where the reader doesn't tell its bytes; and so many
    // steps were taken, which modes `run` and `soak` alone take.
    ensures ended { (taken : ℕ) × EndedNew words.now
        (seen_of 0 (R.remaining source.old.reader) (W.contents sink.old.writer)
        source.old.faults.count sink.old.faults.count)
        (seen_of taken (R.remaining source.new.reader) (W.contents sink.new.writer)
        source.new.faults.count sink.new.faults.count) result
        × ((IsRun words.now → ⊥) → (IsSoak words.now → ⊥) → taken ≡ 0) }
    // At every status the output is a prefix of that which the definitions give for the bytes
    // taken.
    ensures prefix { IsRun words.now → (taken : ℕ) × WrotePrefixNew
        (seen_of 0 (R.remaining source.old.reader) (W.contents sink.old.writer)
        source.old.faults.count sink.old.faults.count)
        (seen_of taken (R.remaining source.new.reader) (W.contents sink.new.writer)
        source.new.faults.count sink.new.faults.count) }

    // The reader is asked in mode `run` alone.
    ensures unread { (IsRun words.now → ⊥) → source.new ≡ source.old }

    // It doesn't give up by itself: where std told of no fault, length, words and memory decide.
    ensures complete { IsRun words.now
        → NoFaults source.old.faults.count source.new.faults.count sink.old.faults.count sink.new.faults.count
        → IfSome (R.remaining source.old.reader) (λ script. EndsByLength script result) }
    ensures complete_else { (IsRun words.now → ⊥) → (Rose sink.old.faults.count sink.new.faults.count → ⊥)
        → EndsByWords (asked_for words.now) result }
    ensures source_later { source.old.faults.count ≤ source.new.faults.count }
    ensures sink_later { sink.old.faults.count ≤ sink.new.faults.count }
{
    let mut steps: Steps<L> = Steps::start(rt, blank);
    run_program(rt.alloc(), words, source, sink, &mut steps)
}

/// The end that a status means to who called the program.
fn exit_of(status: Status) -> ExitCode
    ensures { exit_status result ≡ exit_number status }
{
    ExitCode::from(status.number())
}

fn main(rt: HostRuntime) -> ExitCode {
    let Ok(words) = words(&rt) else {
        return exit_of(Status::Memory);
    };
    let mut source = ReadSource::new(rt.stdin());
    let mut sink = WriteSink::new(rt.stdout());
    let blank = Blank::new(1);
    exit_of(run_all::<_, _, Brand>(&rt, words.as_slice(), &mut source, &mut sink, blank))
}
