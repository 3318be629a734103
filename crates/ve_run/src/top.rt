// The top call.
ghost use Rattle.std.specs.Prelude.{◌≡◌, ◌≤◌, ◌⊎◌, ℕ, [], Some, IfSome};
ghost use Rattle.std.specs.Io.KnownBytes.{Appends};
ghost use Rattle.ve_base.specs.Outside.{Rose};
ghost use Rattle.model_script.specs.Lines.{lines_of};
ghost use Rattle.model_script.specs.Output.{output, state_after};
ghost use Rattle.model_world.specs.Spelled.{reply_text};
ghost use Rattle.ve_gen.specs.Generated.{script, script_lines};
ghost use Rattle.ve_words.specs.Words.{Asks};
ghost use Rattle.ve_run.specs.Asked.{asked_for, IsRun, IsSoak};
ghost use Rattle.ve_run.specs.Ended.{moment, Ended, EndsByLength, EndsByWords, LinesEnded, SoakEnded, TextEnded};
ghost use Rattle.ve_run.specs.Run.{scene, WrotePrefix, NoFaults};
ghost use Rattle.ve_run.specs.Status.{usage_line};

use crate::answer::write_all;
use crate::make::make;
use crate::script::run_script;
use crate::soak::soak;
use crate::{Machine, Status};
use std::alloc::Global;
use std::sync::ledger::Ledger;
use ve_base::{Sink, Source, Steps, Text};
use ve_words::{Mode, Unasked, asked};

const USAGE: &[u8] = b"usage: vemodel run | make | soak [--start N] [--edits N]\n";

/// Writes the usage line, and then ends so.
fn write_usage<K: Sink>(so: Status, sink: &mut K) -> Status
    requires { (so ≡ Status.Usage) ⊎ (so ≡ Status.Help) }
    ensures ended { TextEnded so usage_line (K.held sink.old) (K.held sink.new) (K.faults sink.old)
        (K.faults sink.new) result }
    ensures later { K.faults sink.old ≤ K.faults sink.new }
{
    match write_all(sink, USAGE) {
        Ok(()) => so,
        Err(_) => Status::WriteFault,
    }
}

/// Answers the lines of the source.
fn end_lines<S: Source, K: Sink, M: Machine, L: Ledger>(
    alloc: Global,
    source: &mut S,
    sink: &mut K,
    world: &mut M,
    steps: &mut Steps<L>,
) -> Status
    ensures headline { result ≡ Status.Done → IfSome (S.left source.old) (λ script.
        Appends (K.held sink.old) (K.held sink.new) (output reply_text M.meaning world.old script)
        × (S.left source.new ≡ Some [])
        × (world.new ≡ state_after M.meaning world.old (lines_of script))) }
    ensures ended { LinesEnded M.meaning
        (moment (scene world.old steps.old (K.held sink.old)) (S.left source.old) (S.faults source.old) (K.faults sink.old))
        (moment (scene world.new steps.new (K.held sink.new)) (S.left source.new) (S.faults source.new) (K.faults sink.new)) result }
    ensures prefix { WrotePrefix M.meaning (S.left source.old) (S.left source.new)
        (scene world.old steps.old (K.held sink.old)) (scene world.new steps.new (K.held sink.new)) }
    ensures complete { NoFaults (S.faults source.old) (S.faults source.new) (K.faults sink.old) (K.faults sink.new)
        → IfSome (S.left source.old) (λ script. EndsByLength script result) }
    ensures source_later { S.faults source.old ≤ S.faults source.new }
    ensures sink_later { K.faults sink.old ≤ K.faults sink.new }
    ensures counted { steps.old ≤ steps.new }
{
    match run_script(alloc, source, sink, world, steps) {
        Ok(()) => Status::Done,
        Err(stop) => stop.status(),
    }
}

/// Writes the generated script.
fn end_make<K: Sink>(alloc: Global, start: u64, edits: u32, sink: &mut K) -> Status
    ensures ended { TextEnded Status.Done (script start edits)
        (K.held sink.old) (K.held sink.new) (K.faults sink.old) (K.faults sink.new) result }
    ensures later { K.faults sink.old ≤ K.faults sink.new }
{
    match make(alloc, start, edits, sink) {
        Ok(()) => Status::Done,
        Err(stop) => stop.status(),
    }
}

/// Answers the lines of the generated script, and writes the sums of the replies.
fn end_soak<S: Source, K: Sink, M: Machine, L: Ledger>(
    alloc: Global,
    start: u64,
    edits: u32,
    source: &S,
    sink: &mut K,
    world: &mut M,
    steps: &mut Steps<L>,
) -> Status
    ensures ended { SoakEnded M.meaning (script_lines start edits)
        (moment (scene world.old steps.old (K.held sink.old)) (S.left source.now) (S.faults source.now) (K.faults sink.old))
        (moment (scene world.new steps.new (K.held sink.new)) (S.left source.now) (S.faults source.now) (K.faults sink.new)) result }
    ensures later { K.faults sink.old ≤ K.faults sink.new }
    ensures counted { steps.old ≤ steps.new }
{
    match soak(alloc, start, edits, sink, world, steps) {
        Ok(()) => Status::Done,
        Err(stop) => stop.status(),
    }
}

/// Runs the mode that the words after the program's name ask for.
///
/// - In mode `run` it reads lines, steps the machine with each, and writes each reply before the
///   next step. At most [`MAX_SCRIPT`](ve_base::MAX_SCRIPT) bytes and one more are taken from the
///   source, and each reply is written as one piece with its newline.
/// - In mode `make` it writes the generated script.
/// - In mode `soak` it steps the machine with each line of the generated script, and writes four
///   lines on its replies.
/// - Where the words are refused or ask for help, it writes the usage line.
pub fn run<S: Source, K: Sink, M: Machine, L: Ledger>(
    alloc: Global,
    words: &[Text],
    source: &mut S,
    sink: &mut K,
    world: &mut M,
    steps: &mut Steps<L>,
) -> Status
    // Whatever bytes the source has left, the machine's replies to their lines are written, and
    // nothing else.
    ensures headline { IsRun words.now → result ≡ Status.Done → IfSome (S.left source.old) (λ script.
        Appends (K.held sink.old) (K.held sink.new) (output reply_text M.meaning world.old script)
        × (S.left source.new ≡ Some [])
        × (world.new ≡ state_after M.meaning world.old (lines_of script))) }
    // In each mode and at each status, also where the source doesn't tell its bytes.
    ensures ended { Ended M.meaning words.now
        (moment (scene world.old steps.old (K.held sink.old)) (S.left source.old) (S.faults source.old) (K.faults sink.old))
        (moment (scene world.new steps.new (K.held sink.new)) (S.left source.new) (S.faults source.new) (K.faults sink.new)) result }
    // At every status the output is a prefix of that of the bytes taken.
    ensures prefix { IsRun words.now → WrotePrefix M.meaning (S.left source.old) (S.left source.new)
        (scene world.old steps.old (K.held sink.old)) (scene world.new steps.new (K.held sink.new)) }

    // The source is asked in mode `run` alone, and the machine in modes `run` and `soak`.
    ensures unread { (IsRun words.now → ⊥) → source.new ≡ source.old }
    ensures unmoved { (IsRun words.now → ⊥)
        → (IsSoak words.now → ⊥)
        → (world.new ≡ world.old) × (steps.new ≡ steps.old) }

    // It doesn't give up by itself.
    ensures complete { IsRun words.now → NoFaults (S.faults source.old) (S.faults source.new) (K.faults sink.old) (K.faults sink.new)
        → IfSome (S.left source.old) (λ script. EndsByLength script result) }
    ensures complete_else { (IsRun words.now → ⊥) → (Rose (K.faults sink.old) (K.faults sink.new) → ⊥)
        → EndsByWords (asked_for words.now) result }
    ensures source_later { S.faults source.old ≤ S.faults source.new }
    ensures sink_later { K.faults sink.old ≤ K.faults sink.new }
    ensures counted { steps.old ≤ steps.new }
{
    let asked = match asked(alloc, words) {
        Ok(asked) => asked,
        Err(Unasked::Memory) => return Status::Memory,
        Err(Unasked::Usage) => return write_usage(Status::Usage, sink),
        Err(Unasked::Help) => return write_usage(Status::Help, sink),
    };
    match asked.mode {
        Mode::Run => end_lines(alloc, source, sink, world, steps),
        Mode::Make => end_make(alloc, asked.start, asked.edits, sink),
        Mode::Soak => end_soak(alloc, asked.start, asked.edits, source, sink, world, steps),
    }
}
