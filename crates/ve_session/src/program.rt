// A run from a new world: the program, up to where its bytes come from and go.
ghost use Rattle.std.specs.Prelude.{◌≡◌, ◌≤◌, [], Some, IfSome};
ghost use Rattle.std.specs.Io.KnownBytes.{Appends};
ghost use Rattle.ve_base.specs.Outside.{Rose};
ghost use Rattle.model_world.specs.World.{Closed, output_of};
ghost use Rattle.ve_run.specs.Asked.{asked_for, IsRun, IsSoak};
ghost use Rattle.ve_run.specs.Ended.{EndsByLength, EndsByWords};
ghost use Rattle.ve_run.specs.Run.{NoFaults};
ghost use Rattle.ve_session.specs.Program.{seen_of, EndedNew, WrotePrefixNew};

use crate::World;
use std::alloc::Global;
use std::sync::ledger::Ledger;
use ve_base::{Sink, Source, Steps, Text};
use ve_run::{Status, run};

/// Runs the mode that the words after the program's name ask for, with a world that has no page.
pub fn run_program<S: Source, K: Sink, L: Ledger>(
    alloc: Global,
    words: &[Text],
    source: &mut S,
    sink: &mut K,
    steps: &mut Steps<L>,
) -> Status
    // Whatever bytes the source has left, the output that the definitions give for them as a script
    // is written, and nothing else.
    ensures headline { IsRun words.now → result ≡ Status.Done → IfSome (S.left source.old) (λ script.
        Appends (K.held sink.old) (K.held sink.new) (output_of Closed script) × (S.left source.new ≡ Some [])) }
    // In each mode and at each status, also where the source doesn't tell its bytes.
    ensures ended { EndedNew words.now
        (seen_of steps.old (S.left source.old) (K.held sink.old) (S.faults source.old) (K.faults sink.old))
        (seen_of steps.new (S.left source.new) (K.held sink.new) (S.faults source.new) (K.faults sink.new)) result }
    // At every status the output is a prefix of that which the definitions give for the bytes
    // taken.
    ensures prefix { IsRun words.now → WrotePrefixNew
        (seen_of steps.old (S.left source.old) (K.held sink.old) (S.faults source.old) (K.faults sink.old))
        (seen_of steps.new (S.left source.new) (K.held sink.new) (S.faults source.new) (K.faults sink.new)) }

    // The source is asked in mode `run` alone, and steps are taken in modes `run` and `soak`.
    ensures unread { (IsRun words.now → ⊥) → source.new ≡ source.old }
    ensures unstepped { (IsRun words.now → ⊥) → (IsSoak words.now → ⊥) → steps.new ≡ steps.old }

    // It doesn't give up by itself.
    ensures complete { IsRun words.now → NoFaults (S.faults source.old) (S.faults source.new) (K.faults sink.old) (K.faults sink.new)
        → IfSome (S.left source.old) (λ script. EndsByLength script result) }
    ensures complete_else { (IsRun words.now → ⊥) → (Rose (K.faults sink.old) (K.faults sink.new) → ⊥)
        → EndsByWords (asked_for words.now) result }
    ensures source_later { S.faults source.old ≤ S.faults source.new }
    ensures sink_later { K.faults sink.old ≤ K.faults sink.new }
    ensures counted { steps.old ≤ steps.new }
{
    let mut world = World::new(alloc);
    run(alloc, words, source, sink, &mut world, steps)
}
