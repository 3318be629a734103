// A machine stepped over a generated script, and its replies summed up.
ghost use Rattle.std.specs.Prelude.{◌≡◌, ◌≤◌, ◌<◌, ◌^◌, ◌⊎◌, ◌++◌, [], length, OnOk, OnErr, IsErrOf};
ghost use Rattle.std.specs.Io.KnownBytes.{Appends};
ghost use Rattle.ve_base.specs.Outside.{Rose};
ghost use Rattle.ve_gen.specs.Generated.{script_lines};
ghost use Rattle.ve_run.specs.Run.{AppendsPrefix};
ghost use Rattle.ve_run.specs.Soak.{IsTally, reply_lines, soak_text, TookLines};

use crate::Machine;
use crate::answer::write_all;
use crate::stop::Stop;
use crate::tally::Tally;
use std::alloc::Global;
use std::sync::ledger::Ledger;
use ve_base::{Bytes, Memory, Sink, Steps};
use ve_gen::Lines;

/// Steps the machine with all lines that are still to come, and counts and hashes its replies. A
/// line and its reply are made in the two buffers.
fn step_lines<M: Machine, L: Ledger>(
    lines: &mut Lines,
    line: &mut Bytes,
    reply: &mut Bytes,
    tally: &mut Tally,
    world: &mut M,
    steps: &mut Steps<L>,
) -> Result<(), Memory>
    requires few { length lines.old < 2 ^ 63 }
    requires none { IsTally tally.old [] }
    ensures tally { OnOk result (IsTally tally.new (reply_lines M.meaning world.old lines.old)) }
    ensures took { OnOk result (
        TookLines M.meaning world.old world.new steps.old steps.new lines.old) }
    ensures counted { steps.old ≤ steps.new }
{
    'lines: while lines.next(line)? {
        reply.clear();
        world.step(line.as_slice(), reply, steps)?;
        tally.add(reply.as_slice());
    }
    Ok(())
}

/// Steps the machine with the lines of the script, and appends the sums of its replies.
fn sum_up<M: Machine, L: Ledger>(
    alloc: Global,
    start: u64,
    edits: u32,
    out: &mut Bytes,
    world: &mut M,
    steps: &mut Steps<L>,
) -> Result<(), Memory>
    ensures text { OnOk result (
        out.new ≡ out.old ++ soak_text M.meaning world.old (script_lines start edits)) }
    ensures took { OnOk result (
        TookLines M.meaning world.old world.new steps.old steps.new (
        script_lines start edits)) }
    ensures counted { steps.old ≤ steps.new }
{
    let mut lines = Lines::new(start, edits);
    let mut line = Bytes::new(alloc);
    let mut reply = Bytes::new(alloc);
    let mut tally = Tally::new();
    step_lines(&mut lines, &mut line, &mut reply, &mut tally, world, steps)?;
    tally.push_text(alloc, out)
}

/// Steps the machine with the lines of the script from this start, with so many edits, one at a
/// time, and writes the sums of its replies.
pub fn soak<K: Sink, M: Machine, L: Ledger>(
    alloc: Global,
    start: u64,
    edits: u32,
    sink: &mut K,
    world: &mut M,
    steps: &mut Steps<L>,
) -> Result<(), Stop>
    ensures ok { OnOk result
        (Appends (K.held sink.old) (K.held sink.new) (soak_text M.meaning world.old (script_lines start edits))) }
    ensures err { OnErr result
        (AppendsPrefix (K.held sink.old) (K.held sink.new) (soak_text M.meaning world.old (script_lines start edits))) }
    ensures took { (IsErrOf result Stop.Memory → ⊥)
        → TookLines M.meaning world.old world.new steps.old steps.new (script_lines start edits) }
    ensures rose { IsErrOf result Stop.WriteFault → Rose (K.faults sink.old) (K.faults sink.new) }
    ensures sink_alone { IsErrOf result Stop.ReadFault ⊎ IsErrOf result Stop.InputTooLong → ⊥ }
    ensures later { K.faults sink.old ≤ K.faults sink.new }
    ensures counted { steps.old ≤ steps.new }
{
    let mut text = Bytes::new(alloc);
    sum_up(alloc, start, edits, &mut text, world, steps)?;
    write_all(sink, text.as_slice())?;
    Ok(())
}
