// A whole script, from a source to a sink.
ghost use Rattle.std.specs.Prelude.{◌≡◌, ◌≤◌, ◌<◌, [], ◌∷◌, ℕ, List, length, OnOk, IfOk, IsErrOf};
ghost use Rattle.std.specs.Io.KnownBytes.{ReadConsumes, IsAtEnd};
ghost use Rattle.ve_base.specs.Outside.{Rose, HasCause};
ghost use Rattle.ve_run.specs.Run.{scene, Answered, Took, Ran, Stopped, Broke, Starved};

use crate::Machine;
use crate::answer::answer;
use crate::feed::feed;
use crate::stop::Stop;
use std::alloc::Global;
use std::sync::ledger::Ledger;
use ve_base::{Bytes, Failed, MAX_SCRIPT, Sink, Source, Steps};

/// How many bytes are asked for at once.
const ROOM: usize = 4096;

/// Reads at most so many bytes to the prefix of the buffer.
fn read_at_most<S: Source>(source: &mut S, buffer: &mut [u8], most: usize) -> Result<usize, Failed>
    requires room { 0 < length buffer.old }
    requires some { 0 < most }
    ensures bound { IfOk result (λ n. (n ≤ length buffer.new) × (n ≤ most)) }
    ensures bytes { ReadConsumes (S.left source.old) (S.left source.new) result buffer.new }
    ensures cause { HasCause (S.faults source.old) (S.faults source.new) result }
{
    if most < buffer.len() {
        source.read(&mut buffer[..most])
    } else {
        source.read(buffer)
    }
}

/// Reads to the end, answers each line that a newline ends, and keeps the rest after the last of
/// them.
fn read_lines<S: Source, K: Sink, M: Machine, L: Ledger>(
    source: &mut S,
    kept: &mut Bytes,
    reply: &mut Bytes,
    sink: &mut K,
    world: &mut M,
    steps: &mut Steps<L>,
) -> Result<(), Stop>
    requires { kept.old ≡ [] }
    ensures answered { OnOk result ((script : List ℕ) × Took (S.left source.old) (S.left source.new) script []
        × Answered M.meaning
        (scene world.old steps.old (K.held sink.old)) (scene world.new steps.new (K.held sink.new)) script kept.new) }
    ensures end { OnOk result (IsAtEnd (S.left source.new)) }
    ensures read_fault { IsErrOf result Stop.ReadFault → Stopped M.meaning (S.left source.old) (S.left source.new)
        (scene world.old steps.old (K.held sink.old)) (scene world.new steps.new (K.held sink.new)) [] }
    ensures read_cause { IsErrOf result Stop.ReadFault
        → Rose (S.faults source.old) (S.faults source.new) }
    ensures too_long { IsErrOf result Stop.InputTooLong → (extra : ℕ) × Stopped M.meaning (S.left source.old) (S.left source.new)
        (scene world.old steps.old (K.held sink.old)) (scene world.new steps.new (K.held sink.new)) (extra ∷ []) }
    ensures write_fault { IsErrOf result Stop.WriteFault → Broke M.meaning (S.left source.old) (S.left source.new)
        (scene world.old steps.old (K.held sink.old)) (scene world.new steps.new (K.held sink.new)) }
    ensures write_cause { IsErrOf result Stop.WriteFault
        → Rose (K.faults sink.old) (K.faults sink.new) }
    ensures starved { IsErrOf result Stop.Memory → Starved M.meaning (S.left source.old) (S.left source.new)
        (scene world.old steps.old (K.held sink.old)) (scene world.new steps.new (K.held sink.new)) }
    ensures source_later { S.faults source.old ≤ S.faults source.new }
    ensures sink_later { K.faults sink.old ≤ K.faults sink.new }
    ensures counted { steps.old ≤ steps.new }
{
    let mut taken = 0;
    let mut buffer = [0u8; ROOM];
    'script: loop {
        let space = MAX_SCRIPT - taken;
        let Ok(given) = read_at_most(source, &mut buffer, space + 1) else {
            return Err(Stop::ReadFault);
        };
        if given == 0 {
            break;
        }
        if given > space {
            feed(&buffer[..space], kept, reply, sink, world, steps)?;
            return Err(Stop::InputTooLong);
        }
        feed(&buffer[..given], kept, reply, sink, world, steps)?;
        taken += given;
    }
    Ok(())
}

/// Reads lines, and answers each before the next; at the end a rest that isn't empty is a line too.
pub fn run_script<S: Source, K: Sink, M: Machine, L: Ledger>(
    alloc: Global,
    source: &mut S,
    sink: &mut K,
    world: &mut M,
    steps: &mut Steps<L>,
) -> Result<(), Stop>
    ensures ok { OnOk result (Ran M.meaning (S.left source.old) (S.left source.new)
        (scene world.old steps.old (K.held sink.old)) (scene world.new steps.new (K.held sink.new))) }
    ensures read_fault { IsErrOf result Stop.ReadFault → Stopped M.meaning (S.left source.old) (S.left source.new)
        (scene world.old steps.old (K.held sink.old)) (scene world.new steps.new (K.held sink.new)) [] }
    ensures read_cause { IsErrOf result Stop.ReadFault
        → Rose (S.faults source.old) (S.faults source.new) }
    ensures too_long { IsErrOf result Stop.InputTooLong → (extra : ℕ) × Stopped M.meaning (S.left source.old) (S.left source.new)
        (scene world.old steps.old (K.held sink.old)) (scene world.new steps.new (K.held sink.new)) (extra ∷ []) }
    ensures write_fault { IsErrOf result Stop.WriteFault → Broke M.meaning (S.left source.old) (S.left source.new)
        (scene world.old steps.old (K.held sink.old)) (scene world.new steps.new (K.held sink.new)) }
    ensures write_cause { IsErrOf result Stop.WriteFault
        → Rose (K.faults sink.old) (K.faults sink.new) }
    ensures starved { IsErrOf result Stop.Memory → Starved M.meaning (S.left source.old) (S.left source.new)
        (scene world.old steps.old (K.held sink.old)) (scene world.new steps.new (K.held sink.new)) }
    ensures source_later { S.faults source.old ≤ S.faults source.new }
    ensures sink_later { K.faults sink.old ≤ K.faults sink.new }
    ensures counted { steps.old ≤ steps.new }
{
    let mut kept = Bytes::new(alloc);
    let mut reply = Bytes::new(alloc);
    read_lines(source, &mut kept, &mut reply, sink, world, steps)?;
    let line = kept.as_slice();
    if !line.is_empty() {
        answer(line, &mut reply, sink, world, steps)?;
    }
    Ok(())
}
