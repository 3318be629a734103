// One line and its reply.
ghost use Rattle.std.specs.Prelude.{◌≡◌, ◌≤◌, ◌⊎◌, OnOk, OnErr, IsErrOf};
ghost use Rattle.std.specs.Io.KnownBytes.{Appends};
ghost use Rattle.ve_base.specs.Outside.{HasCause, Rose};
ghost use Rattle.ve_run.specs.Run.{reply_line, scene, AppendsPrefix, Stepped};

use crate::Machine;
use crate::stop::Stop;
use std::sync::ledger::Ledger;
use ve_base::{Bytes, Failed, Sink, Steps};

/// Writes a whole piece. At an `Err` a prefix of it was written.
pub fn write_all<K: Sink>(sink: &mut K, piece: &[u8]) -> Result<(), Failed>
    ensures ok { OnOk result (Appends (K.held sink.old) (K.held sink.new) piece.now) }
    ensures err { OnErr result (AppendsPrefix (K.held sink.old) (K.held sink.new) piece.now) }
    ensures cause { HasCause (K.faults sink.old) (K.faults sink.new) result }
{
    let mut rest = piece;
    while !rest.is_empty() {
        let taken = sink.write(rest)?;
        rest = &rest[taken..];
    }
    Ok(())
}

/// Steps the machine with a line, and writes its reply as one piece. It is written into `reply`,
/// over its former content.
pub fn answer<K: Sink, M: Machine, L: Ledger>(
    line: &[u8],
    reply: &mut Bytes,
    sink: &mut K,
    world: &mut M,
    steps: &mut Steps<L>,
) -> Result<(), Stop>
    ensures stepped { OnOk result (Stepped M.meaning
        (scene world.old steps.old (K.held sink.old)) (scene world.new steps.new (K.held sink.new)) line.now) }
    ensures written { OnOk result
        (Appends (K.held sink.old) (K.held sink.new) (reply_line (M.meaning.reply world.old line.now))) }
    ensures stepped_at_fault { IsErrOf result Stop.WriteFault → Stepped M.meaning
        (scene world.old steps.old (K.held sink.old)) (scene world.new steps.new (K.held sink.new)) line.now }
    ensures prefix { IsErrOf result Stop.WriteFault
        → AppendsPrefix (K.held sink.old) (K.held sink.new) (reply_line (M.meaning.reply world.old line.now)) }
    ensures rose { IsErrOf result Stop.WriteFault → Rose (K.faults sink.old) (K.faults sink.new) }
    ensures starved { IsErrOf result Stop.Memory → K.held sink.new ≡ K.held sink.old }
    ensures sink_alone { IsErrOf result Stop.ReadFault ⊎ IsErrOf result Stop.InputTooLong → ⊥ }
    ensures later { K.faults sink.old ≤ K.faults sink.new }
    ensures counted { steps.old ≤ steps.new }
{
    reply.clear();
    world.step(line, reply, steps)?;
    write_all(sink, reply.as_slice())?;
    Ok(())
}
