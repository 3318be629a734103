// A piece of the script: the lines that end in it, and the rest.
ghost use Rattle.std.specs.Prelude.{◌≡◌, ◌≤◌, ◌++◌, ◌∷◌, [], ◌⊎◌, OnOk, IsErrOf, MatchOption};
ghost use Rattle.std.specs.Io.KnownBytes.{Appends};
ghost use Rattle.ve_base.specs.Outside.{Rose};
ghost use Rattle.model_script.specs.Lines.{IsLine, newline};
ghost use Rattle.ve_run.specs.Run.{reply_line, scene, AppendsPrefix, Stepped, Answered, BrokeOff, GaveUp};

use crate::Machine;
use crate::answer::answer;
use crate::stop::Stop;
use std::sync::ledger::Ledger;
use ve_base::{Bytes, Sink, Steps};

/// The end of a line.
const NEWLINE: u8 = b'\n';

/// The bytes before the first newline, and those after it.
fn split_line(piece: &[u8]) -> Option<(&[u8], &[u8])>
    ensures { MatchOption result (IsLine piece.now)
        (λ parts. IsLine parts.0.now × (piece.now ≡ parts.0.now ++ newline ∷ parts.1.now)) }
{
    for (at, byte) in piece.iter().enumerate() {
        if *byte == NEWLINE {
            return Some((&piece[..at], &piece[at + 1..]));
        }
    }
    None
}

/// Answers the line that was kept so far and ends with these bytes, and keeps nothing.
fn end_line<K: Sink, M: Machine, L: Ledger>(
    kept: &mut Bytes,
    end: &[u8],
    reply: &mut Bytes,
    sink: &mut K,
    world: &mut M,
    steps: &mut Steps<L>,
) -> Result<(), Stop>
    ensures stepped { OnOk result (Stepped M.meaning
        (scene world.old steps.old (K.held sink.old)) (scene world.new steps.new (K.held sink.new)) (kept.old ++ end.now)) }
    ensures written { OnOk result
        (Appends (K.held sink.old) (K.held sink.new) (reply_line (M.meaning.reply world.old (kept.old ++ end.now)))) }
    ensures nothing { OnOk result (kept.new ≡ []) }
    ensures stepped_at_fault { IsErrOf result Stop.WriteFault → Stepped M.meaning
        (scene world.old steps.old (K.held sink.old)) (scene world.new steps.new (K.held sink.new)) (kept.old ++ end.now) }
    ensures prefix { IsErrOf result Stop.WriteFault
        → AppendsPrefix (K.held sink.old) (K.held sink.new) (reply_line (M.meaning.reply world.old (kept.old ++ end.now))) }
    ensures rose { IsErrOf result Stop.WriteFault → Rose (K.faults sink.old) (K.faults sink.new) }
    ensures starved { IsErrOf result Stop.Memory → K.held sink.new ≡ K.held sink.old }
    ensures sink_alone { IsErrOf result Stop.ReadFault ⊎ IsErrOf result Stop.InputTooLong → ⊥ }
    ensures later { K.faults sink.old ≤ K.faults sink.new }
    ensures counted { steps.old ≤ steps.new }
{
    if kept.as_slice().is_empty() {
        return answer(end, reply, sink, world, steps);
    }
    kept.push(end)?;
    answer(kept.as_slice(), reply, sink, world, steps)?;
    kept.clear();
    Ok(())
}

/// Answers each line that a newline ends, and keeps the rest.
pub fn feed<K: Sink, M: Machine, L: Ledger>(
    piece: &[u8],
    kept: &mut Bytes,
    reply: &mut Bytes,
    sink: &mut K,
    world: &mut M,
    steps: &mut Steps<L>,
) -> Result<(), Stop>
    requires { IsLine kept.old }
    ensures ok { OnOk result (Answered M.meaning
        (scene world.old steps.old (K.held sink.old)) (scene world.new steps.new (K.held sink.new)) (kept.old ++ piece.now) kept.new) }
    ensures broke_off { IsErrOf result Stop.WriteFault → BrokeOff M.meaning
        (scene world.old steps.old (K.held sink.old)) (scene world.new steps.new (K.held sink.new)) (kept.old ++ piece.now) ⊥ }
    ensures rose { IsErrOf result Stop.WriteFault → Rose (K.faults sink.old) (K.faults sink.new) }
    ensures starved { IsErrOf result Stop.Memory → GaveUp M.meaning
        (scene world.old steps.old (K.held sink.old)) (scene world.new steps.new (K.held sink.new)) (kept.old ++ piece.now) }
    ensures sink_alone { IsErrOf result Stop.ReadFault ⊎ IsErrOf result Stop.InputTooLong → ⊥ }
    ensures later { K.faults sink.old ≤ K.faults sink.new }
    ensures counted { steps.old ≤ steps.new }
{
    let mut left = piece;
    'lines: while let Some((end, more)) = split_line(left) {
        end_line(kept, end, reply, sink, world, steps)?;
        left = more;
    }
    kept.push(left)?;
    Ok(())
}
