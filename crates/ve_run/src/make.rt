// The generated script, written.
ghost use Rattle.std.specs.Prelude.{◌≡◌, ◌≤◌, ◌⊎◌, OnOk, OnErr, IsErrOf};
ghost use Rattle.std.specs.Io.KnownBytes.{Appends};
ghost use Rattle.ve_base.specs.Outside.{Rose};
ghost use Rattle.model_script.specs.Lines.{with_newlines};
ghost use Rattle.ve_gen.specs.Generated.{script};
ghost use Rattle.ve_run.specs.Run.{AppendsPrefix};

use crate::answer::write_all;
use crate::stop::Stop;
use std::alloc::Global;
use ve_base::{Bytes, Sink};
use ve_gen::Lines;

/// Writes all lines that are still to come, each with its newline as one piece. They are made in
/// `line`.
fn write_lines<K: Sink>(lines: &mut Lines, line: &mut Bytes, sink: &mut K) -> Result<(), Stop>
    ensures ok { OnOk result (
        Appends (K.held sink.old) (K.held sink.new) (with_newlines lines.old)) }
    ensures err { OnErr result (
        AppendsPrefix (K.held sink.old) (K.held sink.new) (with_newlines lines.old)) }
    ensures rose { IsErrOf result Stop.WriteFault → Rose (K.faults sink.old) (K.faults sink.new) }
    ensures sink_alone { IsErrOf result Stop.ReadFault ⊎ IsErrOf result Stop.InputTooLong → ⊥ }
    ensures later { K.faults sink.old ≤ K.faults sink.new }
{
    'lines: while lines.next(line)? {
        line.push_byte(b'\n')?;
        write_all(sink, line.as_slice())?;
    }
    Ok(())
}

/// Writes the script from this start, with so many edits.
pub fn make<K: Sink>(alloc: Global, start: u64, edits: u32, sink: &mut K) -> Result<(), Stop>
    ensures ok { OnOk result (Appends (K.held sink.old) (K.held sink.new) (script start edits)) }
    ensures err { OnErr result (
        AppendsPrefix (K.held sink.old) (K.held sink.new) (script start edits)) }
    ensures rose { IsErrOf result Stop.WriteFault → Rose (K.faults sink.old) (K.faults sink.new) }
    ensures sink_alone { IsErrOf result Stop.ReadFault ⊎ IsErrOf result Stop.InputTooLong → ⊥ }
    ensures later { K.faults sink.old ≤ K.faults sink.new }
{
    let mut lines = Lines::new(start, edits);
    let mut line = Bytes::new(alloc);
    write_lines(&mut lines, &mut line, sink)
}
