// The script as one text.
ghost use Rattle.std.specs.Prelude.{◌≡◌, ◌++◌, ℕ, List, OnOk, OnErr};
ghost use Rattle.model_script.specs.Lines.{with_newlines};
ghost use Rattle.ve_gen.specs.Generated.{script};

use crate::Lines;
use std::alloc::Global;
use ve_base::{Bytes, Memory};

/// Appends all lines that are still to come, each with its newline.
fn push_lines(alloc: Global, lines: &mut Lines, out: &mut Bytes) -> Result<(), Memory>
    ensures ok { OnOk result (out.new ≡ out.old ++ with_newlines lines.old) }
    ensures err { OnErr result ((pushed : List ℕ) × (out.new ≡ out.old ++ pushed)) }
{
    let mut line = Bytes::new(alloc);
    while lines.next(&mut line)? {
        line.push_byte(b'\n')?;
        out.push(line.as_slice())?;
    }
    Ok(())
}

/// Appends the script from this start, with so many edits, each line with its newline. After an
/// `Err` nothing was appended.
pub fn script(alloc: Global, start: u64, edits: u32, out: &mut Bytes) -> Result<(), Memory>
    ensures ok { OnOk result (out.new ≡ out.old ++ script start edits) }
    ensures err { OnErr result (out.new ≡ out.old) }
{
    let before = out.as_slice().len();
    let mut lines = Lines::new(start, edits);
    let pushed = push_lines(alloc, &mut lines, out);
    if pushed.is_err() {
        out.truncate(before);
    }
    pushed
}
