// The script, line by line.
ghost use Rattle.std.specs.Prelude.{◌≡◌, ◌∷◌, [], IfOk, MatchBool};
ghost use Rattle.ve_gen.specs.Generated.{script_lines};

use crate::edits::push_edit;
use crate::opening::{push_html, push_open};
use std::marker::Model;
use ve_base::{Bytes, Memory};

/// The next line.
#[derive(Clone, Copy)]
enum Stage {
    /// The line that opens the page, and all that follows it.
    Whole,
    /// An edit where one is left, else the last line.
    Edits,
    /// Nothing.
    Over,
}

/// The lines of a script that are still to come. They are seen as a list.
#[derive(Drop)]
pub struct Lines {
    stage: Stage,
    state: u64,
    edits: u32,
}

impl Model for Lines {
    ghost use Rattle.std.specs.Prelude.{ℕ, List};
    ghost use Rattle.std.specs.Coded.{coded_ℕ, coded_list};
    ghost use Rattle.ve_gen.specs.Ahead.{lines_ahead};

    ghost Value = { List (List ℕ) };

    ghost coded = { coded_list (coded_list coded_ℕ) };

    ghost view = { λ lines. lines_ahead lines.stage lines.state lines.edits };
}

impl Lines {
    /// All lines of the script from this start, with so many edits. It takes no memory.
    pub fn new(start: u64, edits: u32) -> Lines
        ensures { result ≡ script_lines start edits }
    {
        Lines {
            stage: Stage::Whole,
            state: start,
            edits,
        }
    }

    /// Writes the next line, without its newline, over the buffer. It answers whether there was
    /// one.
    pub fn next(&mut self, line: &mut Bytes) -> Result<bool, Memory>
        ensures { IfOk result (λ some.
            MatchBool some (self.old ≡ line.new ∷ self.new) (self.old ≡ [])) }
    {
        line.clear();
        match self.stage {
            Stage::Over => Ok(false),
            Stage::Whole => {
                push_open(line)?;
                self.stage = Stage::Edits;
                Ok(true)
            }
            Stage::Edits if self.edits == 0 => {
                push_html(line)?;
                self.stage = Stage::Over;
                Ok(true)
            }
            Stage::Edits => {
                push_edit(&mut self.state, line)?;
                self.edits -= 1;
                Ok(true)
            }
        }
    }
}
