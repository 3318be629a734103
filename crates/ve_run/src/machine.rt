// Machines that a script is run on.
ghost use Rattle.std.specs.Prelude.{◌≡◌, ◌+◌, ◌≤◌, ◌++◌, ◌∷◌, [], OnErr, OnOk};
ghost use Rattle.model_script.specs.Output.{Meaning};
ghost use Rattle.model_world.specs.declared.reply.Reply.{Reply};
ghost use Rattle.model_world.specs.Spelled.{reply_text};

use std::sync::ledger::Ledger;
use ve_base::{Bytes, Memory, Steps};

/// Answers lines, one after another. What it means is fixed by its state and the line alone.
pub trait Machine {
    /// The reply to a line, the state after it, and how many steps it takes at most.
    ghost meaning: { Meaning Self Reply };

    /// Answers a line, which is given without its newline: appends the text of its reply and a
    /// newline. After an `Err` nothing is known of the state, and nothing was appended.
    fn step<L: Ledger>(
        &mut self,
        line: &[u8],
        out: &mut Bytes,
        steps: &mut Steps<L>,
    ) -> Result<(), Memory>
        ensures reply { OnOk result (
            out.new ≡ out.old ++ (reply_text (meaning.reply self.old line.now) ++ 10 ∷ [])) }
        ensures unsaid { OnErr result (out.new ≡ out.old) }
        ensures state { OnOk result (self.new ≡ meaning.next self.old line.now) }
        ensures counted { steps.old ≤ steps.new }
        ensures cost { OnOk result (steps.new ≤ steps.old + meaning.cost self.old line.now) };
}
