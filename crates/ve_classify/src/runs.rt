// Runs of a flow parent.
ghost use Rattle.std.specs.Prelude.{◌≡◌, ◌<◌, ◌≤◌, length};
ghost use Rattle.ve_classify.specs.Standing.{LeadsOn};
ghost use Rattle.ve_classify.specs.Units.{IsInRun, IsRunAt};

use crate::{Around, Fit, Part, fit, is_white_text, part_at};
use ve_html_tree::Forest;
use ve_kinds::Kind;

/// A run of a flow parent: where it ends, and whether it is whitespace alone.
#[derive(Clone, Copy, Debug, PartialEq, Eq)]
pub struct RunPart {
    pub part: Part,
    pub white: bool,
}

/// Whether the part that begins at a node is a part of a run in a flow parent, of whatever kind
/// that is.
pub fn is_in_run(forest: &Forest<'_>, n: usize) -> bool
    requires within { n < length forest.now }
    requires leads { LeadsOn forest.now }
    ensures { IsInRun forest.now n result }
{
    match fit(forest, n, Around::Flow(Kind::Root)) {
        Fit::Inline => true,
        _ => false,
    }
}

/// The run that begins at a node of a flow parent, whose children end before the node `to` and that
/// byte.
pub fn run_at(forest: &Forest<'_>, n: usize, to: usize, byte: usize) -> RunPart
    requires within { n < to }
    requires bound { to ≤ length forest.now }
    requires leads { LeadsOn forest.now }
    ensures more { n < result.part.end }
    ensures bound { result.part.end ≤ length forest.now }
    ensures run { IsRunAt forest.now n to byte result.part.end result.part.byte result.white }
{
    let mut part = part_at(forest, n, to, byte);
    let mut white = is_white_text(&forest.node(n).token);
    'parts: while part.end < to && is_in_run(forest, part.end) {
        let text = is_white_text(&forest.node(part.end).token);
        white = white && text;
        part = part_at(forest, part.end, to, byte);
    }
    RunPart { part, white }
}
