// The first unit of siblings: whitespace that waits, a run, or a block.
ghost use Rattle.std.specs.Prelude.{◌≡◌, ◌<◌, ◌≤◌, length, true};
ghost use Rattle.model_page.specs.Fit.{around_in};
ghost use Rattle.ve_classify.specs.Fits.{parent_of};
ghost use Rattle.ve_classify.specs.Standing.{LeadsOn};
ghost use Rattle.ve_classify.specs.declared.around.Around.TheVariants as around;
ghost use Rattle.ve_read.specs.Places.{holds_blocks};
ghost use Rattle.ve_read.specs.Units.{IsTextAt, IsUnitAt, SomeText};

use ve_classify::{Around, Fit, Part, fit, is_in_run, part_at, run_at};
use ve_html_scan::Token;
use ve_html_tree::Forest;
use ve_kinds::{Kind, is_content_branch, is_flow};

/// Which of the three stands first.
#[derive(Clone, Copy, Debug, PartialEq, Eq)]
pub enum Sort {
    /// A text that is whitespace before what follows it.
    White,
    /// A run of a flow parent, which becomes a paragraph.
    Run,
    /// A leaf or a branch.
    Block,
}

/// The first unit of siblings, and where it ends.
#[derive(Clone, Copy, Debug, PartialEq, Eq)]
pub struct Unit {
    pub sort: Sort,
    pub part: Part,
}

/// Where the children of a node of the kind stand.
pub fn around_in(kind: Kind) -> Around
    ensures { parent_of result ≡ around_in kind }
{
    if is_content_branch(kind) {
        Around::Content
    } else if is_flow(kind) {
        Around::Flow(kind)
    } else {
        Around::Structural(kind)
    }
}

/// The text at a node.
pub fn text_at<'a>(forest: &Forest<'a>, n: usize) -> &'a str
    requires within { n < length forest.now }
    requires some { SomeText forest.now n }
    ensures { IsTextAt forest.now n result.now }
{
    let Token::Chars { text, .. } = forest.node(n).token else {
        unreachable!();
    };
    text
}

/// The first unit of the siblings of a flow parent of the kind, which end before the node and the
/// byte of `to`.
fn flow_unit(forest: &Forest<'_>, kind: Kind, n: usize, to: Part) -> Unit
    requires within { n < to.end }
    requires bound { to.end ≤ length forest.now }
    requires leads { LeadsOn forest.now }
    ensures more { n < result.part.end }
    ensures bound { result.part.end ≤ length forest.now }
    ensures unit { IsUnitAt forest.now (parent_of (around.Flow kind)) n to.end to.byte result }
{
    if is_in_run(forest, n) {
        let run = run_at(forest, n, to.end, to.byte);
        if run.white {
            Unit {
                sort: Sort::White,
                part: run.part,
            }
        } else {
            Unit {
                sort: Sort::Run,
                part: run.part,
            }
        }
    } else {
        let part = part_at(forest, n, to.end, to.byte);
        Unit {
            sort: Sort::Block,
            part,
        }
    }
}

/// The same in a structural parent.
fn structural_unit(forest: &Forest<'_>, kind: Kind, n: usize, to: Part) -> Unit
    requires within { n < to.end }
    requires bound { to.end ≤ length forest.now }
    requires leads { LeadsOn forest.now }
    ensures more { n < result.part.end }
    ensures bound { result.part.end ≤ length forest.now }
    ensures unit { IsUnitAt forest.now (parent_of (around.Structural kind)) n to.end to.byte
        result }
{
    let part = part_at(forest, n, to.end, to.byte);
    match fit(forest, n, Around::Structural(kind)) {
        Fit::White => Unit {
            sort: Sort::White,
            part,
        },
        _ => Unit {
            sort: Sort::Block,
            part,
        },
    }
}

/// The first unit of siblings that stand so, and end before the node and the byte of `to`.
pub fn unit_at(forest: &Forest<'_>, around: Around, n: usize, to: Part) -> Unit
    requires within { n < to.end }
    requires bound { to.end ≤ length forest.now }
    requires leads { LeadsOn forest.now }
    requires blocks { holds_blocks (parent_of around) ≡ true }
    ensures more { n < result.part.end }
    ensures bound { result.part.end ≤ length forest.now }
    ensures unit { IsUnitAt forest.now (parent_of around) n to.end to.byte result }
{
    match around {
        Around::Flow(kind) => flow_unit(forest, kind, n, to),
        Around::Structural(kind) => structural_unit(forest, kind, n, to),
        Around::Content => unreachable!(),
    }
}
