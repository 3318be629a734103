// A leaf that stands as a block.
ghost use Rattle.std.specs.Prelude.{◌≢◌, ◌<◌, length, OnOk};
ghost use Rattle.ve_read.specs.Places.{SomeBlock};
ghost use Rattle.ve_read.specs.Reads.{ReadsBlock, StopsInBlock};
ghost use Rattle.ve_classify.specs.Fits.{IsFit, parent_of};
ghost use Rattle.ve_classify.specs.declared.around.Fit.TheVariants as fits;
ghost use Rattle.ve_kinds.specs.declared.kind.Kind.{Kind};

use std::alloc::Global;
use ve_classify::{Around, Fit, Part, part_source};
use ve_html_scan::Span;
use ve_html_tree::Forest;
use ve_reader::{ReadStop, Reader, whole_head};

/// A block that is no branch, after whitespace, by its fit: a leaf that keeps its source.
pub fn push_leaf(
    alloc: Global,
    text: &str,
    forest: &Forest<'_>,
    reader: &mut Reader,
    around: Around,
    n: usize,
    part: Part,
    white: &str,
    fit: Fit,
) -> Result<(), ReadStop>
    requires within { n < length forest.now }
    requires block { SomeBlock text.now forest.now (parent_of around) n part.end part.byte }
    requires fit { IsFit forest.now n around fit }
    requires leaf { (kind : Kind) → fit ≢ fits.Branch kind }
    ensures ok { OnOk result (
        ReadsBlock text.now forest.now (parent_of around) n part.end part.byte white.now
        reader.old reader.new) }
    ensures limit { StopsInBlock text.now forest.now (parent_of around) n part.end part.byte
        reader.old result }
{
    let Fit::Whole(kind) = fit else {
        unreachable!();
    };
    let source = part_source(text, forest, n, part);
    let head = whole_head(alloc, source)?;
    let from = forest.node(n).span.from;
    let span = Span {
        from,
        to: part.byte,
    };
    reader.push_block_leaf(kind, head, white, span)
}
