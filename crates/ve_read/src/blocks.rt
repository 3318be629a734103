// Blocks, one after the other, and their insides.
ghost use Rattle.std.specs.Prelude.{◌≡◌, ◌<◌, ◌≤◌, [], length, true, IfErr, IfOk, OnOk};
ghost use Rattle.model_page.specs.Fit.{around_in as inside};
ghost use Rattle.ve_read.specs.Places.{SomeBlock, SomeSiblings, holds_blocks};
ghost use Rattle.ve_read.specs.Reads.{LeavesWhite, ReadsBlock, ReadsSiblings, ReadsUnit, StopsInBlock, StopsInSiblings, StopsInUnit};
ghost use Rattle.ve_read.specs.Units.{SomeUnit};
ghost use Rattle.ve_classify.specs.Fits.{IsFit, parent_of};
ghost use Rattle.ve_classify.specs.Standing.{LeadsOn};
ghost use Rattle.ve_classify.specs.declared.around.Fit.TheVariants as fits;
ghost use Rattle.ve_reader.specs.TagAttrs.{TagsFit};

use crate::block_leaves::push_leaf;
use crate::paragraph::read_paragraph;
use crate::read_content;
use crate::units::{Sort, Unit, around_in, text_at, unit_at};
use std::alloc::Global;
use ve_classify::{Around, Fit, Part, fit};
use ve_html_scan::{Span, Token};
use ve_html_tree::Forest;
use ve_kinds::Kind;
use ve_reader::{NodeStart, ReadStop, Reader, element_head};

/// A branch, after whitespace: its opening, its inside, and its closing.
#[cycle(blocks)]
fn push_branch(
    alloc: Global,
    text: &str,
    forest: &Forest<'_>,
    reader: &mut Reader,
    around: Around,
    n: usize,
    part: Part,
    white: &str,
    kind: Kind,
) -> Result<(), ReadStop>
    requires within { n < length forest.now }
    requires leads { LeadsOn forest.now }
    requires tags { TagsFit forest.now }
    requires blocks { holds_blocks (parent_of around) ≡ true }
    requires block { SomeBlock text.now forest.now (parent_of around) n part.end part.byte }
    requires fit { IsFit forest.now n around (fits.Branch kind) }
    requires unmarked { reader.old.marks ≡ [] }
    ensures ok { OnOk result (
        ReadsBlock text.now forest.now (parent_of around) n part.end part.byte white.now
        reader.old reader.new) }
    ensures limit { StopsInBlock text.now forest.now (parent_of around) n part.end part.byte
        reader.old result }
{
    let within = n < forest.len();
    prove!(within);
    let first = n + 1;
    let node = forest.node(n);
    let Token::StartTag { attrs, .. } = node.token else {
        unreachable!();
    };
    let head = element_head(alloc, attrs)?;
    let span = Span {
        from: node.span.from,
        to: part.byte,
    };
    let start = NodeStart {
        kind,
        head,
        generated: false,
        span,
    };
    let opened = reader.open(start, white)?;
    let end = Part {
        end: node.next,
        byte: node.inner.to,
    };
    let pre = read_siblings(alloc, text, forest, reader, kind, first, end)?;
    reader.close(opened, pre)?;
    Ok(())
}

/// A block, after whitespace.
#[cycle(blocks)]
fn push_block(
    alloc: Global,
    text: &str,
    forest: &Forest<'_>,
    reader: &mut Reader,
    around: Around,
    n: usize,
    part: Part,
    white: &str,
) -> Result<(), ReadStop>
    requires within { n < length forest.now }
    requires leads { LeadsOn forest.now }
    requires tags { TagsFit forest.now }
    requires blocks { holds_blocks (parent_of around) ≡ true }
    requires block { SomeBlock text.now forest.now (parent_of around) n part.end part.byte }
    requires unmarked { reader.old.marks ≡ [] }
    ensures ok { OnOk result (
        ReadsBlock text.now forest.now (parent_of around) n part.end part.byte white.now
        reader.old reader.new) }
    ensures limit { StopsInBlock text.now forest.now (parent_of around) n part.end part.byte
        reader.old result }
{
    match fit(forest, n, around) {
        Fit::Branch(kind) => push_branch(alloc, text, forest, reader, around, n, part, white, kind),
        other => push_leaf(alloc, text, forest, reader, around, n, part, white, other),
    }
}

/// Reads the first unit, where this whitespace is waiting; it gives the whitespace that is waiting
/// then.
#[cycle(blocks)]
fn push_unit<'a>(
    alloc: Global,
    text: &str,
    forest: &Forest<'a>,
    reader: &mut Reader,
    around: Around,
    n: usize,
    white: &str,
    unit: Unit,
) -> Result<&'a str, ReadStop>
    requires within { n < unit.part.end }
    requires bound { unit.part.end ≤ length forest.now }
    requires leads { LeadsOn forest.now }
    requires tags { TagsFit forest.now }
    requires blocks { holds_blocks (parent_of around) ≡ true }
    requires unit { SomeUnit text.now forest.now (parent_of around) n unit }
    requires unmarked { reader.old.marks ≡ [] }
    ensures ok { IfOk result (λ next.
        ReadsUnit text.now forest.now (parent_of around) n unit white.now next.now reader.old
        reader.new) }
    ensures unmarked { OnOk result (reader.new.marks ≡ []) }
    ensures limit { IfErr result (λ e.
        StopsInUnit text.now forest.now (parent_of around) n unit white.now reader.old e) }
{
    match unit.sort {
        Sort::White => Ok(text_at(forest, n)),
        Sort::Run => {
            read_paragraph(alloc, text, forest, reader, n, unit.part)?;
            Ok("")
        }
        Sort::Block => {
            push_block(alloc, text, forest, reader, around, n, unit.part, white)?;
            Ok("")
        }
    }
}

/// All siblings of a parent that holds blocks.
#[cycle(blocks)]
fn read_blocks<'a>(
    alloc: Global,
    text: &str,
    forest: &Forest<'a>,
    reader: &mut Reader,
    around: Around,
    from: usize,
    to: Part,
) -> Result<&'a str, ReadStop>
    requires bound { to.end ≤ length forest.now }
    requires leads { LeadsOn forest.now }
    requires tags { TagsFit forest.now }
    requires blocks { holds_blocks (parent_of around) ≡ true }
    requires stands { SomeSiblings text.now forest.now from to.end to.byte }
    requires unmarked { reader.old.marks ≡ [] }
    ensures ok { OnOk result (
        ReadsSiblings text.now forest.now (parent_of around) from to.end to.byte reader.old
        reader.new) }
    ensures white { IfOk result (λ white.
        LeavesWhite text.now forest.now (parent_of around) from to.end to.byte reader.old
        white.now) }
    ensures limit { StopsInSiblings text.now forest.now (parent_of around) from to.end to.byte
        reader.old result }
{
    let mut n = from;
    let mut white: &'a str = "";
    'siblings: while n < to.end {
        let unit = unit_at(forest, around, n, to);
        white = push_unit(alloc, text, forest, reader, around, n, white, unit)?;
        n = unit.part.end;
    }
    Ok(white)
}

/// Reads all siblings of a page that stand at a node of its forest, up to the node and the byte
/// where they end. They are read as the inside of a node of the kind, where no mark is around. It
/// gives the whitespace after the last of them. An `Err` names the first of them that is over a
/// limit, by its byte in the text, or is want of memory. Some of them may have been read then.
#[cycle(blocks)]
pub fn read_siblings<'a>(
    alloc: Global,
    text: &str,
    forest: &Forest<'a>,
    reader: &mut Reader,
    kind: Kind,
    from: usize,
    to: Part,
) -> Result<&'a str, ReadStop>
    requires bound { to.end ≤ length forest.now }
    requires leads { LeadsOn forest.now }
    requires tags { TagsFit forest.now }
    requires stands { SomeSiblings text.now forest.now from to.end to.byte }
    requires unmarked { reader.old.marks ≡ [] }
    ensures ok { OnOk result (
        ReadsSiblings text.now forest.now (inside kind) from to.end to.byte reader.old
        reader.new) }
    ensures white { IfOk result (λ white.
        LeavesWhite text.now forest.now (inside kind) from to.end to.byte reader.old
        white.now) }
    ensures limit { StopsInSiblings text.now forest.now (inside kind) from to.end to.byte reader.old
        result }
{
    match around_in(kind) {
        Around::Content => {
            read_content(alloc, text, forest, reader, from, to)?;
            Ok("")
        }
        around => read_blocks(alloc, text, forest, reader, around, from, to),
    }
}
