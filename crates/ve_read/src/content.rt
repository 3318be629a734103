// The parts of content, one after the other.
ghost use Rattle.std.specs.Prelude.{◌≡◌, ◌<◌, ◌≤◌, length, OnOk};
ghost use Rattle.ve_classify.specs.Fits.{IsFit};
ghost use Rattle.ve_classify.specs.Standing.{LeadsOn};
ghost use Rattle.ve_classify.specs.declared.around.Around.TheVariants as around;
ghost use Rattle.ve_classify.specs.declared.around.Fit.TheVariants as fits;
ghost use Rattle.ve_read.specs.Content.{content_limit, with_content};
ghost use Rattle.ve_read.specs.ContentParts.{OfPart, OfParts, SomeParts};
ghost use Rattle.ve_reader.specs.TagAttrs.{TagsFit};
ghost use Rattle.ve_classify.specs.Places.{SomePart};
ghost use Rattle.ve_reader.specs.Stops.{Stops};

use crate::content_leaves::push_single;
use std::alloc::Global;
use ve_classify::{Around, Fit, Part, fit, part_at};
use ve_html_scan::Token;
use ve_html_tree::Forest;
use ve_reader::{ReadStop, Reader, mark_of};

/// An annotation: its mark is around what is in it.
#[cycle(content)]
fn annotation(
    alloc: Global,
    text: &str,
    forest: &Forest<'_>,
    reader: &mut Reader,
    n: usize,
    part: Part,
) -> Result<(), ReadStop>
    requires within { n < length forest.now }
    requires leads { LeadsOn forest.now }
    requires tags { TagsFit forest.now }
    requires part { SomePart text.now forest.now n part.end part.byte }
    requires fit { IsFit forest.now n around.Content fits.Annotation }
    ensures ok { OnOk result (
        OfPart text.now forest.now n part.end part.byte (λ parts at.
        reader.new ≡ with_content parts at reader.old)) }
    ensures limit { OfPart text.now forest.now n part.end part.byte (λ parts at.
        Stops result (content_limit parts at reader.old)) }
{
    let within = n < forest.len();
    prove!(within);
    let first = n + 1;
    let node = forest.node(n);
    let Token::StartTag { name, attrs, .. } = node.token else {
        unreachable!();
    };
    let mark = mark_of(alloc, name, attrs)?;
    reader.enter(mark, node.span.from)?;
    let end = Part {
        end: node.next,
        byte: node.inner.to,
    };
    read_content(alloc, text, forest, reader, first, end)?;
    reader.leave();
    Ok(())
}

/// The part that begins at a node.
#[cycle(content)]
fn read_part(
    alloc: Global,
    text: &str,
    forest: &Forest<'_>,
    reader: &mut Reader,
    n: usize,
    part: Part,
) -> Result<(), ReadStop>
    requires within { n < length forest.now }
    requires leads { LeadsOn forest.now }
    requires tags { TagsFit forest.now }
    requires part { SomePart text.now forest.now n part.end part.byte }
    ensures ok { OnOk result (
        OfPart text.now forest.now n part.end part.byte (λ parts at.
        reader.new ≡ with_content parts at reader.old)) }
    ensures limit { OfPart text.now forest.now n part.end part.byte (λ parts at.
        Stops result (content_limit parts at reader.old)) }
{
    match fit(forest, n, Around::Content) {
        Fit::Annotation => annotation(alloc, text, forest, reader, n, part),
        other => push_single(alloc, text, forest, reader, n, part, other),
    }
}

/// Reads content of a page: the siblings that stand at a node of its forest, up to the node and the
/// byte where they end, inside of the marks around. An `Err` names the first of them that is over a
/// limit, by its byte in the text, or is want of memory.
#[cycle(content)]
pub fn read_content(
    alloc: Global,
    text: &str,
    forest: &Forest<'_>,
    reader: &mut Reader,
    from: usize,
    to: Part,
) -> Result<(), ReadStop>
    requires bound { to.end ≤ length forest.now }
    requires leads { LeadsOn forest.now }
    requires tags { TagsFit forest.now }
    requires stands { SomeParts text.now forest.now from to.end to.byte }
    ensures ok { OnOk result (
        OfParts text.now forest.now from to.end to.byte (λ parts at.
        reader.new ≡ with_content parts at reader.old)) }
    ensures limit { OfParts text.now forest.now from to.end to.byte (λ parts at.
        Stops result (content_limit parts at reader.old)) }
{
    let mut n = from;
    'parts: while n < to.end {
        let part = part_at(forest, n, to.end, to.byte);
        read_part(alloc, text, forest, reader, n, part)?;
        n = part.end;
    }
    Ok(())
}
