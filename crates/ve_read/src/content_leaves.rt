// A part that has no parts in it: characters, or a leaf.
ghost use Rattle.std.specs.Prelude.{◌≡◌, ◌≢◌, ◌<◌, length, OnOk};
ghost use Rattle.ve_classify.specs.Fits.{IsFit};
ghost use Rattle.ve_classify.specs.Standing.{LeadsOn};
ghost use Rattle.ve_classify.specs.declared.around.Around.TheVariants as around;
ghost use Rattle.ve_classify.specs.declared.around.Fit.TheVariants as fits;
ghost use Rattle.ve_read.specs.Content.{content_limit, whole_limit, with_content, with_whole};
ghost use Rattle.ve_read.specs.ContentParts.{OfPart};
ghost use Rattle.ve_reader.specs.TagAttrs.{TagsFit};
ghost use Rattle.ve_classify.specs.Places.{SomePart};
ghost use Rattle.ve_reader.specs.Stops.{Stops};

use crate::references::push_generated;
use std::alloc::Global;
use ve_classify::{Fit, Part, part_source};
use ve_html_scan::{Span, Token};
use ve_html_tree::Forest;
use ve_kinds::Kind;
use ve_reader::{ReadStop, Reader, element_head, whole_head};

/// A leaf that keeps the source of its part, and is no reference.
pub fn push_whole_leaf(
    alloc: Global,
    text: &str,
    forest: &Forest<'_>,
    reader: &mut Reader,
    n: usize,
    part: Part,
    kind: Kind,
) -> Result<(), ReadStop>
    requires within { n < length forest.now }
    requires part { SomePart text.now forest.now n part.end part.byte }
    ensures ok { OnOk result (
        OfPart text.now forest.now n part.end part.byte (λ parts at.
        reader.new ≡ with_whole kind parts at reader.old)) }
    ensures limit { OfPart text.now forest.now n part.end part.byte (λ parts at.
        Stops result (whole_limit kind parts at reader.old)) }
{
    let source = part_source(text, forest, n, part);
    let head = whole_head(alloc, source)?;
    let from = forest.node(n).span.from;
    let to = part.byte;
    reader.push_leaf(kind, head, Span { from, to })
}

/// A part that is one leaf with its source: what is generated may be a reference, and nothing else.
fn push_whole(
    alloc: Global,
    text: &str,
    forest: &Forest<'_>,
    reader: &mut Reader,
    n: usize,
    part: Part,
    kind: Kind,
) -> Result<(), ReadStop>
    requires within { n < length forest.now }
    requires leads { LeadsOn forest.now }
    requires tags { TagsFit forest.now }
    requires part { SomePart text.now forest.now n part.end part.byte }
    requires fit { IsFit forest.now n around.Content (fits.Whole kind) }
    ensures ok { OnOk result (
        OfPart text.now forest.now n part.end part.byte (λ parts at.
        reader.new ≡ with_content parts at reader.old)) }
    ensures limit { OfPart text.now forest.now n part.end part.byte (λ parts at.
        Stops result (content_limit parts at reader.old)) }
{
    match kind {
        Kind::TransInline => push_generated(alloc, text, forest, reader, n, part),
        _ => push_whole_leaf(alloc, text, forest, reader, n, part, kind),
    }
}

/// A part that is no annotation, by its fit.
pub fn push_single(
    alloc: Global,
    text: &str,
    forest: &Forest<'_>,
    reader: &mut Reader,
    n: usize,
    part: Part,
    fit: Fit,
) -> Result<(), ReadStop>
    requires within { n < length forest.now }
    requires leads { LeadsOn forest.now }
    requires tags { TagsFit forest.now }
    requires part { SomePart text.now forest.now n part.end part.byte }
    requires fit { IsFit forest.now n around.Content fit }
    requires single { fit ≢ fits.Annotation }
    ensures ok { OnOk result (
        OfPart text.now forest.now n part.end part.byte (λ parts at.
        reader.new ≡ with_content parts at reader.old)) }
    ensures limit { OfPart text.now forest.now n part.end part.byte (λ parts at.
        Stops result (content_limit parts at reader.old)) }
{
    let node = forest.node(n);
    match fit {
        Fit::Chars => {
            let Token::Chars { text: spelled, .. } = node.token else {
                unreachable!();
            };
            reader.push_text(spelled)?;
            Ok(())
        }
        Fit::Leaf(kind) => {
            let Token::StartTag { attrs, .. } = node.token else {
                unreachable!();
            };
            let head = element_head(alloc, attrs)?;
            let span = Span {
                from: node.span.from,
                to: part.byte,
            };
            reader.push_leaf(kind, head, span)
        }
        Fit::Whole(kind) => push_whole(alloc, text, forest, reader, n, part, kind),
        Fit::White | Fit::Annotation | Fit::Branch(_) | Fit::Inline => unreachable!(),
    }
}
