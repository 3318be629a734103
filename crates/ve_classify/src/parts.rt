// The first part of siblings.
ghost use Rattle.std.specs.Prelude.{◌≡◌, ◌<◌, ◌≤◌, length, Some, slice_get};
ghost use Rattle.ve_html_tree.specs.declared.node.Node.{Node};
ghost use Rattle.ve_classify.specs.Standing.{LeadsOn};
ghost use Rattle.ve_classify.specs.Places.{IsPartEnd, IsPartSource, IsPastPart, SomePart};

use crate::{group_end, is_held};
use ve_html_scan::Token;
use ve_html_tree::Forest;

/// Where the first part of siblings ends: before this node and this byte.
#[derive(Clone, Copy, Debug, PartialEq, Eq)]
pub struct Part {
    pub end: usize,
    pub byte: usize,
}

/// The number past the first part of siblings.
fn part_end(forest: &Forest<'_>, n: usize) -> usize
    requires within { n < length forest.now }
    requires leads { LeadsOn forest.now }
    ensures more { n < result }
    ensures bound { result ≤ length forest.now }
    ensures end { IsPastPart forest.now n result }
{
    match forest.node(n).token {
        Token::StartTag { attrs, .. } => {
            if is_held(attrs) {
                group_end(forest, n)
            } else {
                forest.node(n).next
            }
        }
        _ => forest.node(n).next,
    }
}

/// The byte where a part ends: where the next node begins, or that of the range's end.
fn byte_at(forest: &Forest<'_>, end: usize, to: usize, byte: usize) -> usize
    requires { to ≤ length forest.now }
    ensures inside { (x : Node)
        → slice_get forest.now end ≡ Some x
        → end < to
        → result ≡ x.span.from }
    ensures last { to ≤ end → result ≡ byte }
{
    if end < to {
        forest.node(end).span.from
    } else {
        byte
    }
}

/// Where the first part of the siblings at a node ends, of which some number of parts reach up to a
/// node and a byte.
pub fn part_at(forest: &Forest<'_>, n: usize, to: usize, byte: usize) -> Part
    requires within { n < to }
    requires bound { to ≤ length forest.now }
    requires leads { LeadsOn forest.now }
    ensures more { n < result.end }
    ensures bound { result.end ≤ length forest.now }
    ensures part { IsPartEnd forest.now n to byte result.end result.byte }
{
    let end = part_end(forest, n);
    let byte = byte_at(forest, end, to, byte);
    Part { end, byte }
}

/// The source of the part that begins at a node.
pub fn part_source<'a>(text: &'a str, forest: &Forest<'_>, n: usize, part: Part) -> &'a str
    requires within { n < length forest.now }
    requires part { SomePart text.now forest.now n part.end part.byte }
    ensures { IsPartSource text.now forest.now n part.end part.byte result.now }
{
    let from = forest.node(n).span.from;
    &text[from..part.byte]
}
