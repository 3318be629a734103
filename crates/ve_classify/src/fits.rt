// The fit of a text, a comment, an element or a group, by its parent.
ghost use Rattle.std.specs.Prelude.{◌≡◌, ◌<◌, ◌≤◌, ◌+◌, length, true, None};
ghost use Rattle.model_spelling.specs.Grammar as g;
ghost use Rattle.model_page.specs.Parts.{Ended, parts_of};
ghost use Rattle.model_page.specs.Fit as model;
ghost use Rattle.ve_kinds.specs.Tags.{kind_of_tag as kind_spelled, inline_tags, is_one_of, is_raw};
ghost use Rattle.ve_html_scan.specs.Shown.{ShowsToken};
ghost use Rattle.ve_classify.specs.Standing.{LeadsOn};
ghost use Rattle.ve_classify.specs.Fits as spec;

use crate::around::{Around, Fit};
use crate::groups::group_end;
use crate::types::TypeTest;
use crate::values::{has_type, is_held, is_white_text};
use ve_html_scan::Token;
use ve_html_tree::Forest;
use ve_kinds::{
    Kind, is_annotation_tag, is_inline_leaf, is_inline_tag, is_structural, kind_of_tag, may_hold,
};

/// A test of the elements of a group.
#[derive(Clone, Copy, Debug, PartialEq, Eq)]
pub enum GroupTest {
    /// A type of what a wiki generates.
    Generated,
    /// A tag that doesn't stand within a line.
    BlockTag,
}

fn passes(token: &Token<'_>, test: GroupTest) -> bool
    ensures { (k : g.Token) → ShowsToken token.now k → result ≡ spec.token_passes test k }
{
    match *token {
        Token::StartTag { name, attrs, .. } => {
            match test {
                GroupTest::Generated => has_type(attrs, TypeTest::Generator),
                GroupTest::BlockTag => !is_inline_tag(name),
            }
        }
        _ => false,
    }
}

/// Whether some of the siblings in a range, up to its end, is an element that passes the test.
fn some_element(forest: &Forest<'_>, from: usize, to: usize, test: GroupTest) -> bool
    requires within { to ≤ length forest.now }
    requires leads { LeadsOn forest.now }
    ensures { spec.OfSiblings forest.now from to (model.some_element (spec.element_passes test))
        result }
{
    let mut n = from;
    while n < to {
        let node = forest.node(n);
        if passes(&node.token, test) {
            return true;
        }
        n = node.next;
    }
    false
}

/// Whether a token begins no inline content. It is a text of whitespace alone, or neither a text
/// nor an element of an inline tag that isn't kept whole.
fn is_block(token: &Token<'_>) -> bool
    ensures { (k : g.Token) → ShowsToken token.now k → result ≡ spec.token_block k }
{
    match *token {
        Token::StartTag { name, attrs, .. } => is_held(attrs) || !is_inline_tag(name),
        Token::Chars { .. } => is_white_text(token),
        _ => true,
    }
}

/// Whether the siblings in a range are blocks alone.
fn blocks_alone(forest: &Forest<'_>, from: usize, to: usize) -> bool
    requires within { to ≤ length forest.now }
    requires leads { LeadsOn forest.now }
    ensures { spec.OfSiblings forest.now from to (λ f. model.has_blocks_alone (parts_of f)) result }
{
    let mut n = from;
    while n < to {
        let node = forest.node(n);
        if !is_block(&node.token) {
            return false;
        }
        n = node.next;
    }
    true
}

fn content_fit(name: &str, has_child: bool) -> Fit
    ensures { result ≡ spec.content_fit name.now has_child (kind_spelled name.now) }
{
    match kind_of_tag(name) {
        Some(Kind::Br) => Fit::Leaf(Kind::Br),
        Some(Kind::Img) => Fit::Leaf(Kind::Img),
        _ => {
            if is_annotation_tag(name) && has_child {
                Fit::Annotation
            } else {
                Fit::Whole(Kind::AlienInline)
            }
        }
    }
}

/// The number of the first node in an element, where it has one.
fn first_child(forest: &Forest<'_>, n: usize) -> usize
    requires { n < length forest.now }
    ensures { result ≡ n + 1 }
{
    let within = n < forest.len();
    prove!(within);
    n + 1
}

fn block_fit(forest: &Forest<'_>, n: usize, name: &str, parent: Kind) -> Fit
    requires within { n < length forest.now }
    requires leads { LeadsOn forest.now }
    ensures fit { spec.OfChildren forest.now n
        (λ parts. spec.block_fit parent parts (kind_spelled name.now)) result }
    ensures none { kind_spelled name.now ≡ None → result ≡ spec.block_fit parent Ended None }
{
    let first = first_child(forest, n);
    let next = forest.node(n).next;
    match kind_of_tag(name) {
        Some(kind) => {
            if may_hold(parent, kind)
                && (!is_structural(kind) || blocks_alone(forest, first, next))
            {
                Fit::Branch(kind)
            } else {
                Fit::Whole(Kind::AlienBlock)
            }
        }
        None => Fit::Whole(Kind::AlienBlock),
    }
}

/// Whether elements of this tag stand within a line. Tags of kinds are told first, since most
/// elements have one, and the others are many.
fn stands_in_line(name: &str) -> bool
    ensures { result ≡ is_one_of inline_tags name.now }
{
    if let Some(kind) = kind_of_tag(name) {
        return is_inline_leaf(kind);
    }
    is_inline_tag(name)
}

/// The fit of an element that isn't kept whole.
fn element_fit(forest: &Forest<'_>, n: usize, name: &str, around: Around) -> Fit
    requires within { n < length forest.now }
    requires leads { LeadsOn forest.now }
    ensures fit { spec.OfChildren forest.now n (spec.element_fit (spec.parent_of around) name.now)
        result }
    ensures raw { is_raw name.now ≡ true
        → result ≡ spec.element_fit (spec.parent_of around) name.now Ended }
{
    let has_child = first_child(forest, n) < forest.node(n).next;
    match around {
        Around::Content => content_fit(name, has_child),
        Around::Structural(parent) => block_fit(forest, n, name, parent),
        Around::Flow(parent) => {
            if stands_in_line(name) {
                Fit::Inline
            } else {
                block_fit(forest, n, name, parent)
            }
        }
    }
}

fn whole_kind(generated: bool, inline: bool) -> Kind
    ensures { result ≡ model.whole_kind generated inline }
{
    match (generated, inline) {
        (true, true) => Kind::TransInline,
        (true, false) => Kind::TransBlock,
        (false, true) => Kind::AlienInline,
        (false, false) => Kind::AlienBlock,
    }
}

/// The fit of the group that begins at a node.
fn group_fit(forest: &Forest<'_>, n: usize, around: Around) -> Fit
    requires within { n < length forest.now }
    requires leads { LeadsOn forest.now }
    ensures { spec.IsGroupFit forest.now n around result }
{
    let end = group_end(forest, n);
    let generated = some_element(forest, n, end, GroupTest::Generated);
    match around {
        Around::Content => Fit::Whole(whole_kind(generated, true)),
        Around::Structural(_) => Fit::Whole(whole_kind(generated, false)),
        Around::Flow(_) => {
            if some_element(forest, n, end, GroupTest::BlockTag) {
                Fit::Whole(whole_kind(generated, false))
            } else {
                Fit::Inline
            }
        }
    }
}

fn note_kind(around: Around) -> Kind
    ensures { result ≡ model.note_kind (spec.parent_of around) }
{
    match around {
        Around::Content => Kind::AlienInline,
        Around::Structural(_) | Around::Flow(_) => Kind::AlienBlock,
    }
}

fn words_fit(around: Around) -> Fit
    ensures { result ≡ spec.words_fit (spec.parent_of around) }
{
    match around {
        Around::Content => Fit::Chars,
        Around::Structural(_) => Fit::White,
        Around::Flow(_) => Fit::Inline,
    }
}

/// The fit of what begins at a node, where that isn't inside a group. A group that is a reference
/// is taken as any other.
pub fn fit(forest: &Forest<'_>, n: usize, around: Around) -> Fit
    requires within { n < length forest.now }
    requires leads { LeadsOn forest.now }
    ensures { spec.IsFit forest.now n around result }
{
    match forest.node(n).token {
        Token::StartTag { name, attrs, .. } => {
            if is_held(attrs) {
                group_fit(forest, n, around)
            } else {
                element_fit(forest, n, name, around)
            }
        }
        Token::Comment { .. } => Fit::Whole(note_kind(around)),
        _ => words_fit(around),
    }
}
