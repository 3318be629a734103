// Groups: the most sibling elements that share one `about`, with whitespace alone between them.
ghost use Rattle.std.specs.Prelude.{◌≡◌, ◌<◌, ◌≤◌, Some, length, option_map, IfSome};
ghost use Rattle.model_spelling.specs.Grammar as g;
ghost use Rattle.model_spelling.specs.Written as written;
ghost use Rattle.model_page.specs.Parts.{is_shared};
ghost use Rattle.ve_html_scan.specs.Shown.{ShowsToken};
ghost use Rattle.ve_classify.specs.Standing.{LeadsOn};
ghost use Rattle.ve_classify.specs.Groups.{IsGroupEnd, IsSiblingAfter, IsNextInGroup, token_about};

use crate::values::{is_white_text, spelled_value};
use ve_html_scan::{Token, decoded_same};
use ve_html_tree::Forest;

/// The value of `about`, as it stands in the page, of an element that has one.
pub fn about_of<'a>(token: &Token<'a>) -> Option<&'a str>
    ensures { (k : g.Token)
        → ShowsToken token.now k
        → option_map (λ v. written.decoded v.now) result ≡ token_about k }
{
    match *token {
        Token::StartTag { attrs, .. } => spelled_value(attrs, "about"),
        _ => None,
    }
}

/// Whether an element has an `about` that says the same.
fn shares(token: &Token<'_>, about: &str) -> bool
    ensures { (k : g.Token)
        → ShowsToken token.now k
        → result ≡ is_shared (Some (written.decoded about.now)) (token_about k) }
{
    match about_of(token) {
        Some(other) => decoded_same(about, other),
        None => false,
    }
}

/// The number of the next sibling. Between a node and what follows its parent stands an end tag, so
/// that they don't touch.
pub fn sibling_after(forest: &Forest<'_>, n: usize) -> Option<usize>
    requires within { n < length forest.now }
    requires leads { LeadsOn forest.now }
    ensures bound { IfSome result (λ m. (n < m) × (m < length forest.now)) }
    ensures sibling { IsSiblingAfter forest.now n result }
{
    let node = forest.node(n);
    if node.next == forest.len() {
        return None;
    }
    if forest.node(node.next).span.from != node.span.to {
        return None;
    }
    Some(node.next)
}

/// The next element of a group, after an element of it.
fn next_in_group(forest: &Forest<'_>, n: usize, about: &str) -> Option<usize>
    requires within { n < length forest.now }
    requires leads { LeadsOn forest.now }
    ensures bound { IfSome result (λ m. (n < m) × (m < length forest.now)) }
    ensures joins { IsNextInGroup forest.now n (written.decoded about.now) result }
{
    let Some(after) = sibling_after(forest, n) else {
        return None;
    };
    if shares(&forest.node(after).token, about) {
        return Some(after);
    }
    if !is_white_text(&forest.node(after).token) {
        return None;
    }
    let Some(next) = sibling_after(forest, after) else {
        return None;
    };
    if !shares(&forest.node(next).token, about) {
        return None;
    }
    Some(next)
}

/// The number just past the group that begins at a node. An element that is kept whole without
/// `about` is a group by itself.
pub fn group_end(forest: &Forest<'_>, n: usize) -> usize
    requires within { n < length forest.now }
    requires leads { LeadsOn forest.now }
    ensures bound { (n < result) × (result ≤ length forest.now) }
    ensures end { IsGroupEnd forest.now n result }
{
    let Some(about) = about_of(&forest.node(n).token) else {
        return forest.node(n).next;
    };
    let mut last = n;
    'group: while let Some(next) = next_in_group(forest, last, about) {
        last = next;
    }
    forest.node(last).next
}
