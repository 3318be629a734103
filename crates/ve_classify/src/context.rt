// The open kind that a fragment is put into.
ghost use Rattle.std.specs.Prelude.{◌≡◌, length};
ghost use Rattle.model_spelling.specs.Grammar as g;
ghost use Rattle.model_page.specs.Elements as page;
ghost use Rattle.model_page.specs.Parts.{parts_of};
ghost use Rattle.model_page.specs.Fragment as fragment;
ghost use Rattle.ve_html_scan.specs.Shown.{ShowsToken};
ghost use Rattle.ve_classify.specs.Standing.{LeadsOn};
ghost use Rattle.ve_classify.specs.Fits.{OfSiblings};
ghost use Rattle.ve_classify.specs.Context as spec;

use crate::{is_held, is_white, is_white_text};
use ve_html_scan::Token;
use ve_html_tree::Forest;
use ve_kinds::{Kind, is_content_branch, is_flow, is_inline_tag, kind_of_tag, may_hold};
use ve_lawful::State;

fn may_hold_tag(kind: Kind, name: &str) -> bool
    ensures { result ≡ fragment.may_hold_tag kind name.now }
{
    match kind_of_tag(name) {
        Some(child) => may_hold(kind, child),
        None => false,
    }
}

/// Whether a token begins a node that content may have.
fn is_inline(token: &Token<'_>) -> bool
    ensures { (k : g.Token) → ShowsToken token.now k → result ≡ spec.token_inline k }
{
    match *token {
        Token::StartTag { name, .. } => is_inline_tag(name),
        _ => true,
    }
}

/// Whether a token begins a node that may stand in a structural parent of the kind.
fn stands_in(token: &Token<'_>, kind: Kind) -> bool
    ensures { (k : g.Token) → ShowsToken token.now k → result ≡ spec.token_stands kind k }
{
    match *token {
        Token::StartTag { name, attrs, .. } => !is_held(attrs) && may_hold_tag(kind, name),
        Token::Chars { .. } => is_white_text(token),
        _ => true,
    }
}

fn fits_content(forest: &Forest<'_>) -> bool
    requires { LeadsOn forest.now }
    ensures { OfSiblings forest.now 0 (length forest.now) (λ f. fragment.fits_content (parts_of f))
        result }
{
    let to = forest.len();
    let mut n = 0;
    'nodes: while n < to {
        let node = forest.node(n);
        if !is_inline(&node.token) {
            return false;
        }
        n = node.next;
    }
    true
}

fn fits_structural(forest: &Forest<'_>, kind: Kind) -> bool
    requires { LeadsOn forest.now }
    ensures { OfSiblings forest.now 0 (length forest.now)
        (λ f. fragment.fits_structural kind (parts_of f)) result }
{
    let to = forest.len();
    let mut n = 0;
    'nodes: while n < to {
        let node = forest.node(n);
        if !stands_in(&node.token, kind) {
            return false;
        }
        n = node.next;
    }
    true
}

/// Whether the forest of a text fits the kind.
fn fits(text: &str, forest: &Forest<'_>, kind: Kind) -> bool
    requires { LeadsOn forest.now }
    ensures { spec.OfRead text.now forest.now (spec.fits_kind kind) result }
{
    if is_content_branch(kind) {
        return fits_content(forest);
    }
    if is_flow(kind) {
        return true;
    }
    if is_white(text) {
        return false;
    }
    fits_structural(forest, kind)
}

/// The innermost of the open kinds that fits the forest of a text, or the root.
pub fn context_kind(text: &str, forest: &Forest<'_>, state: &State) -> Kind
    requires { LeadsOn forest.now }
    ensures { spec.OfRead text.now forest.now (spec.context_in state.now.stack) result }
{
    for n in 0..state.depth() {
        let kind = state.kind(n);
        if fits(text, forest, kind) {
            return kind;
        }
    }
    Kind::Root
}
