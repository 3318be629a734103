// Sources that read as parts of a run: inline elements and whitespace.
ghost use Rattle.std.specs.Prelude.{◌≡◌, false, IfOk, IfErr, option_map, unwrap_or};
ghost use Rattle.model_spelling.specs.Faults.{fault_of};
ghost use Rattle.model_spelling.specs.Forest as spelled;
ghost use Rattle.model_spelling.specs.ForestNodes.{forest_nodes};
ghost use Rattle.model_spelling.specs.Grammar as g;
ghost use Rattle.model_spelling.specs.Parsed.{forest_of};
ghost use Rattle.model_page_write.specs.Written.{is_inline_source};
ghost use Rattle.ve_html_scan.specs.Shown.{ShowsToken};
ghost use Rattle.ve_html_tree.specs.Nodes.{ShowNodes};
ghost use Rattle.ve_html_tree.specs.Seen.{IsFirstFault};
ghost use Rattle.ve_write.specs.Inline.{is_inline_token};

use std::alloc::Global;
use ve_base::Memory;
use ve_classify::is_white_text;
use ve_html_scan::Token;
use ve_html_tree::{Forest, HtmlFault, read};
use ve_kinds::is_inline_tag;

/// Whether a node that begins with the token is an inline element, or whitespace.
fn is_inline_node(token: &Token<'_>) -> bool
    ensures { (k : g.Token) → ShowsToken token.now k → result ≡ is_inline_token k }
{
    match *token {
        Token::StartTag { name, .. } => is_inline_tag(name),
        _ => is_white_text(token),
    }
}

/// Whether all nodes of the top level are inline elements and whitespace. What is in them is passed
/// over.
fn are_inline(forest: &Forest<'_>) -> bool
    requires { (f : spelled.Forest) × ShowNodes forest.now (forest_nodes 0 0 f) }
    ensures { (f : spelled.Forest)
        → ShowNodes forest.now (forest_nodes 0 0 f)
        → result ≡ is_inline_source f }
{
    let mut n = 0;
    while n < forest.len() {
        let node = forest.node(n);
        if !is_inline_node(&node.token) {
            return false;
        }
        n = node.next;
    }
    true
}

/// Reads a source, and says whether it is inline elements and whitespace.
fn read_inline(alloc: Global, source: &str) -> Result<bool, HtmlFault>
    ensures found { IfOk result (λ b.
        (f : spelled.Forest) × spelled.Spells source.now f × (b ≡ is_inline_source f)) }
    ensures fault { IfErr result (λ e. IsFirstFault e (fault_of source.now)) }
{
    let forest = read(alloc, source)?;
    Ok(are_inline(&forest))
}

/// Whether a source reads as inline elements and whitespace alone. One that doesn't read at all
/// does not.
pub fn reads_inline(alloc: Global, source: &str) -> Result<bool, Memory>
    ensures { IfOk result (λ b.
        b ≡ unwrap_or (option_map is_inline_source (forest_of source.now)) false) }
{
    match read_inline(alloc, source) {
        Ok(inline) => Ok(inline),
        Err(HtmlFault::Memory) => Err(Memory),
        Err(_) => Ok(false),
    }
}
