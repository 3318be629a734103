// The elements that are open.
ghost use Rattle.std.specs.Prelude.{◌≡◌, ◌++◌, ◌∷◌, [], OnOk, None, length};
ghost use Rattle.model_spelling.specs.Faults.{fault_at_end};
ghost use Rattle.model_spelling.specs.Grammar.{name_same};
ghost use Rattle.ve_html_scan.specs.Shown.{token_span};
ghost use Rattle.ve_html_tree.specs.Nodes.{HasRoom, node_of, ended_at};
ghost use Rattle.ve_html_tree.specs.Opened.{start_name, opens, open_node_numbers, start_link, numbers_after_start, AreLinked, IsInnermostClosed};
ghost use Rattle.ve_html_tree.specs.Seen.{Ends};
ghost use Rattle.ve_html_tree.specs.Taken.{StartsElement, EndsElement};

use crate::node::{end_node, push_node};
use crate::{HtmlFault, Node};
use ve_base::MAX_OPEN_ELEMENTS;
use ve_html_scan::{Span, Token};
use ve_kinds::is_void_name;

/// The elements that are open: how many, and the number of the innermost one's node. Until an
/// element is closed, its node's `next` is the number of the node of the element around it. So the
/// nodes are all the memory that reading takes.
#[derive(Clone, Copy)]
pub struct Opened {
    pub count: usize,
    pub innermost: usize,
}

/// Appends the node of a start tag with that name, and opens its element, where it isn't void.
pub fn open_element<'a>(
    nodes: &mut Vec<Node<'a>>,
    opened: &mut Opened,
    token: &Token<'a>,
    name: &'a str,
) -> Result<(), HtmlFault>
    requires name { start_name token.now ≡ name.now }
    requires room { HasRoom token.now }
    requires linked { AreLinked nodes.old.items opened.old }
    ensures faults { StartsElement result name.now (token_span token.now).from nodes.old.items
        opened.old nodes.new.items opened.new }
    ensures nodes { OnOk result (
        nodes.new.items
        ≡ nodes.old.items
        ++ node_of token.now (start_link name.now nodes.old.items opened.old)
        ∷ []) }
    ensures numbers { OnOk result (
        open_node_numbers nodes.new.items opened.new
        ≡ numbers_after_start name.now nodes.old.items opened.old) }
    ensures linked { OnOk result (AreLinked nodes.new.items opened.new) }
{
    let number = nodes.len();
    if opened.count == MAX_OPEN_ELEMENTS {
        let at = token.span().from;
        return Err(HtmlFault::TooDeep { at });
    }
    if is_void_name(name.as_bytes()) {
        return push_node(nodes, token, number + 1);
    }
    push_node(nodes, token, opened.innermost)?;
    opened.count += 1;
    opened.innermost = number;
    Ok(())
}

#[tactic(auto, unfolding(model_spelling::specs::Grammar::name_same))]
fn is_same(name: &str, other: &str) -> bool
    ensures { result ≡ name_same name.now other.now }
{
    name == other
}

/// The name of a start tag.
fn name_of<'a>(token: &Token<'a>) -> &'a str
    ensures { result.now ≡ start_name token.now }
{
    match *token {
        Token::StartTag { name, .. } => name,
        _ => "",
    }
}

/// Closes the innermost element by an end tag with that name.
pub fn close_element<'a>(
    nodes: &mut Vec<Node<'a>>,
    opened: &mut Opened,
    name: &'a str,
    end: Span,
) -> Result<(), HtmlFault>
    requires { AreLinked nodes.old.items opened.old }
    ensures faults { EndsElement result name.now end.from nodes.old.items opened.old nodes.new.items
        opened.new }
    ensures nodes { OnOk result (
        nodes.new.items
        ≡ ended_at opened.old.innermost end.from end.to (length nodes.old.items)
        nodes.old.items) }
    ensures numbers { OnOk result (
        IsInnermostClosed nodes.old.items opened.old nodes.new.items opened.new) }
    ensures linked { OnOk result (AreLinked nodes.new.items opened.new) }
{
    if opened.count == 0 || is_void_name(name.as_bytes()) {
        return Err(HtmlFault::Stray { at: end.from });
    }
    let number = opened.innermost;
    let innermost = &nodes[number];
    if !is_same(name_of(&innermost.token), name) {
        return Err(HtmlFault::Mismatched { at: end.from });
    }
    opened.count -= 1;
    opened.innermost = innermost.next;
    end_node(nodes, number, end);
    Ok(())
}

/// The end of a text with these elements open.
pub fn end_of_text(nodes: &[Node<'_>], opened: Opened) -> Result<(), HtmlFault>
    requires { AreLinked nodes.now opened }
    ensures { Ends result (fault_at_end (opens nodes.now opened) None) }
{
    if opened.count == 0 {
        return Ok(());
    }
    Err(HtmlFault::Unclosed {
        at: nodes[opened.innermost].span.from,
    })
}
