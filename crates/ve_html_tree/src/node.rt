// The nodes of a forest, in the order of their starts.
ghost use Rattle.std.specs.Prelude.{◌≡◌, ◌<◌, ◌++◌, ◌∷◌, [], IfErr, OnOk, length, slice_get, Some};
ghost use Rattle.ve_html_scan.specs.Shown.{token_span};
ghost use Rattle.ve_html_tree.specs.Nodes.{inner_span, HasRoom, node_of, ended_at};
ghost use Rattle.ve_html_tree.specs.declared.fault.HtmlFault.TheVariants as faults;

use crate::HtmlFault;
use std::marker::Model;
use ve_html_scan::{Span, Token};

/// A node: its first token, the bytes of the whole node and of its content, and the number just
/// past its subtree.
#[derive(Clone, Copy, Debug)]
pub struct Node<'a> {
    pub token: Token<'a>,
    pub span: Span,
    pub inner: Span,
    pub next: usize,
}

/// The nodes of a text in the order of their starts. A node's children are those between it and its
/// `next`.
#[derive(Drop)]
pub struct Forest<'a> {
    pub(crate) nodes: Vec<Node<'a>>,
}

impl<'a> Model for Forest<'a> {
    ghost use Rattle.std.specs.Prelude.{List};
    ghost use Rattle.ve_html_tree.specs.declared.node.Node.{Node};

    ghost Value = { List Node };

    ghost view = { λ f. f.nodes.items };
}

impl<'a> Forest<'a> {
    /// How many nodes there are.
    pub fn len(&self) -> usize
        ensures { result ≡ length self.now }
    {
        self.nodes.len()
    }

    /// Lends a node by its number.
    pub fn node(&self, n: usize) -> &Node<'a>
        requires { n < length self.now }
        ensures { slice_get self.now n ≡ Some result.now }
    {
        &self.nodes[n]
    }
}

/// The bytes of what is in a token, before it is known what follows it.
pub fn inner_of(token: &Token<'_>) -> Span
    requires { HasRoom token.now }
    ensures { result ≡ inner_span token.now }
{
    match *token {
        Token::StartTag { span, .. } => Span {
            from: span.to,
            to: span.to,
        },
        Token::Comment { span, .. } => Span {
            from: span.from + 4,
            to: span.to - 3,
        },
        _ => token.span(),
    }
}

/// Appends the node that begins with a token.
pub fn push_node<'a>(
    nodes: &mut Vec<Node<'a>>,
    token: &Token<'a>,
    next: usize,
) -> Result<(), HtmlFault>
    requires { HasRoom token.now }
    ensures nodes { OnOk result (nodes.new.items ≡ nodes.old.items ++ node_of token.now next ∷ []) }
    ensures fault { IfErr result (λ e. e ≡ faults.Memory) }
{
    let node = Node {
        token: *token,
        span: token.span(),
        inner: inner_of(token),
        next,
    };
    nodes.push(node)?;
    Ok(())
}

/// Ends the element of that number by its end tag.
pub fn end_node(nodes: &mut Vec<Node<'_>>, number: usize, end: Span)
    requires { number < length nodes.old.items }
    ensures { nodes.new.items
        ≡ ended_at number end.from end.to (length nodes.old.items) nodes.old.items }
{
    let next = nodes.len();
    let node = &mut nodes[number];
    node.span.to = end.to;
    node.inner.to = end.from;
    node.next = next;
}
