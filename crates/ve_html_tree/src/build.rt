// The nodes that are made from the tokens.
ghost use Rattle.std.specs.Prelude.{OnOk};
ghost use Rattle.ve_html_tree.specs.Nodes.{HasRoom};
ghost use Rattle.ve_html_tree.specs.Opened.{AreLinked};
ghost use Rattle.ve_html_tree.specs.Taken.{TakesFaults, TakesNodes, TakesNumbers};

use crate::node::push_node;
use crate::open::{Opened, close_element, open_element};
use crate::{HtmlFault, Node};
use ve_html_scan::Token;

/// Takes a token: its effect on the nodes and on the open elements.
pub fn take_token<'a>(
    nodes: &mut Vec<Node<'a>>,
    opened: &mut Opened,
    token: &Token<'a>,
) -> Result<(), HtmlFault>
    requires room { HasRoom token.now }
    requires linked { AreLinked nodes.old.items opened.old }
    ensures faults { TakesFaults result token.now nodes.old.items opened.old nodes.new.items
        opened.new }
    ensures nodes { TakesNodes result token.now nodes.old.items opened.old nodes.new.items }
    ensures numbers { TakesNumbers result token.now nodes.old.items opened.old nodes.new.items
        opened.new }
    ensures linked { OnOk result (AreLinked nodes.new.items opened.new) }
{
    match *token {
        Token::StartTag { name, .. } => open_element(nodes, opened, token, name),
        Token::EndTag { name, span } => close_element(nodes, opened, name, span),
        _ => {
            let next = nodes.len() + 1;
            push_node(nodes, token, next)
        }
    }
}
