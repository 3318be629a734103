// Reading a text.
ghost use Rattle.std.specs.Prelude.{◌≡◌, IfErr, IfOk};
ghost use Rattle.model_spelling.specs.Faults.{fault_of};
ghost use Rattle.model_spelling.specs.Forest as spelled;
ghost use Rattle.model_spelling.specs.ForestNodes.{forest_nodes};
ghost use Rattle.ve_html_tree.specs.Nodes.{ShowNodes};
ghost use Rattle.ve_html_tree.specs.Seen.{IsFirstFault};

use crate::build::take_token;
use crate::open::{Opened, end_of_text};
use crate::{Forest, HtmlFault};
use std::alloc::Global;
use ve_html_scan::Scanner;

/// Reads a text: the forest that spells it, or its first fault. Elements that are open are counted
/// and not recursed into.
pub fn read<'a>(alloc: Global, text: &'a str) -> Result<Forest<'a>, HtmlFault>
    // A forest spells the text, and the nodes show its nodes.
    ensures found { IfOk result (λ nodes.
        (f : spelled.Forest)
        × spelled.Spells text.now f
        × ShowNodes nodes (forest_nodes 0 0 f)) }
    // No forest spells it, and this is the first fault.
    ensures fault { IfErr result (λ e. IsFirstFault e (fault_of text.now)) }
{
    let mut scanner = Scanner::new(text);
    let mut nodes = Vec::new(alloc);
    let mut opened = Opened {
        count: 0,
        innermost: 0,
    };
    loop {
        match scanner.next() {
            Err(fault) => return Err(HtmlFault::Scan(fault)),
            Ok(None) => {
                end_of_text(&nodes, opened)?;
                return Ok(Forest { nodes });
            }
            Ok(Some(token)) => take_token(&mut nodes, &mut opened, &token)?,
        }
    }
}
