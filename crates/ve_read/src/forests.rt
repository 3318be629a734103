// A text that has a forest, read as a whole.
ghost use Rattle.std.specs.Prelude.{◌≡◌, [], None, IfOk, OnOk};
ghost use Rattle.std.specs.Str.{chars};
ghost use Rattle.model_spelling.specs.Faults.{fault_of};
ghost use Rattle.model_page.specs.Fit.{around_in};
ghost use Rattle.ve_read.specs.Blocks.{siblings_limit, white_at_end, with_siblings};
ghost use Rattle.ve_read.specs.Forests.{AreNodesOf, parts_in};
ghost use Rattle.ve_reader.specs.Stops.{Stops};

use crate::read_siblings;
use std::alloc::Global;
use ve_base::Memory;
use ve_classify::{Part, read_stands};
use ve_html_tree::{Forest, HtmlFault, read};
use ve_kinds::Kind;
use ve_reader::{ReadStop, Reader, tags_are_read};

/// The forest of a text that some forest spells.
pub fn read_spelled<'a>(alloc: Global, text: &'a str) -> Result<Forest<'a>, Memory>
    requires { fault_of text.now ≡ None }
    ensures { IfOk result (λ nodes. AreNodesOf text.now nodes) }
{
    match read(alloc, text) {
        Ok(forest) => Ok(forest),
        Err(HtmlFault::Memory) => Err(Memory),
        Err(_) => unreachable!(),
    }
}

/// Reads a whole text as the inside of a node of the kind, where no mark is around, and gives the
/// whitespace at its end. An `Err` names a byte of the text.
pub fn read_whole<'a>(
    alloc: Global,
    text: &str,
    forest: &Forest<'a>,
    reader: &mut Reader,
    kind: Kind,
) -> Result<&'a str, ReadStop>
    requires nodes { AreNodesOf text.now forest.now }
    requires unmarked { reader.old.marks ≡ [] }
    ensures ok { OnOk result (
        reader.new ≡ with_siblings (around_in kind) (parts_in text.now) 0 reader.old) }
    ensures white { IfOk result (λ white.
        chars white.now ≡ white_at_end (around_in kind) (parts_in text.now) 0 reader.old) }
    ensures limit { Stops result (
        siblings_limit (around_in kind) (parts_in text.now) 0 reader.old) }
{
    read_stands();
    tags_are_read();
    let to = Part {
        end: forest.len(),
        byte: text.len(),
    };
    let white = read_siblings(alloc, text, forest, reader, kind, 0, to)?;
    Ok(white)
}
