// A run that becomes a paragraph.
ghost use Rattle.std.specs.Prelude.{◌≡◌, ◌<◌, ◌≤◌, [], length, OnOk};
ghost use Rattle.ve_read.specs.Blocks.{paragraph_limit, with_paragraph};
ghost use Rattle.ve_classify.specs.Standing.{LeadsOn};
ghost use Rattle.ve_read.specs.ContentParts.{OfParts, SomeParts};
ghost use Rattle.ve_reader.specs.TagAttrs.{TagsFit};
ghost use Rattle.ve_reader.specs.Stops.{Stops};

use crate::read_content;
use std::alloc::Global;
use ve_base::Head;
use ve_classify::Part;
use ve_html_scan::Span;
use ve_html_tree::Forest;
use ve_kinds::Kind;
use ve_reader::{NodeStart, ReadStop, Reader};

/// Reads the run of a page that begins at a node, up to the node and the byte where it ends, as the
/// paragraph that is made for it. No mark is around. An `Err` names the first of it that is over a
/// limit, by its byte in the text, or is want of memory. Some of it may have been read then.
pub fn read_paragraph(
    alloc: Global,
    text: &str,
    forest: &Forest<'_>,
    reader: &mut Reader,
    n: usize,
    part: Part,
) -> Result<(), ReadStop>
    requires more { n < part.end }
    requires bound { part.end ≤ length forest.now }
    requires leads { LeadsOn forest.now }
    requires tags { TagsFit forest.now }
    requires stands { SomeParts text.now forest.now n part.end part.byte }
    requires unmarked { reader.old.marks ≡ [] }
    ensures ok { OnOk result (
        OfParts text.now forest.now n part.end part.byte (λ run at.
        reader.new ≡ with_paragraph run at reader.old)) }
    ensures limit { OfParts text.now forest.now n part.end part.byte (λ run at.
        Stops result (paragraph_limit run at reader.old)) }
{
    let from = forest.node(n).span.from;
    let start = NodeStart {
        kind: Kind::P,
        head: Head::empty(alloc),
        generated: true,
        span: Span {
            from,
            to: part.byte,
        },
    };
    let node = reader.open(start, "")?;
    read_content(alloc, text, forest, reader, n, part)?;
    reader.close(node, "")?;
    Ok(())
}
