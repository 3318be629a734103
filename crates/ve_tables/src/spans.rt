// A cell's span set to another number, and where a node ends.
ghost use Rattle.std.specs.Prelude.{◌≡◌, ◌≤◌, ◌<◌, ◌∷◌, [], Some, decimal, length, All, IfOk, OnOk};
ghost use Rattle.std.specs.Str.{chars};
ghost use Rattle.model_items.specs.Plain.{CitesWell};
ghost use Rattle.model_items.specs.Offsets.{end_of_node};
ghost use Rattle.model_edit.specs.Edits.{Set};
ghost use Rattle.ve_tables.specs.PartWay.{CollectsIn};
ghost use Rattle.ve_offsets.specs.Docs.{IsDoc, page_items};

use std::alloc::Global;
use ve_base::{Memory, Text};
use ve_edits::{Edits, partner};
use ve_offsets::Doc;

/// The decimal digits of a number.
fn digits(alloc: Global, number: usize) -> Result<Text, Memory>
    ensures { IfOk result (λ text. text ≡ decimal number) }
{
    let spelled = number.to_string(alloc)?;
    Ok(Text::from_string(spelled))
}

/// Sets a span of the cell at a position to a number. Edits come in the order of their positions.
pub fn set_span(
    alloc: Global,
    doc: Doc<'_>,
    edits: &mut Edits,
    at: usize,
    name: &str,
    span: usize,
) -> Result<(), Memory>
    requires order { edits.old.at ≤ at }
    requires within { at < length doc.list.now.items }
    requires cites { All (CitesWell doc.store.now) doc.list.now.items }
    ensures { OnOk result (
        CollectsIn doc.entry (Set at (chars name.now) (Some (decimal span)) ∷ []) edits.old
        edits.new) }
{
    let text = digits(alloc, span)?;
    edits.set(doc.list, doc.store, at, name, text)?;
    Ok(())
}

/// Just past where the node ends that begins at a position.
pub fn node_end(doc: Doc<'_>, at: usize) -> usize
    requires doc { IsDoc doc }
    requires within { at < length doc.list.now.items }
    ensures means { result ≡ end_of_node (page_items doc.entry) at }
    ensures within { result ≤ length doc.entry.list.now.items }
{
    let len = doc.list.len();
    let other = partner(doc, at);
    prove!(other < len);
    other + 1
}
