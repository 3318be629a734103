// The nodes just inside another.
ghost use Rattle.std.specs.Prelude.{◌≡◌, ◌++◌, ◌<◌, length, true, IfOk, OnOk};
ghost use Rattle.model_items.specs.Plain.{plain};
ghost use Rattle.model_items.specs.Offsets.{is_closing};
ghost use Rattle.ve_kinds.specs.Table as table;
ghost use Rattle.ve_offsets.specs.Docs.{IsDoc, page_items};
ghost use Rattle.ve_tables.specs.Rows.{place_if_among, child_places};

use std::alloc::Global;
use ve_base::{ListOf, Memory};
use ve_edits::{partner, same_kind};
use ve_items::Item;
use ve_kinds::Kind;
use ve_offsets::Doc;

/// Whether a kind is one of these.
fn is_among(kinds: &[Kind], kind: Kind) -> bool
    ensures { result ≡ table.is_among kinds.now kind }
{
    for one in kinds {
        if same_kind(*one, kind) {
            return true;
        }
    }
    false
}

/// Whether an item closes a node.
fn closes(item: Item) -> bool
    ensures { (values : _) → result ≡ is_closing (plain values item) }
{
    match item {
        Item::Closing { .. } => true,
        Item::Char { .. } | Item::Opening { .. } => false,
    }
}

/// Appends the position of an item that opens a node of one of these kinds.
fn note(places: &mut ListOf<usize>, place: usize, item: Item, kinds: &[Kind]) -> Result<(), Memory>
    ensures { OnOk result (
        (values : _)
        → places.new ≡ places.old ++ place_if_among kinds.now place (plain values item)) }
{
    match item {
        Item::Opening { kind, .. } => {
            if is_among(kinds, kind) {
                return places.push(place);
            }
            Ok(())
        }
        Item::Char { .. } | Item::Closing { .. } => Ok(()),
    }
}

/// The positions of the nodes of these kinds that stand just inside the node which opens at a
/// position, in order.
pub fn children_of(
    alloc: Global,
    doc: Doc<'_>,
    at: usize,
    kinds: &[Kind],
) -> Result<ListOf<usize>, Memory>
    requires doc { IsDoc doc }
    ensures { IfOk result (λ places. places ≡ child_places kinds.now (page_items doc.entry) at) }
{
    let mut places = ListOf::new(alloc);
    let len = doc.list.len();
    if len <= at {
        return Ok(places);
    }
    let mut place = at + 1;
    while place < len {
        let item = doc.list.get(place);
        if closes(item) {
            return Ok(places);
        }
        note(&mut places, place, item, kinds)?;
        place = partner(doc, place) + 1;
    }
    Ok(places)
}
