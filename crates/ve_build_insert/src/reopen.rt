// Open nodes that are closed, and opened again after the inserted items.
ghost use Rattle.std.specs.Prelude.{◌≡◌, ◌≤◌, IfOk, All, length, map, reverse};
ghost use Rattle.model_items.specs.Plain.{plain, plain_list, CitesWell};
ghost use Rattle.model_items.specs.Offsets.{opens_at};
ghost use Rattle.model_edit.specs.Brackets as brackets;
ghost use Rattle.model_edit.specs.Insert as model;
ghost use Rattle.ve_offsets.specs.Docs.{IsDoc, page_items};
ghost use Rattle.ve_store.specs.Following.{Grows, together};
ghost use Rattle.ve_tree.specs.IsTree.{unvalued};
ghost use Rattle.ve_tx.specs.Cites.{TxCites};
ghost use Rattle.ve_edits.specs.Filled.{BringsInserted, IsFilledFor};
ghost use Rattle.ve_build_insert.specs.Placed.{CitesAsPieces};
ghost use Rattle.ve_build_insert.specs.Reopened.{AreClosings, AreCopies, IsReopened, PutsInto};

use std::alloc::Global;
use ve_base::Memory;
use ve_edits::{Edits, copy_of, openings_round};
use ve_items::{Item, Items};
use ve_offsets::Doc;
use ve_store::{NewValues, Store};
use ve_tx::Transaction;

/// The closing of the node that an item opens; a character or a closing is its own.
fn closing_for(item: Item) -> Item
    ensures means { (values : _) → plain values result ≡ brackets.closing_for (plain values item) }
    ensures cites { (values : _) → CitesWell values item → CitesWell values result }
{
    match item {
        Item::Char { ch, marks } => Item::Char { ch, marks },
        Item::Opening { kind, .. } => Item::Closing { kind, pre: None },
        Item::Closing { kind, pre } => Item::Closing { kind, pre },
    }
}

/// The closings of openings, in the same order.
fn closings_for(alloc: Global, openings: &[Item]) -> Result<Items, Memory>
    ensures means { IfOk result (AreClosings openings.now) }
    ensures cites { IfOk result (CitesAsPieces openings.now) }
{
    let mut closings = Items::new(alloc);
    for opening in openings {
        closings.push(closing_for(*opening))?;
    }
    Ok(closings)
}

/// Copies of openings, from the last one back, so that values come in the order of the list.
fn copies_of(
    alloc: Global,
    store: &Store,
    new: &mut NewValues,
    openings: &[Item],
) -> Result<Items, Memory>
    requires follows { new.old.after ≡ length store.now }
    requires cites { All (CitesWell (together store.now new.old)) openings.now }
    ensures copies { IfOk result (AreCopies store.now openings.now 0 new.old new.new) }
    ensures grows { Grows new.old new.new }
{
    let mut copies = Items::new(alloc);
    let mut left = openings.len();
    while left > 0 {
        left -= 1;
        let copy = copy_of(alloc, store, new, openings[left])?;
        copies.push(copy)?;
    }
    Ok(copies)
}

/// The closings of openings, pieces, and copies of the openings, the last one first.
fn reopened(
    alloc: Global,
    store: &Store,
    new: &mut NewValues,
    openings: &[Item],
    pieces: &[Item],
) -> Result<Items, Memory>
    requires follows { new.old.after ≡ length store.now }
    requires openings { All (CitesWell (together store.now new.old)) openings.now }
    requires pieces { All (CitesWell (together store.now new.old)) pieces.now }
    ensures made { IfOk result (IsReopened store.now openings.now pieces.now new.old new.new) }
    ensures grows { Grows new.old new.new }
{
    let mut made = closings_for(alloc, openings)?;
    made.extend(pieces)?;
    let copies = copies_of(alloc, store, new, openings)?;
    made.extend(copies.as_slice())?;
    Ok(made)
}

/// The transaction that puts pieces at an offset, where so many of the innermost open nodes are
/// closed before them and opened again after them.
pub fn put(
    alloc: Global,
    doc: Doc<'_>,
    at: usize,
    levels: usize,
    pieces: &[Item],
    new: &mut NewValues,
) -> Result<Transaction, Memory>
    requires doc { IsDoc doc }
    requires cites { All (CitesWell doc.store.now) doc.list.now.items }
    requires follows { new.old.after ≡ length doc.store.now }
    requires pieces { All (CitesWell (together doc.store.now new.old)) pieces.now }
    requires within { at ≤ length doc.list.now.items }
    requires levels { levels ≤ length (opens_at (unvalued doc.list.now.items) at) }
    ensures means { IfOk result (PutsInto doc.entry at levels pieces.now new.old new.new) }
    ensures cites { IfOk result (TxCites (together doc.entry.store.now new.new)) }
    ensures values { IfOk result (BringsInserted doc.entry.store.now new.old new.new) }
    ensures grows { Grows new.old new.new }
{
    let openings = openings_round(alloc, doc, at, levels)?;
    let made = reopened(alloc, doc.store, new, openings.as_slice(), pieces)?;
    let mut edits = Edits::new(alloc);
    edits.change(doc.list, at, 0, made.as_slice())?;
    let tx = edits.transaction(doc.list)?;
    Ok(tx)
}
