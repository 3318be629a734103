// The cells of a row, placed after those of the rows before it.
ghost use Rattle.std.specs.Prelude.{◌≡◌, ◌<◌, ◌≤◌, ◌^◌, codes, length, slice_get, All, IfOk, IfErr};
ghost use Rattle.ve_base.specs.Limits.{max_row_span, max_column_span};
ghost use Rattle.model_items.specs.Plain.{plain, CitesWell};
ghost use Rattle.model_edit.specs.Grid.{cell_span};
ghost use Rattle.ve_offsets.specs.Docs.{IsDoc, page_items};
ghost use Rattle.ve_tables.specs.Refused.{IsTableRefusal};
ghost use Rattle.ve_tables.specs.Rows.{attrs_in, row_placed, row_after, HasPlaced, HasRow};

use crate::children::children_of;
use crate::{Placing, span_of};
use model_edit::TableFault;
use std::alloc::Global;
use ve_base::{Attr, MAX_COLUMN_SPAN, MAX_ROW_SPAN, Memory};
use ve_items::Item;
use ve_kinds::Kind;
use ve_offsets::Doc;
use ve_store::Store;
use ve_tx::attrs_of;

/// How many rows and columns a cell spans.
#[derive(Clone, Copy)]
pub struct Spans {
    pub rows: usize,
    pub columns: usize,
}

/// The attributes of an item; only an opening has some.
fn item_attrs(store: &Store, item: Item) -> &[Attr]
    requires { CitesWell store.now item }
    ensures { result.now ≡ attrs_in (plain store.now item) }
{
    match item {
        Item::Opening { head, .. } => attrs_of(store, head),
        Item::Char { .. } | Item::Closing { .. } => &[],
    }
}

/// The spans of the cell at a position, each 1 where no attribute says otherwise.
fn spans_at(doc: Doc<'_>, at: usize) -> Spans
    requires { All (CitesWell doc.store.now) doc.list.now.items }
    ensures rows { result.rows ≡ cell_span (codes "rowspan") max_row_span (slice_get (page_items doc.entry) at) }
    ensures columns { result.columns ≡ cell_span (codes "colspan") max_column_span (slice_get (page_items doc.entry) at) }
    ensures some_rows { 1 ≤ result.rows }
    ensures some_columns { 1 ≤ result.columns }
    ensures few_rows { result.rows ≤ max_row_span }
    ensures few_columns { result.columns ≤ max_column_span }
{
    if doc.list.len() <= at {
        return Spans {
            rows: 1,
            columns: 1,
        };
    }
    let attrs = item_attrs(doc.store, doc.list.get(at));
    Spans {
        rows: span_of(attrs, "rowspan", MAX_ROW_SPAN),
        columns: span_of(attrs, "colspan", MAX_COLUMN_SPAN),
    }
}

/// Positions cells of the row at which the placing stands.
fn place_cells(doc: Doc<'_>, placing: Placing, cells: &[usize]) -> Result<Placing, TableFault>
    requires cites { All (CitesWell doc.store.now) doc.list.now.items }
    requires row { placing.row < 2 ^ 62 }
    ensures means { IfOk result (HasPlaced (page_items doc.entry) placing cells.now) }
    ensures refused { IfErr result (
        IsTableRefusal (row_placed (page_items doc.entry) placing cells.now)) }
{
    let mut placed = placing;
    for cell in cells {
        let spans = spans_at(doc, *cell);
        placed = placed.with_cell(*cell, spans.rows, spans.columns)?;
    }
    Ok(placed)
}

/// Positions the cells of the row that opens at a position, which is the one at which the placing
/// stands.
pub fn place_row(
    alloc: Global,
    doc: Doc<'_>,
    placing: Placing,
    at: usize,
) -> Result<Placing, TableFault>
    requires doc { IsDoc doc }
    requires cites { All (CitesWell doc.store.now) doc.list.now.items }
    requires row { placing.row < 2 ^ 62 }
    ensures means { IfOk result (HasRow (page_items doc.entry) placing at) }
    ensures refused { IfErr result (IsTableRefusal (row_after (page_items doc.entry) placing at)) }
{
    match children_of(alloc, doc, at, &[Kind::Td, Kind::Th]) {
        Ok(cells) => place_cells(doc, placing, cells.as_slice()),
        Err(Memory) => Err(TableFault::Memory),
    }
}
