// The grid of a table.
ghost use Rattle.std.specs.Prelude.{◌≡◌, ◌<◌, ◌^◌, true, [], Ok, length, map, slice_get, All, IfOk, IfErr, OnOk};
ghost use Rattle.ve_kinds.specs.declared.kind.Kind.TheVariants.{Table};
ghost use Rattle.model_items.specs.Plain.{CitesWell};
ghost use Rattle.model_items.specs.Offsets.{passes};
ghost use Rattle.model_edit.specs.Brackets.{is_opening_of};
ghost use Rattle.model_edit.specs.Grid as model;
ghost use Rattle.ve_offsets.specs.Docs.{IsDoc, page_items};
ghost use Rattle.ve_tables.specs.Covered.{AreGaps, HasGapNoted};
ghost use Rattle.ve_tables.specs.Refused.{IsTableRefusal};
ghost use Rattle.ve_tables.specs.Rows.{row_of, rows_after};

use crate::cells::place_row;
use crate::rows::{TableRow, table_rows};
use crate::{Grid, Placing};
use model_edit::TableFault;
use std::alloc::Global;
use ve_base::{ListOf, Memory};
use ve_items::Item;
use ve_kinds::Kind;
use ve_offsets::Doc;

/// Whether a table opens at a position.
fn opens_table(doc: Doc<'_>, at: usize) -> bool
    ensures { result ≡ passes (is_opening_of Table) (slice_get (page_items doc.entry) at) }
{
    if doc.list.len() <= at {
        return false;
    }
    match doc.list.get(at) {
        Item::Opening {
            kind: Kind::Table,
            ..
        } => true,
        Item::Opening { .. } | Item::Char { .. } | Item::Closing { .. } => false,
    }
}

/// Notes the first column that no cell covers in the row at which the placing stands.
fn note_gap(gaps: &mut ListOf<usize>, placing: Placing) -> Result<Placing, Memory>
    ensures same { IfOk result (λ same. same ≡ placing) }
    ensures gap { OnOk result (HasGapNoted placing.cells placing.row gaps.old gaps.new) }
{
    let end = placing.end_row()?;
    gaps.push(end.gap)?;
    Ok(end.placing)
}

/// Places the cells of all rows, and notes the first column that no cell covers in each.
fn place_rows(
    alloc: Global,
    doc: Doc<'_>,
    rows: &[TableRow],
    gaps: &mut ListOf<usize>,
) -> Result<Placing, TableFault>
    requires doc { IsDoc doc }
    requires cites { All (CitesWell doc.store.now) doc.list.now.items }
    requires few { length rows.now < 2 ^ 62 }
    requires none { gaps.old ≡ [] }
    ensures means { IfOk result (λ placed.
        rows_after (page_items doc.entry) 0 rows.now [] ≡ Ok placed.cells) }
    ensures gaps { IfOk result (λ placed. AreGaps placed.cells (length rows.now) gaps.new) }
    ensures refused { IfErr result (
        IsTableRefusal (rows_after (page_items doc.entry) 0 rows.now [])) }
{
    let mut placing = Placing::new(alloc);
    for i in 0..rows.len() {
        let placed = place_row(alloc, doc, placing.begin_row(i, rows[i].left), rows[i].at)?;
        match note_gap(gaps, placed) {
            Ok(noted) => placing = noted,
            Err(Memory) => return Err(TableFault::Memory),
        }
    }
    Ok(placing)
}

/// A table: its rows, its grid, and for each row the first column that no cell covers there.
#[derive(Drop)]
pub struct LaidTable {
    pub rows: ListOf<TableRow>,
    pub grid: Grid,
    pub gaps: ListOf<usize>,
}

/// The table that opens at a position, with its grid.
pub fn laid_table(alloc: Global, doc: Doc<'_>, at: usize) -> Result<LaidTable, TableFault>
    requires doc { IsDoc doc }
    requires cites { All (CitesWell doc.store.now) doc.list.now.items }
    ensures means { IfOk result (λ table. model.grid (page_items doc.entry) at ≡ Ok table.grid) }
    ensures rows { IfOk result (λ table.
        map row_of table.rows ≡ model.table_rows (page_items doc.entry) at) }
    ensures gaps { IfOk result (λ table. AreGaps table.grid.cells table.grid.rows table.gaps) }
    ensures opens { OnOk result (
        passes (is_opening_of Table) (slice_get (page_items doc.entry) at) ≡ true) }
    ensures refused { IfErr result (IsTableRefusal (model.grid (page_items doc.entry) at)) }
    ensures memory { IfErr result (λ fault.
        fault ≡ TableFault.Memory
        → passes (is_opening_of Table) (slice_get (page_items doc.entry) at) ≡ true) }
{
    if !opens_table(doc, at) {
        return Err(TableFault::NotTable { at });
    }
    let Ok(rows) = table_rows(alloc, doc, at) else {
        return Err(TableFault::Memory);
    };
    let count = rows.as_slice().len();
    let mut gaps = ListOf::new(alloc);
    let placing = place_rows(alloc, doc, rows.as_slice(), &mut gaps)?;
    let grid = placing.finish(count);
    Ok(LaidTable { rows, grid, gaps })
}

/// The grid of the table that opens at a position. `NotTable` comes exactly where no table opens
/// there, and want of memory only where one does. `Crooked` comes with the position of the first
/// cell that would cover a position which another covers, or pass the last row of its section.
pub fn grid(alloc: Global, doc: Doc<'_>, at: usize) -> Result<Grid, TableFault>
    requires doc { IsDoc doc }
    requires cites { All (CitesWell doc.store.now) doc.list.now.items }
    ensures means { IfOk result (λ grid. model.grid (page_items doc.entry) at ≡ Ok grid) }
    ensures refused { IfErr result (IsTableRefusal (model.grid (page_items doc.entry) at)) }
    ensures memory { IfErr result (λ fault.
        fault ≡ TableFault.Memory
        → passes (is_opening_of Table) (slice_get (page_items doc.entry) at) ≡ true) }
{
    let table = laid_table(alloc, doc, at)?;
    Ok(table.grid)
}
