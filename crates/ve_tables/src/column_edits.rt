// Columns put in and taken out.
ghost use Rattle.std.specs.Prelude.{◌≡◌, ◌<◌, ◌≤◌, ◌+◌, ◌^◌, true, ◌∷◌, [], length, drop, slice_get, Ok, All, IfOk, OnOk, IfErr};
ghost use Rattle.ve_kinds.specs.declared.kind.Kind.TheVariants.{Table};
ghost use Rattle.model_items.specs.Offsets.{end_of_node, passes};
ghost use Rattle.model_items.specs.Plain.{CitesWell};
ghost use Rattle.model_edit.specs.Brackets.{is_opening_of};
ghost use Rattle.model_edit.specs.Edits.{InOrder};
ghost use Rattle.model_edit.specs.Tables as model;
ghost use Rattle.model_edit.specs.Tables.{cell_removed};
ghost use Rattle.ve_offsets.specs.Docs.{IsDoc, page_items};
ghost use Rattle.ve_tx.specs.Cites.{TxCites};
ghost use Rattle.ve_tx.specs.Operation.{by_value};
ghost use Rattle.ve_tables.specs.CellQuestions.{cell_answer};
ghost use Rattle.ve_tables.specs.declared.cell_questions.CellQuestion.TheVariants.{IsFullAtColumn};
ghost use Rattle.ve_tables.specs.Covered.{AreInRows, IsRun, floor_with, floor_of};
ghost use Rattle.ve_tables.specs.PartWay.{AreNone, CollectsIn, MakesEdits, MayMake, column_put, column_taken, grown_columns, row_widened};
ghost use Rattle.ve_tables.specs.Refused.{IsTableRefusal};
ghost use Rattle.ve_tables.specs.Rows.{row_of};

use crate::cell_questions::{covers_column, spans_column};
use crate::fresh::new_cell;
use crate::refusals::{col_in_fault, col_out_fault};
use crate::rows::TableRow;
use crate::spans::{node_end, set_span};
use crate::table::{LaidTable, laid_table};
use model_edit::{GridCell, TableFault};
use std::alloc::Global;
use ve_base::Memory;
use ve_edits::{Edits, partner};
use ve_offsets::Doc;
use ve_tx::Transaction;

/// The number of the first cell from one on that doesn't begin in a row, where none of those cells
/// begins above it.
fn run_end(cells: &[GridCell], from: usize, row: usize, rows: usize) -> usize
    requires within { from ≤ length cells.now }
    requires rise { AreInRows row rows (drop from cells.now) }
    ensures { IsRun row rows cells.now from result }
{
    for next in from..cells.len() {
        if cells[next].row != row {
            return next;
        }
    }
    cells.len()
}

/// The row below a cell that spans into a column, where that is below a floor.
fn lower(floor: usize, cell: GridCell, column: usize) -> usize
    requires fits { cell.row + cell.rows < 2 ^ 64 }
    ensures { result ≡ floor_with column floor cell }
{
    if !spans_column(cell, column) {
        return floor;
    }
    floor.max(cell.row + cell.rows)
}

/// The row below the lowest cell that spans into a column, where that is below a floor.
fn lowest(floor: usize, cells: &[GridCell], column: usize, rows: usize) -> usize
    requires rows { AreInRows 0 rows cells.now }
    ensures { result ≡ floor_of column floor cells.now }
{
    let mut lowest = floor;
    for cell in cells {
        lowest = lower(lowest, *cell, column);
    }
    lowest
}

/// Collects the growth of the cells that span into a column; none of them is full.
fn grow_cells(
    alloc: Global,
    doc: Doc<'_>,
    edits: &mut Edits,
    cells: &[GridCell],
    column: usize,
) -> Result<(), Memory>
    requires cites { All (CitesWell doc.store.now) doc.list.now.items }
    requires order { InOrder edits.old.at (length doc.list.now.items) (
        grown_columns column cells.now) }
    requires room { AreNone (cell_answer (IsFullAtColumn column)) cells.now }
    ensures { OnOk result (
        CollectsIn doc.entry (grown_columns column cells.now) edits.old edits.new) }
{
    for cell in cells {
        if !spans_column(*cell, column) {
            continue;
        }
        set_span(alloc, doc, edits, cell.at, "colspan", cell.columns + 1)?;
    }
    Ok(())
}

/// The position of a new cell in a row that has these cells: before the first at or right of the
/// column, else after the last, else before the row's closing.
fn cell_place(doc: Doc<'_>, row: TableRow, column: usize, cells: &[GridCell]) -> usize
    requires doc { IsDoc doc }
    requires row { row.at < length doc.list.now.items }
    requires within { All (λ cell. cell.at < length doc.list.now.items) cells.now }
    ensures { result ≡ model.cell_place (page_items doc.entry) (row_of row) column cells.now }
{
    for cell in cells {
        if column <= cell.column {
            return cell.at;
        }
    }
    if cells.is_empty() {
        return partner(doc, row.at);
    }
    node_end(doc, cells[cells.len() - 1].at)
}

/// Collects the growth of a row's cells, and a new cell where none grows into the row.
fn widen_row(
    alloc: Global,
    doc: Doc<'_>,
    edits: &mut Edits,
    row: TableRow,
    column: usize,
    cells: &[GridCell],
    grown: bool,
) -> Result<(), Memory>
    requires doc { IsDoc doc }
    requires cites { All (CitesWell doc.store.now) doc.list.now.items }
    requires row { row.at < length doc.list.now.items }
    requires within { All (λ cell. cell.at < length doc.list.now.items) cells.now }
    requires order { InOrder edits.old.at (length doc.list.now.items) (
        row_widened (page_items doc) (row_of row) column cells.now grown) }
    requires room { AreNone (cell_answer (IsFullAtColumn column)) cells.now }
    ensures { OnOk result (
        CollectsIn doc.entry
        (row_widened (page_items doc.entry) (row_of row) column cells.now grown) edits.old
        edits.new) }
{
    grow_cells(alloc, doc, edits, cells, column)?;
    if grown {
        return Ok(());
    }
    let place = cell_place(doc, row, column, cells);
    edits.change(doc.list, place, 0, &new_cell())?;
    Ok(())
}

/// The transaction that puts a column in, where none of the cells that grow is full.
fn put_column(
    alloc: Global,
    doc: Doc<'_>,
    table: &LaidTable,
    column: usize,
) -> Result<Transaction, Memory>
    requires doc { IsDoc doc }
    requires cites { All (CitesWell doc.store.now) doc.list.now.items }
    requires rows { AreInRows 0 (length table.now.rows) table.now.grid.cells }
    requires places { All (λ row. row.at < length doc.list.now.items) table.now.rows }
    requires within { All (λ cell. cell.at < length doc.list.now.items) table.now.grid.cells }
    requires order { MayMake doc (column_put table.now column) }
    requires room { AreNone (cell_answer (IsFullAtColumn column)) table.now.grid.cells }
    ensures means { IfOk result (MakesEdits doc.entry (column_put table.now column)) }
    ensures cites { IfOk result (TxCites doc.entry.store.now) }
{
    let cells = table.grid.cells();
    let rows = table.rows.as_slice();
    let mut edits = Edits::new(alloc);
    let mut from = 0;
    let mut floor = 0;
    for row in 0..rows.len() {
        let to = run_end(cells, from, row, rows.len());
        let run = &cells[from..to];
        floor = lowest(floor, run, column, rows.len());
        widen_row(alloc, doc, &mut edits, rows[row], column, run, row < floor)?;
        from = to;
    }
    let tx = edits.transaction(doc.list)?;
    Ok(tx)
}

/// Collects that a cell of the column alone goes, or that another that covers the column shrinks.
fn take_cell(alloc: Global, doc: Doc<'_>, edits: &mut Edits, cell: GridCell) -> Result<(), Memory>
    requires doc { IsDoc doc }
    requires cites { All (CitesWell doc.store.now) doc.list.now.items }
    requires order { InOrder edits.old.at (length doc.list.now.items) (
        cell_removed (page_items doc) cell ∷ []) }
    requires within { cell.at < length doc.list.now.items }
    requires ahead { cell.at ≤ end_of_node (page_items doc) cell.at }
    requires some { 1 ≤ cell.columns }
    ensures { OnOk result (
        CollectsIn doc.entry (cell_removed (page_items doc.entry) cell ∷ []) edits.old
        edits.new) }
{
    if cell.columns == 1 {
        let to = node_end(doc, cell.at);
        edits.change(doc.list, cell.at, to - cell.at, &[])?;
        return Ok(());
    }
    set_span(alloc, doc, edits, cell.at, "colspan", cell.columns - 1)?;
    Ok(())
}

/// The transaction that takes a column out.
fn take_column(
    alloc: Global,
    doc: Doc<'_>,
    table: &LaidTable,
    column: usize,
) -> Result<Transaction, Memory>
    requires doc { IsDoc doc }
    requires cites { All (CitesWell doc.store.now) doc.list.now.items }
    requires within { All (λ cell. cell.at < length doc.list.now.items) table.now.grid.cells }
    requires ahead { All (λ cell. cell.at ≤ end_of_node (page_items doc) cell.at)
        table.now.grid.cells }
    requires order { MayMake doc (column_taken table.now column) }
    ensures means { IfOk result (MakesEdits doc.entry (column_taken table.now column)) }
    ensures cites { IfOk result (TxCites doc.entry.store.now) }
{
    let mut edits = Edits::new(alloc);
    for cell in table.grid.cells() {
        if !covers_column(*cell, column) {
            continue;
        }
        take_cell(alloc, doc, &mut edits, *cell)?;
    }
    let tx = edits.transaction(doc.list)?;
    Ok(tx)
}

/// The transaction that puts a column into the table that opens at a position: before the column of
/// this number, or after the last one where it is the number of columns. The cells that span into
/// the column grow by one column. Each other row has a new cell with an empty paragraph. It stands
/// before the row's first cell at or right of the column, else after its last cell, else before its
/// closing.
///
/// It is refused as by `grid`. Then `BadColumn` comes exactly where there are no columns, or fewer
/// than the number. Next is `Ragged` with the first row in which a position left of the column is
/// covered by no cell. Last is `SpanFull` with the position of the first cell that would grow to
/// more than 1,000 columns.
pub fn col_in(
    alloc: Global,
    doc: Doc<'_>,
    at: usize,
    column: usize,
) -> Result<Transaction, TableFault>
    requires doc { IsDoc doc }
    requires cites { All (CitesWell doc.store.now) doc.list.now.items }
    ensures means { IfOk result (λ tx.
        model.col_in (page_items doc.entry) at column ≡ Ok (by_value doc.entry.store.now tx)) }
    ensures cites { IfOk result (TxCites doc.entry.store.now) }
    ensures refused { IfErr result (
        IsTableRefusal (model.col_in (page_items doc.entry) at column)) }
    ensures memory { IfErr result (λ fault.
        fault ≡ TableFault.Memory
        → passes (is_opening_of Table) (slice_get (page_items doc.entry) at) ≡ true) }
{
    let table = laid_table(alloc, doc, at)?;
    if let Some(fault) = col_in_fault(&table.grid, table.gaps.as_slice(), column) {
        return Err(fault);
    }
    match put_column(alloc, doc, &table, column) {
        Ok(tx) => Ok(tx),
        Err(Memory) => Err(TableFault::Memory),
    }
}

/// The transaction that takes the column of a number out of the table that opens at a position. A
/// cell of more columns that covers it loses one column.
///
/// It is refused as by `grid`; then `BadColumn` comes exactly where the number isn't below that of
/// the columns.
pub fn col_out(
    alloc: Global,
    doc: Doc<'_>,
    at: usize,
    column: usize,
) -> Result<Transaction, TableFault>
    requires doc { IsDoc doc }
    requires cites { All (CitesWell doc.store.now) doc.list.now.items }
    ensures means { IfOk result (λ tx.
        model.col_out (page_items doc.entry) at column ≡ Ok (by_value doc.entry.store.now tx)) }
    ensures cites { IfOk result (TxCites doc.entry.store.now) }
    ensures refused { IfErr result (
        IsTableRefusal (model.col_out (page_items doc.entry) at column)) }
    ensures memory { IfErr result (λ fault.
        fault ≡ TableFault.Memory
        → passes (is_opening_of Table) (slice_get (page_items doc.entry) at) ≡ true) }
{
    let table = laid_table(alloc, doc, at)?;
    if let Some(fault) = col_out_fault(&table.grid, column) {
        return Err(fault);
    }
    match take_column(alloc, doc, &table, column) {
        Ok(tx) => Ok(tx),
        Err(Memory) => Err(TableFault::Memory),
    }
}
