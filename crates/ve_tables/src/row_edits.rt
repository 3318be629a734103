// Rows put in and taken out.
ghost use Rattle.std.specs.Prelude.{◌≡◌, ◌<◌, ◌≤◌, true, length, map, slice_get, Ok, All, IfOk, IfErr};
ghost use Rattle.ve_kinds.specs.declared.kind.Kind.TheVariants.{Table};
ghost use Rattle.model_items.specs.Offsets.{end_of_node, passes};
ghost use Rattle.model_items.specs.Plain.{CitesWell};
ghost use Rattle.model_edit.specs.Brackets.{is_opening_of};
ghost use Rattle.model_edit.specs.Tables as model;
ghost use Rattle.ve_offsets.specs.Docs.{IsDoc, page_items};
ghost use Rattle.ve_tx.specs.Cites.{TxCites};
ghost use Rattle.ve_tx.specs.Operation.{by_value};
ghost use Rattle.ve_tables.specs.CellQuestions.{cell_answer};
ghost use Rattle.ve_tables.specs.declared.cell_questions.CellQuestion.TheVariants.{IsFullAtRow};
ghost use Rattle.ve_tables.specs.PartWay.{AreNone, MakesEdits, MayMake, row_put, row_taken};
ghost use Rattle.ve_tables.specs.Refused.{IsTableRefusal};
ghost use Rattle.ve_tables.specs.Rows.{row_of};

use crate::cell_questions::spans_row;
use crate::fresh::new_row;
use crate::refusals::{row_in_fault, row_out_fault};
use crate::rows::TableRow;
use crate::spans::{node_end, set_span};
use crate::table::{LaidTable, laid_table};
use model_edit::TableFault;
use std::alloc::Global;
use ve_base::Memory;
use ve_edits::Edits;
use ve_offsets::Doc;
use ve_tx::Transaction;

/// Where a row that is put in stands: before the row of this number, or after the last one.
fn row_place(doc: Doc<'_>, rows: &[TableRow], row: usize) -> usize
    requires doc { IsDoc doc }
    requires some { 0 < length rows.now }
    requires within { All (λ row. row.at < length doc.list.now.items) rows.now }
    ensures { result ≡ model.row_place (page_items doc.entry) (map row_of rows.now) row }
{
    if row < rows.len() {
        return rows[row].at;
    }
    node_end(doc, rows[rows.len() - 1].at)
}

/// The transaction that puts a row in, where none of the cells that grow is full.
fn put_row(
    alloc: Global,
    doc: Doc<'_>,
    table: &LaidTable,
    row: usize,
) -> Result<Transaction, Memory>
    requires doc { IsDoc doc }
    requires cites { All (CitesWell doc.store.now) doc.list.now.items }
    requires some { 0 < length table.now.rows }
    requires within { All (λ row. row.at < length doc.list.now.items) table.now.rows }
    requires order { MayMake doc (row_put table.now row) }
    requires room { AreNone (cell_answer (IsFullAtRow row)) table.now.grid.cells }
    ensures means { IfOk result (MakesEdits doc.entry (row_put table.now row)) }
    ensures cites { IfOk result (TxCites doc.entry.store.now) }
{
    let mut edits = Edits::new(alloc);
    for cell in table.grid.cells() {
        if !spans_row(*cell, row) {
            continue;
        }
        set_span(alloc, doc, &mut edits, cell.at, "rowspan", cell.rows + 1)?;
    }
    let place = row_place(doc, table.rows.as_slice(), row);
    let inserted = new_row(alloc, &table.grid, row)?;
    edits.change(doc.list, place, 0, inserted.as_slice())?;
    let tx = edits.transaction(doc.list)?;
    Ok(tx)
}

/// The transaction that takes a row out, no cell of which covers more rows.
fn take_row(
    alloc: Global,
    doc: Doc<'_>,
    table: &LaidTable,
    row: usize,
) -> Result<Transaction, Memory>
    requires doc { IsDoc doc }
    requires cites { All (CitesWell doc.store.now) doc.list.now.items }
    requires row { row < length table.now.rows }
    requires within { All (λ row. row.at < length doc.list.now.items) table.now.rows }
    requires ahead { All (λ row. row.at ≤ end_of_node (page_items doc) row.at) table.now.rows }
    requires order { MayMake doc (row_taken table.now row) }
    ensures means { IfOk result (MakesEdits doc.entry (row_taken table.now row)) }
    ensures cites { IfOk result (TxCites doc.entry.store.now) }
{
    let mut edits = Edits::new(alloc);
    for cell in table.grid.cells() {
        if !spans_row(*cell, row) {
            continue;
        }
        set_span(alloc, doc, &mut edits, cell.at, "rowspan", cell.rows - 1)?;
    }
    let from = table.rows.as_slice()[row].at;
    let to = node_end(doc, from);
    edits.change(doc.list, from, to - from, &[])?;
    let tx = edits.transaction(doc.list)?;
    Ok(tx)
}

/// The transaction that puts a row into the table that opens at a position. It goes before the row
/// of this number, in its section, or after the last row where it is the number of rows. The cells
/// that span into the row grow by one row. In each other column the row has a new cell with an
/// empty paragraph.
///
/// It is refused as by `grid`. Then `BadRow` comes exactly where there are no rows, or fewer than
/// the number, and next `TooWide` exactly where there are over 1,000 columns. Last is `SpanFull`
/// with the position of the first cell that would grow to more than 65,534 rows.
pub fn row_in(alloc: Global, doc: Doc<'_>, at: usize, row: usize) -> Result<Transaction, TableFault>
    requires doc { IsDoc doc }
    requires cites { All (CitesWell doc.store.now) doc.list.now.items }
    ensures means { IfOk result (λ tx.
        model.row_in (page_items doc.entry) at row ≡ Ok (by_value doc.entry.store.now tx)) }
    ensures cites { IfOk result (TxCites doc.entry.store.now) }
    ensures refused { IfErr result (IsTableRefusal (model.row_in (page_items doc.entry) at row)) }
    ensures memory { IfErr result (λ fault.
        fault ≡ TableFault.Memory
        → passes (is_opening_of Table) (slice_get (page_items doc.entry) at) ≡ true) }
{
    let table = laid_table(alloc, doc, at)?;
    if let Some(fault) = row_in_fault(&table.grid, row) {
        return Err(fault);
    }
    match put_row(alloc, doc, &table, row) {
        Ok(tx) => Ok(tx),
        Err(Memory) => Err(TableFault::Memory),
    }
}

/// The transaction that takes the row of a number out of the table that opens at a position. The
/// cells that span into it from above lose one row.
///
/// It is refused as by `grid`. Then `BadRow` comes exactly where the number isn't below that of the
/// rows. Last is `Spanned` with the position of the first cell that begins in the row and covers
/// more rows.
pub fn row_out(
    alloc: Global,
    doc: Doc<'_>,
    at: usize,
    row: usize,
) -> Result<Transaction, TableFault>
    requires doc { IsDoc doc }
    requires cites { All (CitesWell doc.store.now) doc.list.now.items }
    ensures means { IfOk result (λ tx.
        model.row_out (page_items doc.entry) at row ≡ Ok (by_value doc.entry.store.now tx)) }
    ensures cites { IfOk result (TxCites doc.entry.store.now) }
    ensures refused { IfErr result (IsTableRefusal (model.row_out (page_items doc.entry) at row)) }
    ensures memory { IfErr result (λ fault.
        fault ≡ TableFault.Memory
        → passes (is_opening_of Table) (slice_get (page_items doc.entry) at) ≡ true) }
{
    let table = laid_table(alloc, doc, at)?;
    if let Some(fault) = row_out_fault(&table.grid, row) {
        return Err(fault);
    }
    match take_row(alloc, doc, &table, row) {
        Ok(tx) => Ok(tx),
        Err(Memory) => Err(TableFault::Memory),
    }
}
