// Tests of a table's cells before rows or columns change.
ghost use Rattle.std.specs.Prelude.{◌≡◌, option_map};
ghost use Rattle.model_edit.specs.Grid as grid;
ghost use Rattle.model_edit.specs.Tables as model;
ghost use Rattle.model_edit.specs.Tables.{first_fault, at_first};
ghost use Rattle.ve_tables.specs.CellQuestions.{cell_answer};

use model_edit::GridCell;
use ve_base::{MAX_COLUMN_SPAN, MAX_ROW_SPAN};

/// A test of each cell, with the number of a row or a column.
#[derive(Clone, Copy)]
pub enum CellQuestion {
    /// Whether it spans into the row, and has the greatest span.
    IsFullAtRow(usize),
    /// Whether it spans into the column, and has the greatest span.
    IsFullAtColumn(usize),
    /// Whether it begins in the row, and covers more rows.
    GoesBelow(usize),
}

/// Whether a cell begins above a row and reaches it.
pub fn spans_row(cell: GridCell, row: usize) -> bool
    ensures { result ≡ model.spans_row row cell }
{
    if row <= cell.row {
        return false;
    }
    row - cell.row < cell.rows
}

/// Whether a cell covers a column.
pub fn covers_column(cell: GridCell, column: usize) -> bool
    ensures { result ≡ grid.covers_column cell column }
{
    if column < cell.column {
        return false;
    }
    column - cell.column < cell.columns
}

/// Whether a cell begins left of a column and reaches it.
pub fn spans_column(cell: GridCell, column: usize) -> bool
    ensures { result ≡ model.spans_column column cell }
{
    if column <= cell.column {
        return false;
    }
    column - cell.column < cell.columns
}

/// Whether a cell begins in a row and covers more rows.
fn goes_below(cell: GridCell, row: usize) -> bool
    ensures { result ≡ cell_answer (CellQuestion.GoesBelow row) cell }
{
    if cell.row != row {
        return false;
    }
    1 < cell.rows
}

/// Whether a cell spans into a row and has the greatest span.
fn is_full_at_row(cell: GridCell, row: usize) -> bool
    ensures { result ≡ cell_answer (CellQuestion.IsFullAtRow row) cell }
{
    if !spans_row(cell, row) {
        return false;
    }
    MAX_ROW_SPAN <= cell.rows
}

/// Whether a cell spans into a column and has the greatest span.
fn is_full_at_column(cell: GridCell, column: usize) -> bool
    ensures { result ≡ cell_answer (CellQuestion.IsFullAtColumn column) cell }
{
    if !spans_column(cell, column) {
        return false;
    }
    MAX_COLUMN_SPAN <= cell.columns
}

/// The answer of a test for a cell.
fn answer(question: CellQuestion, cell: GridCell) -> bool
    ensures { result ≡ cell_answer question cell }
{
    match question {
        CellQuestion::IsFullAtRow(row) => is_full_at_row(cell, row),
        CellQuestion::IsFullAtColumn(column) => is_full_at_column(cell, column),
        CellQuestion::GoesBelow(row) => goes_below(cell, row),
    }
}

/// The position of the first cell of which the answer is yes.
pub fn first_cell(cells: &[GridCell], question: CellQuestion) -> Option<usize>
    ensures { (named : _)
        → first_fault (at_first (cell_answer question) cells.now named) ≡ option_map named result }
{
    for cell in cells {
        if answer(question, *cell) {
            return Some(cell.at);
        }
    }
    None
}
