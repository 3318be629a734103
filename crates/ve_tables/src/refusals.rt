// Why a row or a column isn't put in or taken out.
ghost use Rattle.std.specs.Prelude.{◌≡◌, ◌||◌, ◌==◌, nat_lt};
ghost use Rattle.model_edit.specs.Causes.{SpanFull};
ghost use Rattle.model_edit.specs.Tables.{at_first};
ghost use Rattle.ve_tables.specs.CellQuestions.{cell_answer, refusal, row_in_causes, row_out_causes, col_in_causes, col_out_causes};
ghost use Rattle.ve_tables.specs.Covered.{AreGaps};

use crate::Grid;
use crate::cell_questions::{CellQuestion, first_cell};
use crate::ragged::first_ragged;
use model_edit::{GridCell, TableFault};
use ve_base::MAX_COLUMN_SPAN;

/// Whether there are no rows, or columns, or fewer than a number.
fn is_past(number: usize, count: usize) -> bool
    ensures { result ≡ ((count == 0) || nat_lt count number) }
{
    if count == 0 {
        return true;
    }
    count < number
}

/// The refusal that names the first cell of which the answer is yes.
fn full_fault(cells: &[GridCell], question: CellQuestion) -> Option<TableFault>
    ensures { result ≡ refusal (at_first (cell_answer question) cells.now (λ at. SpanFull at)) }
{
    let at = first_cell(cells, question)?;
    Some(TableFault::SpanFull { at })
}

/// Why no row can be put in before a row of the grid, or after the last one.
pub fn row_in_fault(grid: &Grid, row: usize) -> Option<TableFault>
    ensures { result ≡ refusal (row_in_causes row grid.now) }
{
    let rows = grid.rows();
    if is_past(row, rows) {
        return Some(TableFault::BadRow { row, rows });
    }
    let columns = grid.columns();
    if MAX_COLUMN_SPAN < columns {
        return Some(TableFault::TooWide { columns });
    }
    full_fault(grid.cells(), CellQuestion::IsFullAtRow(row))
}

/// Why a row can't be taken out.
pub fn row_out_fault(grid: &Grid, row: usize) -> Option<TableFault>
    ensures { result ≡ refusal (row_out_causes row grid.now) }
{
    let rows = grid.rows();
    if rows <= row {
        return Some(TableFault::BadRow { row, rows });
    }
    let at = first_cell(grid.cells(), CellQuestion::GoesBelow(row))?;
    Some(TableFault::Spanned { at })
}

/// Why no column can be put in before a column of the grid, or after the last one. With each row's first column that no
/// cell covers.
pub fn col_in_fault(grid: &Grid, gaps: &[usize], column: usize) -> Option<TableFault>
    requires gaps { AreGaps grid.now.cells grid.now.rows gaps.now }
    ensures { result ≡ refusal (col_in_causes column grid.now) }
{
    let columns = grid.columns();
    if is_past(column, columns) {
        return Some(TableFault::BadColumn { column, columns });
    }
    if let Some(row) = first_ragged(gaps, column) {
        return Some(TableFault::Ragged { row });
    }
    full_fault(grid.cells(), CellQuestion::IsFullAtColumn(column))
}

/// Why a column can't be taken out.
pub fn col_out_fault(grid: &Grid, column: usize) -> Option<TableFault>
    ensures { result ≡ refusal (col_out_causes column grid.now) }
{
    let columns = grid.columns();
    if columns <= column {
        return Some(TableFault::BadColumn { column, columns });
    }
    None
}
