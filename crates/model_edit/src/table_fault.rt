// Why a table has no grid, or is not changed.
use thiserror::Error;

/// Why a table has no grid, or a row or column is not put in or taken out. `at` counts the items before it; rows and columns count from 0.
#[derive(Clone, Copy, Debug, PartialEq, Eq, Error)]
pub enum TableFault {
    /// No table begins there.
    #[error("item {at} opens no table")]
    NotTable { at: usize },
    /// The cell covers a place that an earlier cell covers, or passes the last row of its section.
    #[error("the cell at {at} is crooked")]
    Crooked { at: usize },
    /// The table has `rows` rows.
    #[error("there is no row {row} of {rows}")]
    BadRow { row: usize, rows: usize },
    /// The grid has `columns` columns.
    #[error("there is no column {column} of {columns}")]
    BadColumn { column: usize, columns: usize },
    /// A new row would have more than 1,000 columns to fill.
    #[error("{columns} columns are too many")]
    TooWide { columns: usize },
    /// The row has a gap left of the new column.
    #[error("row {row} has a gap before the column")]
    Ragged { row: usize },
    /// The cell begins in the row that is to go, and reaches further down.
    #[error("the cell at {at} spans further rows")]
    Spanned { at: usize },
    /// The cell's span cannot grow.
    #[error("the span of the cell at {at} is at its limit")]
    SpanFull { at: usize },
    /// There is no memory for it.
    #[error("there is no memory for it")]
    Memory,
}
