// A table as a grid.
ghost use Rattle.std.specs.Prelude.{◌≡◌};

use model_edit::GridCell;
use std::marker::Model;
use ve_base::ListOf;

/// Cells with their rectangles.
pub type GridCells = ListOf<GridCell>;

/// A table as a grid: its cells with their rectangles, row by row.
#[derive(Drop)]
pub struct Grid {
    rows: usize,
    columns: usize,
    cells: GridCells,
}

impl Model for Grid {
    ghost use Rattle.model_edit.specs.Grid as model;

    ghost Value = { model.Grid };

    ghost view = { λ g. record { rows = g.rows; columns = g.columns; cells = g.cells } };
}

impl Grid {
    /// The grid of so many rows and columns with these cells.
    pub(crate) fn of(rows: usize, columns: usize, cells: GridCells) -> Grid
        ensures { result ≡ record { rows = rows; columns = columns; cells = cells } }
    {
        Grid {
            rows,
            columns,
            cells,
        }
    }

    /// How many rows it has.
    pub fn rows(&self) -> usize
        ensures { result ≡ self.now.rows }
    {
        self.rows
    }

    /// How many columns it has: the greatest end of a cell.
    pub fn columns(&self) -> usize
        ensures { result ≡ self.now.columns }
    {
        self.columns
    }

    /// The cells in the order of the table, each with its rectangle.
    pub fn cells(&self) -> &[GridCell]
        ensures { result.now ≡ self.now.cells }
    {
        self.cells.as_slice()
    }
}
