// Cells placed in a grid, one after the other.
ghost use Rattle.std.specs.Prelude.{◌≡◌, ◌≤◌, ◌<◌, ◌^◌, [], IfOk, IfErr};
ghost use Rattle.ve_base.specs.Limits.{max_row_span, max_column_span};
ghost use Rattle.model_edit.specs.Grid.{right_end};
ghost use Rattle.ve_tables.specs.Covered.{IsGap};
ghost use Rattle.ve_tables.specs.Placed.{next_cell, IsNext, IsCellRefusal};

use crate::floors::{Floors, cover, first_free, no_floors, settle};
use crate::grid_cells::{Grid, GridCells};
use model_edit::{GridCell, TableFault};
use std::alloc::Global;
use std::marker::Model;
use ve_base::Memory;

/// The cells that are placed so far, and the row in which more are placed.
#[derive(Drop)]
pub struct Placing {
    cells: GridCells,
    floors: Floors,
    row: usize,
    left: usize,
    end: usize,
}

/// A placing at the end of its row, with the first column that no cell covers there.
#[derive(Drop)]
pub struct RowEnd {
    pub placing: Placing,
    pub gap: usize,
}

impl Model for Placing {
    ghost use Rattle.ve_tables.specs.Placed.{Placed};
    ghost use Rattle.ve_tables.specs.Floors.{IsPlacing};

    ghost Value = { Placed };

    ghost view = { λ p. record { cells = p.cells; row = p.row; left = p.left; end = p.end } };

    ghost invariant = { λ p. IsPlacing p.cells p.row p.end p.floors };
}

impl Placing {
    /// No cells, in the first row, which is the last of its section. It takes no memory.
    pub fn new(alloc: Global) -> Placing
        ensures { result ≡ record { cells = []; row = 0; left = 1; end = 0 } }
    {
        Placing {
            cells: GridCells::new(alloc),
            floors: no_floors(alloc),
            row: 0,
            left: 1,
            end: 0,
        }
    }

    /// Goes on to a row, from which on its section has `left` rows.
    pub fn begin_row(self, row: usize, left: usize) -> Placing
        requires { self.row ≤ row }
        ensures { result ≡ record { cells = self.cells; row = row; left = left; end = 0 } }
    {
        Placing {
            cells: self.cells,
            floors: self.floors,
            row,
            left,
            end: 0,
        }
    }

    /// Positions a cell with its spans after those before it. `Crooked` comes exactly where it
    /// would cover a position that is covered, or pass the last row of its section.
    pub fn with_cell(self, at: usize, rows: usize, columns: usize) -> Result<Placing, TableFault>
        requires row { self.row < 2 ^ 62 }
        requires rows { 1 ≤ rows }
        requires columns { 1 ≤ columns }
        requires few_rows { rows ≤ max_row_span }
        requires few_columns { columns ≤ max_column_span }
        ensures ok { IfOk result (IsNext self (next_cell self at rows columns)) }
        ensures refused { IfErr result (IsCellRefusal self (next_cell self at rows columns)) }
    {
        if self.left < rows {
            return Err(TableFault::Crooked { at });
        }
        let mut floors = self.floors;
        let Ok(found) = cover(&mut floors, self.row, columns, self.row + rows) else {
            return Err(TableFault::Memory);
        };
        let Some(column) = found else {
            return Err(TableFault::Crooked { at });
        };
        let cell = GridCell {
            at,
            row: self.row,
            column,
            rows,
            columns,
        };
        let mut cells = self.cells;
        match cells.push(cell) {
            Ok(()) => Ok(Placing {
                cells,
                floors,
                row: self.row,
                left: self.left,
                end: column + columns,
            }),
            Err(Memory) => Err(TableFault::Memory),
        }
    }

    /// The first column that no cell covers in the row, with the placing as it is.
    pub(crate) fn end_row(self) -> Result<RowEnd, Memory>
        ensures same { IfOk result (λ end. end.placing ≡ self) }
        ensures gap { IfOk result (λ end. IsGap self.cells self.row end.gap) }
    {
        let mut floors = self.floors;
        settle(&mut floors, self.row)?;
        let gap = first_free(&floors);
        let placing = Placing {
            cells: self.cells,
            floors,
            row: self.row,
            left: self.left,
            end: self.end,
        };
        Ok(RowEnd { placing, gap })
    }

    /// The grid of so many rows with these cells. It takes no memory.
    pub fn finish(self, rows: usize) -> Grid
        ensures { result
            ≡ record { rows = rows; columns = right_end self.cells; cells = self.cells } }
    {
        let columns = self.floors.width;
        Grid::of(rows, columns, self.cells)
    }
}
