// A cell of a table's grid.
use std::alloc::Global;
use ve_base::{Memory, TryCopy};

/// A cell with the rectangle of the grid that it covers. Rows and columns count from 0.
#[derive(Clone, Copy, Debug, PartialEq, Eq)]
pub struct GridCell {
    /// How many items stand before its opening.
    pub at: usize,
    /// The first row that it covers.
    pub row: usize,
    /// The first column that it covers.
    pub column: usize,
    /// How many rows it covers.
    pub rows: usize,
    /// How many columns it covers.
    pub columns: usize,
}

impl TryCopy for GridCell {
    fn copy(&self, _alloc: Global) -> Result<GridCell, Memory> {
        Ok(*self)
    }
}
