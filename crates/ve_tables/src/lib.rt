//! The grid of a table of a page, and rows and columns put in and taken out, as transactions.
//! `grid` gives the model's grid; `row_in`, `row_out`, `col_in` and `col_out` give the model's
//! transactions, or the model's refusals. Nothing is written, and no other builder is known.
//!
//! The rows of a table's sections and the cells of its rows are found by the tree, a look-up for
//! each node just inside the table, its sections and its rows. The spans of a cell are read once
//! from its attributes (`span_of`). `Placing` lays the cells out row by row, each at the least
//! column that isn't left of the cell before it and isn't covered from above. It keeps the runs of
//! columns that cells cover, by the row below the cell, and those that are free. So a table takes
//! the time of its rows and cells, times a logarithm, whatever they span. A change goes once over
//! the cells, in the order of the list.
//!
//! Definitions, in reading order: `Placed` (the cells placed so far, and the next one), `Refused`
//! (how a table is refused). The others serve private functions: `Runs` (runs of columns, and the
//! floor that they give a column), `Floors` (the columns' floors beside the cells), `Rows` (nodes
//! just inside another), `CellQuestions` (tests of cells, and the causes that refuse), `Covered`
//! (which positions cells cover), `Fresh` (the new cells of a row) and `PartWay` (how far the edits
//! are collected). A grid, and a change of it, are defined in `model_edit`'s `Grid` and `Tables`.
//! Law: the next cell is the model's (`next_is_placed`).
#![tactic(auto)]

mod cell_questions;
mod cells;
mod children;
mod column_edits;
mod floors;
mod fresh;
mod grid_cells;
mod laws;
mod placing;
mod ragged;
mod refusals;
mod row_edits;
mod rows;
mod runs;
mod span_attributes;
mod spans;
mod table;

pub use column_edits::{col_in, col_out};
pub use grid_cells::{Grid, GridCells};
pub use laws::next_is_placed;
pub use model_edit::{GridCell, TableFault};
pub use placing::Placing;
pub use row_edits::{row_in, row_out};
pub use span_attributes::span_of;
pub use table::grid;
