// New cells, and a new row of them.
ghost use Rattle.std.specs.Prelude.{◌≡◌, ◌≤◌, length, false, All, IfOk, OnOk};
ghost use Rattle.model_items.specs.Plain.{plain_list, CitesWell};
ghost use Rattle.model_edit.specs.Tables as model;
ghost use Rattle.ve_tables.specs.Fresh.{AreMarked, AreTaken, AreCellsPut};

use crate::Grid;
use crate::cell_questions::{covers_column, spans_row};
use model_edit::GridCell;
use std::alloc::Global;
use ve_base::Memory;
use ve_items::{Item, Items};
use ve_kinds::Kind;

/// The opening of a kind, with no attributes.
fn opening(kind: Kind) -> Item
    ensures { result ≡ Item.Opening kind false None None None None }
{
    Item::Opening {
        kind,
        head: None,
        marks: None,
        pre: None,
        origin: None,
        generated: false,
    }
}

/// The closing of a kind.
fn closing(kind: Kind) -> Item
    ensures { result ≡ Item.Closing kind None }
{
    Item::Closing { kind, pre: None }
}

/// A new cell with an empty paragraph.
pub fn new_cell() -> [Item; 4]
    ensures means { (values : _) → plain_list values result ≡ model.new_cell }
    ensures cites { (values : _) → All (CitesWell values) result }
{
    [
        opening(Kind::Td),
        opening(Kind::P),
        closing(Kind::P),
        closing(Kind::Td),
    ]
}

/// Marks the columns that a cell covers.
fn mark(taken: &mut Vec<bool>, cell: GridCell)
    ensures { AreMarked cell taken.old.items taken.new.items }
{
    for column in cell.column..taken.len() {
        if !covers_column(cell, column) {
            return;
        }
        taken[column] = true;
    }
}

/// For each column whether a cell spans there into a row.
fn taken_columns(alloc: Global, grid: &Grid, row: usize) -> Result<Vec<bool>, Memory>
    ensures { IfOk result (λ taken. AreTaken row grid.now taken.items) }
{
    let mut taken = Vec::from_elem(alloc, false, grid.columns())?;
    for cell in grid.cells() {
        if !spans_row(*cell, row) {
            continue;
        }
        mark(&mut taken, *cell);
    }
    Ok(taken)
}

/// Appends a new cell for each column that isn't taken.
fn put_cells(items: &mut Items, taken: &[bool]) -> Result<(), Memory>
    ensures { OnOk result (AreCellsPut items.old taken.now items.new) }
{
    let cell = new_cell();
    for taken in taken {
        if *taken {
            continue;
        }
        items.extend(&cell)?;
    }
    Ok(())
}

/// A row with a new cell in each column in which no cell of the grid spans into it.
pub fn new_row(alloc: Global, grid: &Grid, row: usize) -> Result<Items, Memory>
    ensures means { IfOk result (λ items.
        (values : _) → plain_list values items ≡ model.new_row grid.now row) }
    ensures cites { IfOk result (λ items. (values : _) → All (CitesWell values) items) }
{
    let taken = taken_columns(alloc, grid, row)?;
    let mut items = Items::new(alloc);
    items.push(opening(Kind::Tr))?;
    put_cells(&mut items, &taken)?;
    items.push(closing(Kind::Tr))?;
    Ok(items)
}
