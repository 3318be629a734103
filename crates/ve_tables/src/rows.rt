// The rows of a table.
ghost use Rattle.std.specs.Prelude.{◌≡◌, ◌++◌, map, IfOk, OnOk};
ghost use Rattle.model_edit.specs.Grid as model;
ghost use Rattle.ve_offsets.specs.Docs.{IsDoc, page_items};
ghost use Rattle.ve_tables.specs.Rows.{row_of, rows_at};

use crate::children::children_of;
use std::alloc::Global;
use ve_base::{ListOf, Memory};
use ve_kinds::Kind;
use ve_offsets::Doc;

/// A row: the position of its opening, and how many rows its section has from it on.
#[derive(Clone, Copy)]
pub struct TableRow {
    pub at: usize,
    pub left: usize,
}

/// Appends the rows of a section.
fn push_rows(rows: &mut ListOf<TableRow>, places: &[usize]) -> Result<(), Memory>
    ensures { OnOk result (map row_of rows.new ≡ map row_of rows.old ++ rows_at places.now) }
{
    for i in 0..places.len() {
        rows.push(TableRow {
            at: places[i],
            left: places.len() - i,
        })?;
    }
    Ok(())
}

/// The rows of the table that opens at a position, section by section.
pub fn table_rows(alloc: Global, doc: Doc<'_>, at: usize) -> Result<ListOf<TableRow>, Memory>
    requires { IsDoc doc }
    ensures { IfOk result (λ rows. map row_of rows ≡ model.table_rows (page_items doc.entry) at) }
{
    let mut rows = ListOf::new(alloc);
    let sections = children_of(alloc, doc, at, &[Kind::Thead, Kind::Tbody, Kind::Tfoot])?;
    for section in sections.as_slice() {
        let places = children_of(alloc, doc, *section, &[Kind::Tr])?;
        push_rows(&mut rows, places.as_slice())?;
    }
    Ok(rows)
}
