// The grid of a table.
ghost use Rattle.std.specs.Prelude.{◌≡◌, All, IfOk};
ghost use Rattle.model_items.specs.Plain.{CitesWell};
ghost use Rattle.ve_answers.specs.Faults.{refusal_by};
ghost use Rattle.ve_answers.specs.Replies.{grid_reply};
ghost use Rattle.ve_offsets.specs.Docs.{page_items, IsDoc};
ghost use Rattle.ve_json.specs.Answers.{reply_of, AnswerCites};

use model_edit::GridCell;
use model_world::{GridCells, Refusal};
use std::alloc::Global;
use ve_base::Memory;
use ve_json::Answer;
use ve_offsets::Doc;
use ve_tables::TableFault;

/// The refusal that a table's fault is, and none for want of memory.
fn refusal_by(fault: TableFault) -> Option<Refusal>
    ensures { result ≡ refusal_by fault }
{
    match fault {
        TableFault::NotTable { at } => Some(Refusal::NotTable { at }),
        TableFault::Crooked { at } => Some(Refusal::Crooked { at }),
        TableFault::BadRow { row, rows } => Some(Refusal::BadRow { row, rows }),
        TableFault::BadColumn { column, columns } => Some(Refusal::BadColumn { column, columns }),
        TableFault::TooWide { columns } => Some(Refusal::TooWide { columns }),
        TableFault::Ragged { row } => Some(Refusal::Ragged { row }),
        TableFault::Spanned { at } => Some(Refusal::Spanned { at }),
        TableFault::SpanFull { at } => Some(Refusal::SpanFull { at }),
        TableFault::Memory => None,
    }
}

/// Cells as a list of their own.
fn cells_of(alloc: Global, cells: &[GridCell]) -> Result<GridCells, Memory>
    ensures { IfOk result (λ list. list ≡ cells.now) }
{
    let mut list = Vec::new(alloc);
    list.extend_from_slice(cells)?;
    Ok(GridCells::from_vec(list))
}

/// To `grid`: how many rows and columns the table that opens at a position has, and its cells with
/// their rectangles. It is refused where no table opens there, or a cell is crooked. The nodes of
/// the table are found by the tree, and no list is copied.
pub fn grid<'a>(alloc: Global, doc: Doc<'a>, at: usize) -> Result<Answer<'a>, Memory>
    requires doc { IsDoc doc }
    requires cites { All (CitesWell doc.store.now) doc.list.now.items }
    ensures reply { IfOk result (λ answer. reply_of answer ≡ grid_reply (page_items doc.entry) at) }
    ensures cites { IfOk result AnswerCites }
{
    match ve_tables::grid(alloc, doc, at) {
        Ok(grid) => Ok(Answer::Grid {
            rows: grid.rows(),
            columns: grid.columns(),
            cells: cells_of(alloc, grid.cells())?,
        }),
        Err(fault) => match refusal_by(fault) {
            Some(refusal) => Ok(Answer::No(refusal)),
            None => Err(Memory),
        },
    }
}
