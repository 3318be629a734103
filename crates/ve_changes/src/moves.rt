// Rows, columns and list items that are moved, as drafts.
ghost use Rattle.std.specs.Prelude.{◌≡◌, true, IsOk, IfOk, IfErr};
ghost use Rattle.model_edit.specs.Lists as model_lists;
ghost use Rattle.model_edit.specs.Tables as model_tables;
ghost use Rattle.model_world.specs.Refusals.{refused_as, table_refusal, list_refusal};
ghost use Rattle.ve_editor.specs.Page.{IsPage};
ghost use Rattle.ve_offsets.specs.Docs.{page_items};
ghost use Rattle.ve_changes.specs.Stops.{IsRefused};
ghost use Rattle.ve_changes.specs.Drafts.{Drafts, IsDrafted};
ghost use Rattle.ve_changes.specs.Moves as model;

use crate::ChangeStop;
use crate::built::over_store;
use model_world::Request;
use std::alloc::Global;
use ve_offsets::Doc;
use ve_store::NewValues;
use ve_tx::Draft;

/// Whether a request moves a row, a column or a list item.
pub fn is_move(request: &Request) -> bool
    ensures { result ≡ model.is_move request.now }
{
    matches!(
        request,
        Request::RowIn { .. }
            | Request::RowOut { .. }
            | Request::ColIn { .. }
            | Request::ColOut { .. }
            | Request::Indent { .. }
            | Request::Outdent { .. }
    )
}

fn row_in(alloc: Global, doc: Doc<'_>, at: usize, row: usize) -> Result<Draft, ChangeStop>
    requires page { IsPage doc.store.now doc.list.now.items doc.tree.now }
    ensures { Drafts doc.entry.store.now
        (refused_as table_refusal (model_tables.row_in (page_items doc.entry) at row)) result }
{
    let tx = ve_tables::row_in(alloc, doc, at, row)?;
    Ok(over_store(alloc, doc, tx))
}

fn row_out(alloc: Global, doc: Doc<'_>, at: usize, row: usize) -> Result<Draft, ChangeStop>
    requires page { IsPage doc.store.now doc.list.now.items doc.tree.now }
    ensures { Drafts doc.entry.store.now
        (refused_as table_refusal (model_tables.row_out (page_items doc.entry) at row)) result }
{
    let tx = ve_tables::row_out(alloc, doc, at, row)?;
    Ok(over_store(alloc, doc, tx))
}

fn col_in(alloc: Global, doc: Doc<'_>, at: usize, column: usize) -> Result<Draft, ChangeStop>
    requires page { IsPage doc.store.now doc.list.now.items doc.tree.now }
    ensures { Drafts doc.entry.store.now
        (refused_as table_refusal (model_tables.col_in (page_items doc.entry) at column))
        result }
{
    let tx = ve_tables::col_in(alloc, doc, at, column)?;
    Ok(over_store(alloc, doc, tx))
}

fn col_out(alloc: Global, doc: Doc<'_>, at: usize, column: usize) -> Result<Draft, ChangeStop>
    requires page { IsPage doc.store.now doc.list.now.items doc.tree.now }
    ensures { Drafts doc.entry.store.now
        (refused_as table_refusal (model_tables.col_out (page_items doc.entry) at column))
        result }
{
    let tx = ve_tables::col_out(alloc, doc, at, column)?;
    Ok(over_store(alloc, doc, tx))
}

fn indent(alloc: Global, doc: Doc<'_>, at: usize) -> Result<Draft, ChangeStop>
    requires page { IsPage doc.store.now doc.list.now.items doc.tree.now }
    ensures drafts { Drafts doc.entry.store.now
        (refused_as list_refusal (model_lists.indent (page_items doc.entry) at)) result }
    ensures memory { IfErr result (λ stop.
        stop ≡ ChangeStop.Memory → IsOk (model_lists.indent (page_items doc.entry) at)) }
{
    let tx = ve_lists::indent(alloc, doc, at)?;
    Ok(over_store(alloc, doc, tx))
}

fn outdent(alloc: Global, doc: Doc<'_>, at: usize) -> Result<Draft, ChangeStop>
    requires page { IsPage doc.store.now doc.list.now.items doc.tree.now }
    ensures drafts { Drafts doc.entry.store.now
        (refused_as list_refusal (model_lists.outdent (page_items doc.entry) at)) result }
    ensures memory { IfErr result (λ stop.
        stop ≡ ChangeStop.Memory → IsOk (model_lists.outdent (page_items doc.entry) at)) }
{
    let mut values = NewValues::new(alloc, doc.store);
    let tx = ve_lists::outdent(alloc, doc, at, &mut values)?;
    Ok(Draft { tx, values })
}

/// The draft that moves a row, a column or a list item of a page, over the page's store; its values
/// are as those of `change_draft`. It is refused as the move's builder refuses, with the position
/// or the number that the builder names.
pub fn move_draft(alloc: Global, doc: Doc<'_>, request: &Request) -> Result<Draft, ChangeStop>
    requires moves { model.is_move request.now ≡ true }
    requires page { IsPage doc.store.now doc.list.now.items doc.tree.now }
    ensures ok { IfOk result (
        IsDrafted doc.entry.store.now (model.moved_by (page_items doc.entry) request.now)) }
    ensures refused { IfErr result (λ why.
        IsRefused why (model.moved_by (page_items doc.entry) request.now)) }
{
    match request {
        Request::RowIn { at, row } => row_in(alloc, doc, *at, *row),
        Request::RowOut { at, row } => row_out(alloc, doc, *at, *row),
        Request::ColIn { at, column } => col_in(alloc, doc, *at, *column),
        Request::ColOut { at, column } => col_out(alloc, doc, *at, *column),
        Request::Indent { at } => indent(alloc, doc, *at),
        Request::Outdent { at } => outdent(alloc, doc, *at),
        _ => unreachable!(),
    }
}
