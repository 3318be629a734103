// A page, from its text.
ghost use Rattle.std.specs.Prelude.{◌≡◌, IfErr, IfOk};
ghost use Rattle.model_page.specs.OpenPage.{read_page};
ghost use Rattle.model_page.specs.PageItems.{items_of_page, or_nothing, page_made};
ghost use Rattle.model_spelling.specs.Parsed.{forest_of};
ghost use Rattle.ve_read.specs.Faults.{OfSize, RefusesBody, Within, limit_from};
ghost use Rattle.ve_read.specs.Forests.{AreNodesOf, IsBodyRead, rows_in};
ghost use Rattle.ve_read.specs.Pages.{HasPlaces, IsReadPage, IsRefusal};

use crate::bodies::read_bodies;
use crate::fault::{ReadFault, fault_in_page, stop_in_page};
use crate::forests::read_whole;
use crate::moved_rows::rows_in_page;
use std::alloc::Global;
use ve_base::{MAX_ITEMS, MAX_PAGE, MAX_VALUES};
use ve_html_scan::{Span, body_of};
use ve_html_tree::{Forest, HtmlFault, read};
use ve_items::Linear;
use ve_kinds::Kind;
use ve_origin::OriginTable;
use ve_reader::{Purpose, Reader, pieces_are_even};
use ve_store::Store;

/// A page as it was first read: its list, the values that the list cites, a row for each origin,
/// and the bytes of its body.
#[derive(Drop)]
pub struct PageRead {
    pub list: Linear,
    pub values: Store,
    pub rows: OriginTable,
    pub body: Span,
}

/// Reads the body of a page by its forest, and then the bodies of its references. The body begins
/// at the byte `from`.
fn read_forest(
    alloc: Global,
    text: &str,
    forest: &Forest<'_>,
    from: usize,
) -> Result<Reader, ReadFault>
    requires { AreNodesOf text.now forest.now }
    ensures items { IfOk result (λ r.
        r.items ≡ items_of_page (page_made from (or_nothing (forest_of text.now)))) }
    ensures rows { IfOk result (λ r. r.rows ≡ rows_in text.now) }
    ensures limit { Within result (limit_from from text.now) }
{
    let mut reader = Reader::new(alloc, Purpose::Page);
    let white = match read_whole(alloc, text, forest, &mut reader, Kind::Root) {
        Ok(white) => white,
        Err(stop) => return Err(stop_in_page(stop, from)),
    };
    read_bodies(alloc, &mut reader, white, from)?;
    Ok(reader)
}

/// Reads the body of a page, which has this text and begins at the byte `from`.
fn read_body(alloc: Global, text: &str, from: usize) -> Result<Reader, ReadFault>
    ensures ok { IfOk result (λ r. IsBodyRead from text.now r) }
    ensures refused { IfErr result (λ e. RefusesBody e from text.now) }
{
    let forest = match read(alloc, text) {
        Ok(forest) => forest,
        Err(fault) => return Err(fault_in_page(fault, from)),
    };
    let reader = read_forest(alloc, text, &forest, from)?;
    Ok(reader)
}

/// Refuses a page of too many items, or else of too many values.
fn check_size(count: usize, values: usize) -> Result<(), ReadFault>
    ensures { OfSize count values result }
{
    if count > MAX_ITEMS {
        return Err(ReadFault::TooManyItems { count });
    }
    if values > MAX_VALUES {
        return Err(ReadFault::StoreFull);
    }
    Ok(())
}

/// Reads a page: the first of its refusals, in the order of `ReadFault`, or all that it holds. It
/// takes a store of its own, and hands it over.
pub fn page(alloc: Global, text: &str) -> Result<PageRead, ReadFault>
    ensures read { IfOk result (λ p. IsReadPage text.now p) }
    ensures places { IfOk result (λ p. HasPlaces p) }
    ensures refused { IfErr result (λ e. IsRefusal e (read_page text.now)) }
{
    if text.len() > MAX_PAGE {
        return Err(ReadFault::PageTooLong { len: text.len() });
    }
    let body = match body_of(text) {
        Ok(body) => body,
        Err(fault) => return Err(ReadFault::Html(HtmlFault::Scan(fault))),
    };
    let reader = read_body(alloc, &text[body.from..body.to], body.from)?;
    let parts = reader.into_parts()?;
    check_size(parts.list.len(), parts.values.len())?;
    let rows = rows_in_page(parts.rows, body.from)?;
    pieces_are_even();
    Ok(PageRead {
        list: parts.list,
        values: parts.values,
        rows,
        body,
    })
}
