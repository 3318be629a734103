// Rows with the bytes of the page.
ghost use Rattle.std.specs.Prelude.{◌≡◌, IfOk, map};
ghost use Rattle.ve_read.specs.Moved.{row_moved};

use crate::fault::byte_in_page;
use ve_base::Memory;
use ve_html_scan::Span;
use ve_origin::{OriginRow, OriginTable};

/// A row of the body's text, which begins at a byte of the page.
fn row_in_page(row: OriginRow, from: usize) -> Result<OriginRow, Memory>
    ensures { IfOk result (λ moved. moved ≡ row_moved from row) }
{
    let first = byte_in_page(from, row.span.from)?;
    let last = byte_in_page(from, row.span.to)?;
    Ok(OriginRow {
        span: Span {
            from: first,
            to: last,
        },
        from: row.from,
        to: row.to,
    })
}

/// All rows, each put in its own position.
pub fn rows_in_page(table: OriginTable, from: usize) -> Result<OriginTable, Memory>
    ensures { IfOk result (λ moved. moved ≡ map (row_moved from) table) }
{
    let mut rows = table.into_vec();
    let mut k = 0;
    while k < rows.len() {
        rows[k] = row_in_page(rows[k], from)?;
        k += 1;
    }
    Ok(OriginTable::from_vec(rows))
}
