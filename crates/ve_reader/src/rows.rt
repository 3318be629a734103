// Origins, and how deep nodes may stand.
ghost use Rattle.std.specs.Prelude.{◌≡◌, ◌++◌, IfOk, OnOk};
ghost use Rattle.ve_reader.specs.ReadSoFar.{next_origin, rows_ended};
ghost use Rattle.ve_reader.specs.Stops.{Stops, opening_limit};
ghost use Rattle.ve_reader.specs.Shown.{generated_here, row_here};

use crate::purpose::{Purpose, ReadStop};
use ve_base::{MAX_OPEN_KINDS, Memory};
use ve_html_scan::Span;
use ve_origin::OriginRow;

/// Stops where so many kinds are open that one more would be too many.
pub fn check_depth(purpose: Purpose, depth: usize, at: usize) -> Result<(), ReadStop>
    ensures { Stops result (opening_limit purpose depth at) }
{
    match purpose {
        Purpose::Page | Purpose::Body => {
            if depth < MAX_OPEN_KINDS {
                Ok(())
            } else {
                Err(ReadStop::TooDeep { at })
            }
        }
        Purpose::Fragment => Ok(()),
    }
}

/// The number of the next origin. One that no `u32` holds is a want of memory like any other.
pub fn next_origin(purpose: Purpose, count: usize) -> Result<Option<u32>, Memory>
    ensures { IfOk result (λ origin. origin ≡ next_origin purpose count) }
{
    match purpose {
        Purpose::Page => match u32::try_from(count) {
            Ok(number) => Ok(Some(number)),
            Err(_) => Err(Memory),
        },
        Purpose::Body | Purpose::Fragment => Ok(None),
    }
}

pub fn shows_generated(purpose: Purpose, generated: bool) -> bool
    ensures { result ≡ generated_here purpose generated }
{
    match purpose {
        Purpose::Page | Purpose::Body => generated,
        Purpose::Fragment => false,
    }
}

/// A row more, in a page.
pub fn push_row(
    rows: &mut Vec<OriginRow>,
    purpose: Purpose,
    span: Span,
    from: usize,
    to: usize,
) -> Result<(), Memory>
    ensures { OnOk result (rows.new.items ≡ rows.old.items ++ row_here purpose span from to) }
{
    match purpose {
        Purpose::Page => {
            rows.push(OriginRow { span, from, to })?;
            Ok(())
        }
        Purpose::Body | Purpose::Fragment => Ok(()),
    }
}

/// The row of this number ends before a position.
pub fn end_row(rows: &mut Vec<OriginRow>, number: Option<u32>, to: usize)
    ensures { rows.new.items ≡ rows_ended number to rows.old.items }
{
    let Some(number) = number else {
        return;
    };
    let place = number as usize;
    if place < rows.len() {
        rows[place].to = to;
    }
}
