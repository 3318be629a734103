// Whether the references in a node carry the bodies that they carried.
ghost use Rattle.std.specs.Prelude.{◌≡◌, ◌≤◌, ◌<◌, ◌+◌, ◌^◌, ◌↔◌, ℕ, Some, IsTrue, length, slice_get};
ghost use Rattle.model_page.specs.declared.ref_table.RefRow.{RefRow as Row};
ghost use Rattle.ve_origin.specs.Rows.{RowsRise, TellsCarried, carried_place, carried_at};

use crate::bodies::are_same_bodies;
use model_page::RefRow;
use ve_items::Linear;

/// How many rows stand before a position.
fn rows_before(rows: &[RefRow], at: usize) -> usize
    ensures bound { result ≤ length rows.now }
    ensures before { RowsRise rows.now
        → (k : ℕ) (r : Row)
        → slice_get rows.now k ≡ Some r
        → k < result
        → r.at < at }
    ensures after { RowsRise rows.now
        → (k : ℕ) (r : Row)
        → slice_get rows.now k ≡ Some r
        → result ≤ k
        → at ≤ r.at }
{
    rows.partition_point(|row| row.at < at)
}

/// Where the internal item opens whose body the row's reference carries.
fn carried_place(row: &RefRow) -> Option<usize>
    ensures { result ≡ carried_place (Some row.now) }
{
    if row.carrier { row.body_at } else { None }
}

/// Where the internal item opens whose body the reference at a position carries.
fn carried_at(rows: &[RefRow], at: usize) -> Option<usize>
    ensures { RowsRise rows.now → result ≡ carried_at rows.now at }
{
    let k = rows_before(rows, at);
    if k == rows.len() {
        return None;
    }
    let row = &rows[k];
    if row.at != at {
        return None;
    }
    carried_place(row)
}

/// A list, the table of its references, and the position of a node in it.
#[derive(Clone, Copy)]
pub struct Side<'a> {
    pub list: &'a Linear,
    pub refs: &'a [RefRow],
    pub from: usize,
}

/// Whether each reference among so many items of the one node carries the same body as the one at
/// its position in the other node. The rows are found by a search.
pub fn all_carry_same(now: Side<'_>, first: Side<'_>, count: usize) -> bool
    requires { first.from + count < 2 ^ 64 }
    ensures { TellsCarried now.entry first.entry count result }
{
    let mut k = rows_before(now.refs, now.from);
    while k < now.refs.len() {
        let row = &now.refs[k];
        let distance = row.at.saturating_sub(now.from);
        if distance >= count {
            return true;
        }
        let carried = carried_place(row);
        let carried_first = carried_at(first.refs, first.from + distance);
        if !are_same_bodies(now.list, carried, first.list, carried_first) {
            return false;
        }
        k += 1;
    }
    true
}
