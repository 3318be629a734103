// The tags of marks, where they change.
ghost use Rattle.std.specs.Prelude.{◌≡◌, ◌≤◌, ◌++◌, OnOk, length, drop, reverse, flat_map, IsUtf8};
ghost use Rattle.model_page_write.specs.Written as written;

use std::alloc::Global;
use ve_base::{Bytes, Mark, Memory};
use ve_html_write::{put_end, put_start};
use ve_store::same_mark;

/// How many marks both lists begin with.
fn common_count(opened: &[Mark], marks: &[Mark]) -> usize
    ensures count { result ≡ written.common_count opened.now marks.now }
    ensures here { result ≤ length opened.now }
    ensures there { result ≤ length marks.now }
{
    let most = opened.len().min(marks.len());
    let mut n = 0;
    while n < most {
        if !same_mark(&opened[n], &marks[n]) {
            return n;
        }
        n += 1;
    }
    n
}

/// Closes the marks from the last one back to the n-th.
fn close_marks(alloc: Global, out: &mut Bytes, opened: &[Mark], n: usize) -> Result<(), Memory>
    requires { n ≤ length opened.now }
    ensures text { OnOk result (
        out.new ≡ out.old ++ flat_map written.mark_end (reverse (drop n opened.now))) }
    ensures utf8 { OnOk result (IsUtf8 out.old → IsUtf8 out.new) }
{
    let mut k = opened.len();
    while k > n {
        k -= 1;
        put_end(alloc, out, opened[k].tag.as_str())?;
    }
    Ok(())
}

/// Opens marks in their order.
fn open_marks(alloc: Global, out: &mut Bytes, marks: &[Mark]) -> Result<(), Memory>
    ensures text { OnOk result (out.new ≡ out.old ++ flat_map written.mark_start marks.now) }
    ensures utf8 { OnOk result (IsUtf8 out.old → IsUtf8 out.new) }
{
    for mark in marks {
        put_start(alloc, out, mark.tag.as_str(), &mark.attrs)?;
    }
    Ok(())
}

/// Goes from the open marks to others: the common ones stay open.
pub fn change_marks(
    alloc: Global,
    out: &mut Bytes,
    opened: &[Mark],
    marks: &[Mark],
) -> Result<(), Memory>
    ensures text { OnOk result (out.new ≡ out.old ++ written.marks_changed opened.now marks.now) }
    ensures utf8 { OnOk result (IsUtf8 out.old → IsUtf8 out.new) }
{
    let n = common_count(opened, marks);
    close_marks(alloc, out, opened, n)?;
    open_marks(alloc, out, &marks[n..])
}
