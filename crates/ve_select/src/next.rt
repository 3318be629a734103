// Where a caret goes next.
ghost use Rattle.std.specs.Prelude.{◌≡◌, ◌≤◌, ◌<◌, ◌+◌, ◌^◌, IfOk, length, option_map};
ghost use Rattle.std.specs.Option.{ForSome};
ghost use Rattle.model_items.specs.Plain.{plain_list};
ghost use Rattle.model_edit.specs.Next.{cutting, next};
ghost use Rattle.model_edit.specs.Next as model;
ghost use Rattle.model_edit.specs.declared.selection.By.TheVariants.{Cluster, Word};
ghost use Rattle.model_edit.specs.declared.selection.Dir.TheVariants.{Ahead, Back};
ghost use Rattle.ve_offsets.specs.Docs.{IsDoc};

use crate::Dir;
use crate::beside::boundaries_beside;
use crate::run::{run_from, run_start};
use model_edit::By;
use std::alloc::Global;
use ve_base::Memory;
use ve_items::{Item, Linear};
use ve_offsets::Doc;

/// A position that is counted from the start of a run.
fn counted_from(start: usize, found: Option<usize>) -> Option<usize>
    requires { ForSome found (λ n. start + n < 2 ^ 64) }
    ensures { result ≡ option_map (λ n. start + n) found }
{
    match found {
        Some(n) => Some(start + n),
        None => None,
    }
}

/// The next boundary of the run of characters round an offset. The text of the run is all the
/// memory that it takes.
fn boundary_at(
    alloc: Global,
    list: &Linear,
    offset: usize,
    dir: Dir,
    by: By,
) -> Result<Option<usize>, Memory>
    requires { offset ≤ length list.now.items }
    ensures { IfOk result (λ place.
        (values : _)
        → place
        ≡ model.boundary_at dir (cutting by) (plain_list values list.entry.now.items)
        offset) }
{
    let len = list.len();
    prove!(offset <= len);
    let start = run_start(list, offset);
    let text = run_from(alloc, list, start)?;
    let beside = boundaries_beside(by, text.as_str(), offset - start);
    match dir {
        Dir::Back => Ok(counted_from(start, beside.below)),
        Dir::Ahead => Ok(counted_from(start, beside.above)),
    }
}

/// The next position ahead, by the item after the offset: a leaf is passed whole.
fn next_ahead(alloc: Global, doc: Doc<'_>, offset: usize, by: By) -> Result<Option<usize>, Memory>
    requires doc { IsDoc doc }
    requires within { offset ≤ length doc.list.now.items }
    ensures { IfOk result (λ place.
        (values : _)
        → place ≡ next (plain_list values doc.entry.list.now.items) offset Ahead by) }
{
    let len = doc.list.len();
    if offset == len {
        return Ok(None);
    }
    match doc.list.get(offset) {
        Item::Char { .. } => {
            let place = boundary_at(alloc, doc.list, offset, Dir::Ahead, by)?;
            Ok(place)
        }
        Item::Opening { .. } => Ok(Some(offset + 2)),
        Item::Closing { .. } => Ok(None),
    }
}

/// The next position back, by the item before the offset: a leaf is passed whole.
fn next_back(alloc: Global, doc: Doc<'_>, offset: usize, by: By) -> Result<Option<usize>, Memory>
    requires { offset ≤ length doc.list.now.items }
    ensures { IfOk result (λ place.
        (values : _)
        → place ≡ next (plain_list values doc.entry.list.now.items) offset Back by) }
{
    let before = offset.saturating_sub(1);
    if before >= doc.list.len() {
        return Ok(None);
    }
    match doc.list.get(before) {
        Item::Char { .. } => {
            let place = boundary_at(alloc, doc.list, offset, Dir::Back, by)?;
            Ok(place)
        }
        Item::Opening { .. } => Ok(None),
        Item::Closing { .. } => Ok(Some(offset.saturating_sub(2))),
    }
}

/// The next position in a direction: what stands beside the offset there decides.
fn next_place(
    alloc: Global,
    doc: Doc<'_>,
    offset: usize,
    dir: Dir,
    by: By,
) -> Result<Option<usize>, Memory>
    requires doc { IsDoc doc }
    requires within { offset ≤ length doc.list.now.items }
    ensures { IfOk result (λ place.
        (values : _)
        → place ≡ next (plain_list values doc.entry.list.now.items) offset dir by) }
{
    match dir {
        Dir::Back => {
            let place = next_back(alloc, doc, offset, by)?;
            Ok(place)
        }
        Dir::Ahead => {
            let place = next_ahead(alloc, doc, offset, by)?;
            Ok(place)
        }
    }
}

/// The next offset of a caret at a content offset, by one grapheme cluster (Unicode, UAX #29,
/// extended). It goes past a leaf whole, or to the next boundary of the run of characters beside
/// it. None comes at the end of its content branch in that direction. It reads of the list that
/// run, and takes memory for its text alone.
pub fn next_cluster(
    alloc: Global,
    doc: Doc<'_>,
    offset: usize,
    dir: Dir,
) -> Result<Option<usize>, Memory>
    requires doc { IsDoc doc }
    requires within { offset ≤ length doc.list.now.items }
    ensures { IfOk result (λ place.
        (values : _)
        → place ≡ next (plain_list values doc.entry.list.now.items) offset dir Cluster) }
{
    next_place(alloc, doc, offset, dir, By::Cluster)
}

/// Where a caret at a content offset goes by one word: as `next_cluster`, to the next word boundary
/// (Unicode, UAX #29).
pub fn next_word(
    alloc: Global,
    doc: Doc<'_>,
    offset: usize,
    dir: Dir,
) -> Result<Option<usize>, Memory>
    requires doc { IsDoc doc }
    requires within { offset ≤ length doc.list.now.items }
    ensures { IfOk result (λ place.
        (values : _)
        → place ≡ next (plain_list values doc.entry.list.now.items) offset dir Word) }
{
    next_place(alloc, doc, offset, dir, By::Word)
}
