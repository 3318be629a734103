// Where a selection may stand, where its caret goes, and which range is erased.
ghost use Rattle.std.specs.Prelude.{◌≡◌, ◌≤◌, Ok, length, IfOk, IfErr};
ghost use Rattle.model_items.specs.Offsets as offsets;
ghost use Rattle.model_edit.specs.Next.{next};
ghost use Rattle.model_site_law.specs.SelectionLaws.{EndStands, StandsIn};
ghost use Rattle.model_world.specs.Answers as model;
ghost use Rattle.ve_changes.specs.Carets.{range_to_erase, selection_between, EraseIsAsked, SelectIsAsked};
ghost use Rattle.ve_changes.specs.Stops.{IsRefused};
ghost use Rattle.ve_offsets.specs.Docs.{page_items, IsDoc};

use crate::ChangeStop;
use model_edit::{By, Dir, Selection};
use model_world::Refusal;
use std::alloc::Global;
use ve_base::Memory;
use ve_offsets::{Doc, is_content, is_inside_leaf};
use ve_select::{next_cluster, next_word};

/// The model answers a selection and an erasure by what `may_select` and `erased_range` give, or by
/// their refusal.
pub fn carets_are_asked()
    ensures select { SelectIsAsked }
    ensures erase { EraseIsAsked }
{}

/// Whether an offset is past the list or inside a leaf, so that no selection ends there.
fn is_no_end(doc: Doc<'_>, at: usize) -> bool
    requires doc { IsDoc doc }
    ensures { result ≡ model.is_no_end (page_items doc.entry) at }
{
    if doc.list.len() < at {
        return true;
    }
    is_inside_leaf(doc, at)
}

/// The selection between two offsets of a page. An end past the list or inside a leaf is refused,
/// the anchor first.
pub fn may_select(doc: Doc<'_>, anchor: usize, focus: usize) -> Result<Selection, Refusal>
    requires doc { IsDoc doc }
    ensures means { result ≡ selection_between (page_items doc.entry) anchor focus }
    ensures stands { IfOk result (StandsIn (page_items doc.entry)) }
{
    if is_no_end(doc, anchor) {
        return Err(Refusal::BadOffset { at: anchor });
    }
    if is_no_end(doc, focus) {
        return Err(Refusal::BadOffset { at: focus });
    }
    Ok(Selection { anchor, focus })
}

/// Whether characters may stand at an offset.
fn holds_content(doc: Doc<'_>, at: usize) -> bool
    requires doc { IsDoc doc }
    requires within { at ≤ length doc.list.now.items }
    ensures { result ≡ offsets.is_content (page_items doc.entry) at }
{
    is_content(doc, at)
}

/// The next position by clusters or by words, if there is one.
fn place_by(
    alloc: Global,
    doc: Doc<'_>,
    at: usize,
    dir: Dir,
    by: By,
) -> Result<Option<usize>, Memory>
    requires doc { IsDoc doc }
    requires within { at ≤ length doc.list.now.items }
    ensures { IfOk result (λ place. place ≡ next (page_items doc.entry) at dir by) }
{
    match by {
        By::Cluster => next_cluster(alloc, doc, at, dir),
        By::Word => next_word(alloc, doc, at, dir),
    }
}

/// The next position of a page's caret, by one cluster or one word. A caret that stands at no
/// content offset is refused, and so is one at the end of its content branch in that direction. A
/// selection may end where it comes.
pub fn next_place(
    alloc: Global,
    doc: Doc<'_>,
    at: usize,
    dir: Dir,
    by: By,
) -> Result<usize, ChangeStop>
    requires doc { IsDoc doc }
    requires within { at ≤ length doc.list.now.items }
    ensures ok { IfOk result (λ place.
        model.next_place (page_items doc.entry) at dir by ≡ Ok place) }
    ensures stands { IfOk result (EndStands (page_items doc.entry)) }
    ensures refused { IfErr result (λ why.
        IsRefused why (model.next_place (page_items doc.entry) at dir by)) }
{
    if !holds_content(doc, at) {
        return Err(ChangeStop::Refused(Refusal::NotContent { at }));
    }
    match place_by(alloc, doc, at, dir, by)? {
        Some(place) => Ok(place),
        None => Err(ChangeStop::Refused(Refusal::Edge { at })),
    }
}

/// The range of a page to erase: the selection, or where it is collapsed from the caret to its next
/// position, with the caret's refusals. The range may be turned: its anchor is where the caret
/// stood.
pub fn erased_range(
    alloc: Global,
    doc: Doc<'_>,
    selection: Selection,
    dir: Dir,
    by: By,
) -> Result<Selection, ChangeStop>
    requires doc { IsDoc doc }
    requires within { selection.focus ≤ length doc.list.now.items }
    ensures ok { IfOk result (λ range.
        range_to_erase (page_items doc.entry) selection dir by ≡ Ok range) }
    ensures refused { IfErr result (λ why.
        IsRefused why (range_to_erase (page_items doc.entry) selection dir by)) }
{
    if selection.anchor != selection.focus {
        return Ok(selection);
    }
    let anchor = selection.focus;
    let focus = next_place(alloc, doc, anchor, dir, by)?;
    Ok(Selection { anchor, focus })
}
