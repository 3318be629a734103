// The text of content branches.
ghost use Rattle.std.specs.Prelude.{◌≡◌, ◌≤◌, ◌<◌, ◌++◌, [], true, false, OnOk, IfOk, length, drop, unwrap_or, IsUtf8};
ghost use Rattle.model_items.specs.Plain.{value_at, head_in, marks_in, plain_list, CitesHead, CitesMarks};
ghost use Rattle.model_page.specs.Editable.{all_refer, head_refers};
ghost use Rattle.model_page_write.specs.Written.{marks_changed};
ghost use Rattle.ve_node_text.specs.Leaves.{leaf_of};
ghost use Rattle.ve_write.specs.Siblings.{is_end, AllCite, Ends, SameOuter};
ghost use Rattle.ve_write.specs.Originals.{origin_of};
ghost use Rattle.ve_write.specs.Told.{content_at, known_of, text_of, GoesOn, IsAppended, LendsFirst, StandsBefore};

use crate::first_page::{Page, put_cited_leaf};
use crate::kept::original_at;
use crate::{after_siblings, ends_at, siblings_end};
use model_items::Item;
use std::alloc::Global;
use ve_base::{Bytes, Memory, ValueId};
use ve_kinds::Kind;
use ve_node_text::{change_marks, marks_of, put_letter};
use ve_origin::Known;
use ve_store::Store;

/// Where writing goes on in content, and which marks are open there.
#[derive(Clone, Copy, Debug)]
struct Step {
    at: usize,
    opened: Option<ValueId>,
}

/// Appends the tags between marks: the open ones are closed that end here, and those are opened
/// that begin.
fn change_cited(
    alloc: Global,
    out: &mut Bytes,
    store: &Store,
    opened: Option<ValueId>,
    marks: Option<ValueId>,
) -> Result<(), Memory>
    requires opened { CitesMarks store.now opened }
    requires marks { CitesMarks store.now marks }
    ensures text { OnOk result (
        out.new
        ≡ out.old
        ++ marks_changed (marks_in (value_at store.now opened)) (
        marks_in (value_at store.now marks))) }
    ensures utf8 { OnOk result (IsUtf8 out.old → IsUtf8 out.new) }
{
    change_marks(alloc, out, marks_of(store, opened), marks_of(store, marks))
}

/// The text of the opening of a leaf in content.
#[derive(Clone, Copy, Debug)]
struct Leaf {
    kind: Kind,
    head: Option<ValueId>,
    origin: Option<u32>,
}

/// Appends the leaf at a position: the bytes that it was, if it is kept, or else its text.
fn put_inline_leaf(
    alloc: Global,
    out: &mut Bytes,
    page: Page<'_, '_>,
    at: usize,
    leaf: Leaf,
) -> Result<(), Memory>
    requires cites { AllCite page.store.now page.list.now.items }
    requires lent { LendsFirst page }
    requires before { StandsBefore page at }
    requires within { at ≤ length page.list.now.items }
    requires origin { origin_of (drop at (plain_list page.store.now page.list.now.items))
        ≡ leaf.origin }
    requires head { CitesHead page.store.now leaf.head }
    requires refers { head_refers leaf.kind (head_in (value_at page.store.now leaf.head)) ≡ true }
    ensures text { OnOk result (out.new ≡ out.old ++ unwrap_or ((known_of page.entry).originals at)
        (leaf_of (head_in (value_at page.entry.store.now leaf.head)) (text_of page.entry.texts.now at) leaf.kind)) }
    ensures utf8 { OnOk result (IsUtf8 out.old → IsUtf8 out.new) }
{
    match original_at(page, at, leaf.origin, Known::nothing()) {
        Some(original) => out.push(original.text.as_bytes()),
        None => put_cited_leaf(alloc, out, page, at, leaf.head, leaf.kind),
    }
}

/// Appends a character or an inline leaf, where these marks are open.
fn put_inline(
    alloc: Global,
    out: &mut Bytes,
    page: Page<'_, '_>,
    at: usize,
    opened: Option<ValueId>,
) -> Result<Step, Memory>
    requires cites { AllCite page.store.now page.list.now.items }
    requires refers { all_refer (plain_list page.store.now page.list.now.items) ≡ true }
    requires lent { LendsFirst page }
    requires before { StandsBefore page at }
    requires opened { CitesMarks page.store.now opened }
    requires within { at ≤ length page.list.now.items }
    requires open { is_end (drop at page.list.now.items) ≡ false }
    ensures opened { IfOk result (λ step. CitesMarks page.entry.store.now step.opened) }
    ensures more { IfOk result (λ step. at < step.at) }
    ensures within { IfOk result (λ step. step.at ≤ length page.entry.list.now.items) }
    ensures outer { IfOk result (λ step. SameOuter page.entry.list.now.items at step.at) }
    ensures text { IfOk result (λ step. GoesOn (known_of page.entry) out.old out.new
        (λ w v. content_at w v page.entry.list.now.items (marks_in (value_at page.entry.store.now opened)) at)
        (λ w v. content_at w v page.entry.list.now.items (marks_in (value_at page.entry.store.now step.opened)) step.at)) }
    ensures utf8 { OnOk result (IsUtf8 out.old → IsUtf8 out.new) }
{
    // a list's length fits, and so does each position in it
    let _len = page.list.len();
    match page.list.get(at) {
        Item::Char { ch, marks } => {
            change_cited(alloc, out, page.store, opened, marks)?;
            put_letter(out, ch)?;
            Ok(Step {
                at: at + 1,
                opened: marks,
            })
        }
        Item::Opening {
            kind,
            head,
            marks,
            origin,
            ..
        } => {
            change_cited(alloc, out, page.store, opened, marks)?;
            put_inline_leaf(alloc, out, page, at, Leaf { kind, head, origin })?;
            let end = siblings_end(page.list, at + 1);
            Ok(Step {
                at: after_siblings(page.list, end).at,
                opened: marks,
            })
        }
        Item::Closing { .. } => unreachable!(),
    }
}

/// Appends the characters that stand from a position on, as far as a borrowed piece goes, where
/// these marks are open.
fn put_letters(
    alloc: Global,
    out: &mut Bytes,
    page: Page<'_, '_>,
    at: usize,
    opened: Option<ValueId>,
) -> Result<Step, Memory>
    requires cites { AllCite page.store.now page.list.now.items }
    requires opened { CitesMarks page.store.now opened }
    requires within { at ≤ length page.list.now.items }
    ensures opened { IfOk result (λ step. CitesMarks page.entry.store.now step.opened) }
    ensures more { IfOk result (λ step. at ≤ step.at) }
    ensures within { IfOk result (λ step. step.at ≤ length page.entry.list.now.items) }
    ensures outer { IfOk result (λ step. SameOuter page.entry.list.now.items at step.at) }
    ensures text { IfOk result (λ step. GoesOn (known_of page.entry) out.old out.new
        (λ w v. content_at w v page.entry.list.now.items (marks_in (value_at page.entry.store.now opened)) at)
        (λ w v. content_at w v page.entry.list.now.items (marks_in (value_at page.entry.store.now step.opened)) step.at)) }
    ensures utf8 { OnOk result (IsUtf8 out.old → IsUtf8 out.new) }
{
    let len = page.list.len();
    if at == len {
        return Ok(Step { at, opened });
    }
    let piece = page.list.piece(at, len);
    let mut opened = opened;
    let mut count = 0;
    while count < piece.len() {
        let Item::Char { ch, marks } = piece[count] else {
            break;
        };
        change_cited(alloc, out, page.store, opened, marks)?;
        put_letter(out, ch)?;
        opened = marks;
        count += 1;
    }
    Ok(Step {
        at: at + count,
        opened,
    })
}

/// Appends the content that begins at a position, and says where it ends.
pub fn put_content(
    alloc: Global,
    out: &mut Bytes,
    page: Page<'_, '_>,
    from: usize,
) -> Result<usize, Memory>
    requires cites { AllCite page.store.now page.list.now.items }
    requires refers { all_refer (plain_list page.store.now page.list.now.items) ≡ true }
    requires lent { LendsFirst page }
    requires before { StandsBefore page from }
    requires within { from ≤ length page.list.now.items }
    ensures more { IfOk result (λ end. from ≤ end) }
    ensures within { IfOk result (λ end. end ≤ length page.entry.list.now.items) }
    ensures closed { IfOk result (λ end. is_end (drop end page.entry.list.now.items) ≡ true) }
    ensures ends { IfOk result (λ end. Ends page.entry.list.now.items from end) }
    ensures text { OnOk result (IsAppended (known_of page.entry) out.old out.new
        (λ w v. content_at w v page.entry.list.now.items [] from)) }
    ensures utf8 { OnOk result (IsUtf8 out.old → IsUtf8 out.new) }
{
    let mut at = from;
    let mut opened = None;
    while !ends_at(page.list, at) {
        let first = put_inline(alloc, out, page, at, opened)?;
        let step = put_letters(alloc, out, page, first.at, first.opened)?;
        at = step.at;
        opened = step.opened;
    }
    change_marks(alloc, out, marks_of(page.store, opened), &[])?;
    Ok(at)
}
