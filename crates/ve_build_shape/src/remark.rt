// One item with a mark more, or without one.
ghost use Rattle.std.specs.Prelude.{◌≡◌, length, IfOk, IfSome, OnOk};
ghost use Rattle.std.specs.List.{list_any};
ghost use Rattle.ve_kinds.specs.Tags.{is_one_of, annotation_tags};
ghost use Rattle.model_items.specs.Plain.{plain, CitesWell};
ghost use Rattle.model_change.specs.Attributes as attributes;
ghost use Rattle.model_edit.specs.Marking as model;
ghost use Rattle.ve_store.specs.Following.{Grows, together};
ghost use Rattle.ve_build_shape.specs.Remarked.{marks_after, CitesItsMarks, HasMarks, IsMarksChange, Remarks};

use crate::changes::{MarksChange, Remark, marks_at, next_change, same_id};
use std::alloc::Global;
use ve_base::{Attr, MAX_MARKS, Mark, Memory, Text, ValueId};
use ve_edits::is_content_item;
use ve_items::Item;
use ve_kinds::is_annotation_tag;
use ve_store::{NewValues, Store, has_mark};
use ve_tx::is_reserved;

fn is_annotation(tag: &Text) -> bool
    ensures { result ≡ is_one_of annotation_tags tag.now }
{
    is_annotation_tag(tag.as_str())
}

fn has_reserved(attrs: &[Attr]) -> bool
    ensures { result ≡ list_any (λ attr. attributes.is_reserved attr.name) attrs.now }
{
    attrs.iter().any(|attr| is_reserved(attr.name.as_str()))
}

/// Whether a mark is none that an edit may set or take off: no text has its tag as a mark, or one
/// of its attributes has a reserved name.
pub fn is_bad_mark(mark: &Mark) -> bool
    ensures { result ≡ model.is_bad_mark mark.now }
{
    !is_annotation(&mark.tag) || has_reserved(mark.attrs.as_slice())
}

/// The marks that an item cites.
fn marks_id(item: Item) -> Option<ValueId>
    ensures { CitesItsMarks item result }
{
    match item {
        Item::Char { marks, .. } => marks,
        Item::Opening { marks, .. } => marks,
        Item::Closing { .. } => None,
    }
}

/// The marks that an item has.
fn marks_of(store: &Store, item: Item) -> &[Mark]
    requires { CitesWell store.now item }
    ensures { result.now ≡ model.item_marks (plain store.now item) }
{
    marks_at(store, marks_id(item))
}

/// Whether an item would have too many marks with one more.
pub fn is_full(store: &Store, item: Item, mark: &Mark) -> bool
    requires { CitesWell store.now item }
    ensures { result ≡ model.is_full_for mark.now (plain store.now item) }
{
    let marks = marks_of(store, item);
    // One more makes them too many at the limit alone, so marks are seldom compared.
    if marks.len() != MAX_MARKS {
        return marks.len() > MAX_MARKS;
    }
    is_content_item(item) && !has_mark(marks, mark)
}

/// The item with these marks in the place of its own.
fn with_marks(item: Item, marks: Option<ValueId>) -> Item
    ensures { HasMarks item marks result }
{
    match item {
        Item::Char { ch, .. } => Item::Char { ch, marks },
        Item::Opening {
            kind,
            generated,
            head,
            pre,
            origin,
            ..
        } => Item::Opening {
            kind,
            generated,
            head,
            marks,
            pre,
            origin,
        },
        Item::Closing { kind, pre } => Item::Closing { kind, pre },
    }
}

/// The item with the mark set or taken off; `None` where its marks stay as they are. `last` is the
/// change of the content item before it, and becomes that of this one.
pub fn remarked(
    alloc: Global,
    store: &Store,
    new: &mut NewValues,
    last: &mut Option<MarksChange>,
    item: Item,
    remark: Remark,
    mark: &Mark,
) -> Result<Option<Item>, Memory>
    requires follows { new.old.after ≡ length store.now }
    requires cites { CitesWell store.now item }
    requires last { IfSome last.old (
        IsMarksChange (together store.now new.old) (marks_after remark mark.now)) }
    ensures means { IfOk result (
        Remarks store.now (marks_after remark mark.now) new.old new.new item) }
    ensures last { OnOk result (
        IfSome last.new (
        IsMarksChange (together store.now new.new) (marks_after remark mark.now))) }
    ensures grows { Grows new.old new.new }
{
    if !is_content_item(item) {
        return Ok(None);
    }
    let marks = marks_id(item);
    let change = next_change(alloc, store, new, *last, marks, remark, mark)?;
    *last = Some(change);
    if same_id(change.before, change.after) {
        return Ok(None);
    }
    Ok(Some(with_marks(item, change.after)))
}
