// What becomes of marks that are cited, worked out once for items side by side that cite the same
// ones.
ghost use Rattle.std.specs.Prelude.{◌≡◌, ◌↔◌, length, IsTrue, IfOk, IfSome, OnOk};
ghost use Rattle.model_items.specs.Plain.{CitesMarks};
ghost use Rattle.model_items.specs.Same.{marks_same};
ghost use Rattle.ve_store.specs.Following as following;
ghost use Rattle.ve_store.specs.Following.{Grows, together, marks_cited};
ghost use Rattle.ve_build_shape.specs.Remarked.{marks_after, IsChangeOf, IsMarksChange, IsMarksFilled};

use std::alloc::Global;
use ve_base::{Mark, Memory, Value, ValueId};
use ve_store::{NewValues, Store, has_mark, with_mark, without_mark};

/// Whether a mark is set or taken off.
#[derive(Clone, Copy)]
pub enum Remark {
    Set,
    TakeOff,
}

/// The marks that items cite, and what these items cite in their place: the same number where the
/// marks stay.
#[derive(Clone, Copy)]
pub struct MarksChange {
    pub before: Option<ValueId>,
    pub after: Option<ValueId>,
}

/// Whether two cited numbers are equal.
pub fn same_id(one: Option<ValueId>, other: Option<ValueId>) -> bool
    ensures { IsTrue result ↔ (one ≡ other) }
{
    match (one, other) {
        (Some(one), Some(other)) => one.0 == other.0,
        (None, None) => true,
        (Some(_), None) | (None, Some(_)) => false,
    }
}

/// The marks that are cited.
pub fn marks_at(store: &Store, marks: Option<ValueId>) -> &[Mark]
    requires { CitesMarks store.now marks }
    ensures { result.now ≡ following.marks_at store.now marks }
{
    let Some(id) = marks else {
        return &[];
    };
    match store.get(id) {
        Value::Marks(marks) => marks.as_slice(),
        Value::White(_) | Value::Head(_) => &[],
    }
}

/// Whether marks stay as they are.
fn keeps_marks(marks: &[Mark], remark: Remark, mark: &Mark) -> bool
    ensures { result ≡ marks_same (marks_after remark mark.now marks.now) marks.now }
{
    let has = has_mark(marks, mark);
    match remark {
        Remark::Set => has,
        Remark::TakeOff => !has,
    }
}

/// Cites the marks with one more, or without one.
fn changed_marks(
    alloc: Global,
    store: &Store,
    new: &mut NewValues,
    marks: Option<ValueId>,
    remark: Remark,
    mark: &Mark,
) -> Result<Option<ValueId>, Memory>
    requires follows { new.old.after ≡ length store.now }
    requires cites { CitesMarks (together store.now new.old) marks }
    ensures cited { IfOk result (λ id.
        marks_cited store.now new.new id
        ≡ marks_after remark mark.now (marks_cited store.now new.old marks)) }
    ensures cites { IfOk result (CitesMarks (together store.now new.new)) }
    ensures fills { OnOk result (
        IsMarksFilled store.now new.old new.new (
        marks_after remark mark.now (marks_cited store.now new.old marks))) }
    ensures grows { Grows new.old new.new }
{
    match remark {
        Remark::Set => {
            let id = with_mark(alloc, store, new, marks, mark)?;
            Ok(id)
        }
        Remark::TakeOff => {
            let id = without_mark(alloc, store, new, marks, mark)?;
            Ok(id)
        }
    }
}

/// The change of these marks, worked out anew.
fn first_change(
    alloc: Global,
    store: &Store,
    new: &mut NewValues,
    marks: Option<ValueId>,
    remark: Remark,
    mark: &Mark,
) -> Result<MarksChange, Memory>
    requires follows { new.old.after ≡ length store.now }
    requires cites { CitesMarks store.now marks }
    ensures changes { IfOk result (
        IsChangeOf store.now (marks_after remark mark.now) new.old new.new marks) }
    ensures grows { Grows new.old new.new }
{
    if keeps_marks(marks_at(store, marks), remark, mark) {
        return Ok(MarksChange {
            before: marks,
            after: marks,
        });
    }
    let after = changed_marks(alloc, store, new, marks, remark, mark)?;
    Ok(MarksChange {
        before: marks,
        after,
    })
}

/// The change of the marks that an item cites. It is the last one again where that is of the same
/// marks, as it mostly is: then no mark is compared, and no value is looked for.
pub fn next_change(
    alloc: Global,
    store: &Store,
    new: &mut NewValues,
    last: Option<MarksChange>,
    marks: Option<ValueId>,
    remark: Remark,
    mark: &Mark,
) -> Result<MarksChange, Memory>
    requires follows { new.old.after ≡ length store.now }
    requires cites { CitesMarks store.now marks }
    requires last { IfSome last (
        IsMarksChange (together store.now new.old) (marks_after remark mark.now)) }
    ensures changes { IfOk result (
        IsChangeOf store.now (marks_after remark mark.now) new.old new.new marks) }
    ensures grows { Grows new.old new.new }
{
    if let Some(change) = last {
        if same_id(change.before, marks) {
            return Ok(change);
        }
    }
    let change = first_change(alloc, store, new, marks, remark, mark)?;
    Ok(change)
}
