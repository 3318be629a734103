// Marks with one more, and without one, as values that an item may cite.
ghost use Rattle.std.specs.Prelude.{◌≡◌, ◌++◌, ◌∷◌, [], length, if◌then◌else◌, true, Ok, IfOk, OnOk, OnErr};
ghost use Rattle.std.specs.List.{list_any};
ghost use Rattle.ve_base.specs.declared.value.Value.TheVariants as value;
ghost use Rattle.model_change.specs.Store.{admitted};
ghost use Rattle.model_items.specs.Plain.{CitesMarks};
ghost use Rattle.model_items.specs.Same.{mark_same};
ghost use Rattle.ve_store.specs.Following.{Grows, IsPlaceMarked, IsPlaceUnmarked, marks_at, marks_cited, together};
ghost use Rattle.model_items.specs.Marks.{with_mark, without_mark};
ghost use Rattle.ve_store.specs.Marked.{values_marked, values_unmarked};

use crate::{NewValues, Store};
use std::alloc::Global;
use ve_base::{Mark, Marks, Memory, Same, TryCopy, Value, ValueId};

/// Whether two marks are one: their tags, and their attributes in their order.
pub fn same_mark(one: &Mark, other: &Mark) -> bool
    ensures { result ≡ mark_same one.now other.now }
{
    one.same(other)
}

/// Whether a mark is among marks.
pub fn has_mark(marks: &[Mark], mark: &Mark) -> bool
    ensures { result ≡ list_any (mark_same mark.now) marks.now }
{
    marks.iter().any(|one| same_mark(mark, one))
}

fn appended(alloc: Global, marks: &[Mark], mark: &Mark) -> Result<Marks, Memory>
    ensures { IfOk result (λ all. all ≡ marks.now ++ mark.now ∷ []) }
{
    let mut all = Marks::copy_of(alloc, marks)?;
    all.push(mark.copy(alloc)?)?;
    Ok(all)
}

fn rest_of(alloc: Global, marks: &[Mark], mark: &Mark) -> Result<Marks, Memory>
    ensures { IfOk result (λ rest. rest ≡ without_mark mark.now marks.now) }
{
    let mut rest = Marks::new(alloc);
    for one in marks {
        if !same_mark(mark, one) {
            rest.push(one.copy(alloc)?)?;
        }
    }
    Ok(rest)
}

/// The marks that an item cites.
fn cited_marks<'v>(store: &'v Store, new: &'v NewValues, marks: Option<ValueId>) -> &'v [Mark]
    requires follows { new.now.after ≡ length store.now }
    requires cites { CitesMarks (together store.now new.now) marks }
    ensures { result.now ≡ marks_at (together store.now new.now) marks }
{
    let Some(id) = marks else {
        return &[];
    };
    match new.get(store, id) {
        Value::Marks(marks) => marks.as_slice(),
        Value::White(_) | Value::Head(_) => &[],
    }
}

/// Cites the marks with one more, inside the others, or the same marks where an equal one is among
/// them. An `Err` changes nothing.
pub fn with_mark(
    alloc: Global,
    store: &Store,
    new: &mut NewValues,
    marks: Option<ValueId>,
    mark: &Mark,
) -> Result<Option<ValueId>, Memory>
    requires follows { new.old.after ≡ length store.now }
    requires cites { CitesMarks (together store.now new.old) marks }
    ensures cited { IfOk result (λ id.
        marks_cited store.now new.new id
        ≡ with_mark mark.now (marks_cited store.now new.old marks)) }
    ensures ok { OnOk result (
        together store.now new.new
        ≡ values_marked (together store.now new.old) (marks_cited store.now new.old marks)
        mark.now) }
    ensures same { list_any (mark_same mark.now) (marks_cited store.now new.old marks) ≡ true
        → result ≡ Ok marks }
    ensures place { IfOk result (IsPlaceMarked (together store.now new.old) marks mark.now) }
    ensures cites { IfOk result (CitesMarks (together store.now new.new)) }
    ensures grows { Grows new.old new.new }
    ensures err { OnErr result (new.new ≡ new.old) }
{
    let cited = cited_marks(store, new, marks);
    if has_mark(cited, mark) {
        return Ok(marks);
    }
    let all = appended(alloc, cited, mark)?;
    let id = new.id_of(store, Value::Marks(all))?;
    Ok(Some(id))
}

/// Cites the marks without each one that is equal to this, and nothing where none is left. An `Err`
/// changes nothing.
pub fn without_mark(
    alloc: Global,
    store: &Store,
    new: &mut NewValues,
    marks: Option<ValueId>,
    mark: &Mark,
) -> Result<Option<ValueId>, Memory>
    requires follows { new.old.after ≡ length store.now }
    requires cites { CitesMarks (together store.now new.old) marks }
    ensures cited { IfOk result (λ id.
        marks_cited store.now new.new id
        ≡ without_mark mark.now (marks_cited store.now new.old marks)) }
    ensures ok { OnOk result (
        together store.now new.new
        ≡ values_unmarked (together store.now new.old) (marks_cited store.now new.old marks)
        mark.now) }
    ensures place { IfOk result (IsPlaceUnmarked (together store.now new.old) marks mark.now) }
    ensures cites { IfOk result (CitesMarks (together store.now new.new)) }
    ensures grows { Grows new.old new.new }
    ensures err { OnErr result (new.new ≡ new.old) }
{
    let cited = cited_marks(store, new, marks);
    let rest = rest_of(alloc, cited, mark)?;
    if rest.as_slice().is_empty() {
        return Ok(None);
    }
    let id = new.id_of(store, Value::Marks(rest))?;
    Ok(Some(id))
}
