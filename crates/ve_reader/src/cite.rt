// The positions of the values that an item cites. What is empty isn't cited.
ghost use Rattle.std.specs.Prelude.{◌≡◌, [], IfOk, OnOk, OnErr};
ghost use Rattle.ve_reader.specs.Holding.{Knows};
ghost use Rattle.std.specs.Str.{chars};
ghost use Rattle.model_items.specs.Plain.{value_at, head_in, marks_in, white_in, CitesHead, CitesMarks, CitesWhite};
ghost use Rattle.model_change.specs.Store.{fill, head_cited, marks_cited, white_cited};

use std::alloc::Global;
use ve_base::{Head, Mark, Marks, Memory, Text, Value, ValueId};
use ve_store::Store;

/// A head, which the store takes where it is new.
pub fn cite_head(store: &mut Store, head: Head) -> Result<Option<ValueId>, Memory>
    ensures cites { IfOk result (CitesHead store.new) }
    ensures head { IfOk result (λ id. head_in (value_at store.new id) ≡ head) }
    ensures store { OnOk result (store.new ≡ fill store.old (head_cited head)) }
    ensures err { OnErr result (store.new ≡ store.old) }
{
    if head.is_empty() {
        return Ok(None);
    }
    let id = store.admit(Value::Head(head))?;
    Ok(Some(id))
}

/// Marks, which the store takes where they are new.
pub fn cite_marks(
    alloc: Global,
    store: &mut Store,
    marks: &[Mark],
) -> Result<Option<ValueId>, Memory>
    ensures cites { IfOk result (CitesMarks store.new) }
    ensures marks { IfOk result (λ id. marks_in (value_at store.new id) ≡ marks.now) }
    ensures store { OnOk result (store.new ≡ fill store.old (marks_cited marks.now)) }
    ensures err { OnErr result (store.new ≡ store.old) }
{
    if marks.is_empty() {
        return Ok(None);
    }
    let all = Marks::copy_of(alloc, marks)?;
    let id = store.admit(Value::Marks(all))?;
    Ok(Some(id))
}

/// Whitespace, which the store takes where it is new.
pub fn cite_white(alloc: Global, store: &mut Store, white: &str) -> Result<Option<ValueId>, Memory>
    ensures cites { IfOk result (CitesWhite store.new) }
    ensures white { IfOk result (λ id. white_in (value_at store.new id) ≡ chars white.now) }
    ensures store { OnOk result (store.new ≡ fill store.old (white_cited (chars white.now))) }
    ensures err { OnErr result (store.new ≡ store.old) }
{
    let text = Text::from_str(alloc, white)?;
    if text.is_empty() {
        return Ok(None);
    }
    let id = store.admit(Value::White(text))?;
    Ok(Some(id))
}

/// The position of the marks around, which may be known already.
pub fn marks_around(
    alloc: Global,
    store: &mut Store,
    marks: &[Mark],
    known: Option<ValueId>,
) -> Result<Option<ValueId>, Memory>
    requires { Knows store.old marks.now known }
    ensures cites { IfOk result (CitesMarks store.new) }
    ensures marks { IfOk result (λ id. marks_in (value_at store.new id) ≡ marks.now) }
    ensures store { OnOk result (store.new ≡ fill store.old (marks_cited marks.now)) }
    ensures knows { IfOk result (Knows store.new marks.now) }
    ensures err { OnErr result (store.new ≡ store.old) }
{
    if known.is_some() {
        return Ok(known);
    }
    // most characters have no marks, and need no call
    if marks.is_empty() {
        return Ok(None);
    }
    cite_marks(alloc, store, marks)
}
