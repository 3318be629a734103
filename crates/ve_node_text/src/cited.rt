// The values that an item cites.
ghost use Rattle.std.specs.Prelude.{◌≡◌, encode_utf8_all};
ghost use Rattle.ve_base.specs.Empty.{empty_head};
ghost use Rattle.model_items.specs.Plain.{value_at, head_in, marks_in, white_in, CitesHead, CitesMarks, CitesWhite};

use ve_base::{Head, Mark, Value, ValueId};
use ve_store::Store;

/// The head that an item cites; `none` is the empty one.
pub fn head_of<'v>(store: &'v Store, id: Option<ValueId>, none: &'v Head) -> &'v Head
    requires cites { CitesHead store.now id }
    requires none { none.now ≡ empty_head }
    ensures { result.now ≡ head_in (value_at store.now id) }
{
    let Some(id) = id else {
        return none;
    };
    match store.get(id) {
        Value::Head(head) => head,
        Value::White(_) | Value::Marks(_) => none,
    }
}

/// The marks that an item cites.
pub fn marks_of<'v>(store: &'v Store, id: Option<ValueId>) -> &'v [Mark]
    requires { CitesMarks store.now id }
    ensures { result.now ≡ marks_in (value_at store.now id) }
{
    let Some(id) = id else {
        return &[];
    };
    match store.get(id) {
        Value::Marks(marks) => marks.as_slice(),
        Value::White(_) | Value::Head(_) => &[],
    }
}

/// The whitespace that an item cites.
pub fn white_of<'v>(store: &'v Store, id: Option<ValueId>) -> &'v str
    requires { CitesWhite store.now id }
    ensures { result.now ≡ encode_utf8_all (white_in (value_at store.now id)) }
{
    let Some(id) = id else {
        return "";
    };
    match store.get(id) {
        Value::White(text) => text.as_str(),
        Value::Head(_) | Value::Marks(_) => "",
    }
}
