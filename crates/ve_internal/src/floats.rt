// Whether a JSON value has a number that is no integer of 64 bits.
ghost use Rattle.std.specs.Prelude.{◌≡◌};
ghost use Rattle.serde_json.specs.View.{view, items_view, members_view};
ghost use Rattle.serde_json.specs.Written as written;

use serde_json::{Map, Value};

/// Whether some number in the value is a float.
#[cycle(floats)]
fn has_float(value: &Value) -> bool
    ensures { result ≡ written.has_float (view value.now) }
{
    match value {
        Value::Number(number) => number.is_f64(),
        Value::Array(items) => items_have_float(items),
        Value::Object(members) => members_have_float(members),
        Value::Null | Value::Bool(_) | Value::String(_) => false,
    }
}

#[cycle(floats)]
fn items_have_float(items: &Vec<Value>) -> bool
    ensures { result ≡ written.items_have_float (items_view items.now.items) }
{
    for item in items {
        if has_float(item) {
            return true;
        }
    }
    false
}

/// Whether some number in the members of an object is a float.
#[cycle(floats)]
pub fn members_have_float(members: &Map<String, Value>) -> bool
    ensures { result ≡ written.members_have_float (members_view members.now.entries) }
{
    for (_, member) in members.iter() {
        if has_float(member) {
            return true;
        }
    }
    false
}
