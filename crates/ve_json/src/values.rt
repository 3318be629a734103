// Numbers, texts and pairs read from a JSON value.
ghost use Rattle.std.specs.Prelude.{◌≡◌, map, option_map};
ghost use Rattle.std.specs.List.{list_any};
ghost use Rattle.serde_json.specs.Find.{as_array, get_member};
ghost use Rattle.ve_base.specs.Limits.{max_sites};
ghost use Rattle.serde_json.specs.View.{view, members_view};
ghost use Rattle.model_spelling.specs.Grammar.{is_barred};
ghost use Rattle.model_world.specs.Values as values;
ghost use Rattle.model_world.specs.Changes as changes;
ghost use Rattle.ve_json.specs.Gives.{Reads};

use crate::fault::ValueFault;
use serde_json::{Map, Value};
use std::alloc::Global;
use ve_base::{MAX_SITES, Text};

/// The number, where it is written as digits and is below 2^32.
pub fn number_in(json: &Value) -> Option<usize>
    ensures { result ≡ values.number_in (view json.now) }
{
    match json.as_u64() {
        Some(n) if n < 4_294_967_296 => Some(n as usize),
        _ => None,
    }
}

/// The number of sites, where it is written as digits: 1 to 8.
pub fn sites_in(json: &Value) -> Option<usize>
    ensures { result ≡ values.number_between 1 max_sites (view json.now) }
{
    match json.as_u64() {
        Some(n) if n >= 1 && n <= MAX_SITES as u64 => Some(n as usize),
        _ => None,
    }
}

/// Whether U+0000 or U+000D is in a text.
#[tactic(auto, unfolding(model_spelling::specs::Grammar::is_barred))]
fn has_barred(bytes: &[u8]) -> bool
    ensures { result ≡ list_any is_barred bytes.now }
{
    bytes.iter().any(|b| *b == 0 || *b == b'\r')
}

/// A text of any characters.
pub fn source_in(alloc: Global, json: &Value) -> Result<Text, ValueFault>
    ensures { Reads result (values.source_in (view json.now)) }
{
    let text = json.as_str().ok_or(ValueFault::IllFormed)?;
    Ok(Text::from_str(alloc, text)?)
}

/// A text without U+0000 and U+000D.
pub fn text_in(alloc: Global, json: &Value) -> Result<Text, ValueFault>
    ensures { Reads result (values.text_in (view json.now)) }
{
    let text = json.as_str().ok_or(ValueFault::IllFormed)?;
    if has_barred(text.as_bytes()) {
        return Err(ValueFault::IllFormed);
    }
    Ok(Text::from_str(alloc, text)?)
}

/// A text without U+0000 and U+000D that isn't empty.
pub fn some_text_in(alloc: Global, json: &Value) -> Result<Text, ValueFault>
    ensures { Reads result (changes.some_text_in (view json.now)) }
{
    let text = text_in(alloc, json)?;
    if text.is_empty() {
        return Err(ValueFault::IllFormed);
    }
    Ok(text)
}

/// A text of any characters that isn't empty.
pub fn some_source_in(alloc: Global, json: &Value) -> Result<Text, ValueFault>
    ensures { Reads result (changes.some_source_in (view json.now)) }
{
    let text = source_in(alloc, json)?;
    if text.is_empty() {
        return Err(ValueFault::IllFormed);
    }
    Ok(text)
}

/// A text, or `null`, which stands for none.
pub fn text_or_null_in(alloc: Global, json: &Value) -> Result<Option<Text>, ValueFault>
    ensures { Reads result (values.text_or_null_in (view json.now)) }
{
    match json {
        Value::Null => Ok(None),
        Value::Bool(_) | Value::Number(_) | Value::String(_) | Value::Array(_) | Value::Object(_) =>
            Ok(Some(text_in(alloc, json)?)),
    }
}

/// Lends the values of a list.
pub fn values_in(json: &Value) -> Option<&[Value]>
    ensures { option_map (λ list. map view list.now) result
        ≡ option_map values.json_values (as_array (view json.now)) }
{
    match json {
        Value::Array(list) => Some(list.as_slice()),
        Value::Null | Value::Bool(_) | Value::Number(_) | Value::String(_) | Value::Object(_) =>
            None,
    }
}

/// The two values of a list that has just two.
pub fn pair_in(json: &Value) -> Option<(&Value, &Value)>
    ensures { option_map (λ pair. (view pair.0.now, view pair.1.now)) result
        ≡ values.pair_in (view json.now) }
{
    match values_in(json)? {
        [one, other] => Some((one, other)),
        _ => None,
    }
}

/// A member of an object.
pub fn member<'a>(members: &'a Map<String, Value>, name: &str) -> Option<&'a Value>
    ensures { option_map (λ v. view v.now) result
        ≡ get_member name.now (members_view members.now.entries) }
{
    members.get(name)
}
