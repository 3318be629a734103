// The members of a `data-mw`, each as what it has to be.
ghost use Rattle.std.specs.Prelude.{◌≡◌, IfOk, IfErr, OnOk, is_some, option_map};
ghost use Rattle.serde_json.specs.Find.{get_member};
ghost use Rattle.serde_json.specs.Read as json;
ghost use Rattle.serde_json.specs.View.{view, members_view};
ghost use Rattle.model_spelling.specs.Faults.{fault_of};
ghost use Rattle.model_spelling.specs.Forest as spelled;
ghost use Rattle.model_spelling.specs.Parsed.{forest_of};
ghost use Rattle.ve_html_tree.specs.Seen.{IsFirstFault};
ghost use Rattle.model_page.specs.DataMw as model;
ghost use Rattle.ve_internal.specs.Read.{or_no_members, seen_value};

use crate::floats::members_have_float;
use serde_json::{Map, Value};
use std::alloc::Global;
use ve_base::Memory;
use ve_html_tree::{HtmlFault, read};

/// A text as JSON, where it is JSON.
pub fn read_json(alloc: Global, text: &str) -> Result<Option<Value>, Memory>
    ensures { IfOk result (λ value. option_map view value ≡ json.read text.now) }
{
    match Value::from_str(alloc, text) {
        Ok(value) => Ok(Some(value)),
        Err(error) => {
            if error.is_memory() {
                Err(Memory)
            } else {
                Ok(None)
            }
        }
    }
}

/// The members of an object whose numbers are all integers of 64 bits.
pub fn whole_object(value: Value) -> Option<Map<String, Value>>
    ensures { option_map (λ m. members_view m.entries) result ≡ model.whole_object (view value) }
{
    match value {
        Value::Object(members) => {
            if members_have_float(&members) {
                None
            } else {
                Some(members)
            }
        }
        Value::Null | Value::Bool(_) | Value::Number(_) | Value::String(_) | Value::Array(_) =>
            None,
    }
}

/// The member of a name, where there is one.
pub fn member_of<'a>(members: &'a Map<String, Value>, name: &str) -> Option<&'a Value>
    ensures { option_map (λ v. view v.now) result
        ≡ get_member name.now (members_view members.now.entries) }
{
    members.get(name)
}

/// The members, where they are an object or absent.
pub fn members_or_none<'a>(value: Option<&'a Value>) -> Option<Option<&'a Map<String, Value>>>
    ensures { option_map (λ ms. or_no_members (option_map (λ m. members_view m.now.entries) ms))
        result
        ≡ model.members_or_none (seen_value value.entry) }
{
    match value {
        None => Some(None),
        Some(Value::Object(members)) => Some(Some(members)),
        Some(_) => None,
    }
}

/// The member of a name of members that may be absent.
pub fn attribute<'a>(members: Option<&'a Map<String, Value>>, name: &str) -> Option<&'a Value>
    ensures { seen_value result ≡ get_member name.now (
        or_no_members (option_map (λ m. members_view m.now.entries) members.entry)) }
{
    match members {
        None => None,
        Some(members) => member_of(members, name),
    }
}

/// The text, where it is a text or absent; an absent one counts as empty.
pub fn text_or_empty<'a>(value: Option<&'a Value>) -> Option<&'a str>
    ensures { option_map (λ t. t.now) result ≡ model.text_or_empty (seen_value value.entry) }
{
    match value {
        None => Some(""),
        Some(Value::String(text)) => Some(text.as_str()),
        Some(_) => None,
    }
}

/// Reads a text as a forest and drops it.
fn check_spelled(alloc: Global, text: &str) -> Result<(), HtmlFault>
    ensures found { OnOk result ((f : spelled.Forest) × spelled.Spells text.now f) }
    ensures fault { IfErr result (λ e. IsFirstFault e (fault_of text.now)) }
{
    // whether there is a forest is all that is asked
    let _forest = read(alloc, text)?;
    Ok(())
}

/// Whether some forest spells the text.
fn is_spelled(alloc: Global, text: &str) -> Result<bool, Memory>
    ensures { IfOk result (λ b. b ≡ is_some (forest_of text.now)) }
{
    match check_spelled(alloc, text) {
        Ok(()) => Ok(true),
        Err(HtmlFault::Memory) => Err(Memory),
        Err(_) => Ok(false),
    }
}

/// A text that some forest spells.
fn if_spelled<'a>(alloc: Global, value: Option<&'a Value>) -> Result<Option<&'a str>, Memory>
    ensures { IfOk result (λ t.
        option_map (λ t. t.now) t ≡ model.if_spelled (seen_value value.entry)) }
{
    match value {
        Some(Value::String(text)) => {
            if is_spelled(alloc, text.as_str())? {
                Ok(Some(text.as_str()))
            } else {
                Ok(None)
            }
        }
        _ => Ok(None),
    }
}

/// The text of the body, where there is a body with such a text, or no body.
pub fn html_or_none<'a>(
    alloc: Global,
    body: Option<&'a Value>,
) -> Result<Option<Option<&'a str>>, Memory>
    ensures { IfOk result (λ t.
        option_map (option_map (λ t. t.now)) t ≡ model.html_or_none (seen_value body.entry)) }
{
    match body {
        None => Ok(Some(None)),
        Some(Value::Object(members)) => match if_spelled(alloc, member_of(members, "html"))? {
            Some(text) => Ok(Some(Some(text))),
            None => Ok(None),
        },
        Some(_) => Ok(None),
    }
}
