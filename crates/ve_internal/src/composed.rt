// A `data-mw` with another body.
ghost use Rattle.std.specs.Prelude.{◌≡◌, Some, false, IsSome, IfOk, OnOk, option_map, codes};
ghost use Rattle.std.specs.Str.{chars, encode_utf8_all};
ghost use Rattle.serde_json.specs.Data.{object, put};
ghost use Rattle.serde_json.specs.Find.{get_member};
ghost use Rattle.serde_json.specs.Read as json;
ghost use Rattle.serde_json.specs.View.{view, members_view};
ghost use Rattle.serde_json.specs.Written as written;
ghost use Rattle.model_page.specs.DataMw as model;

use crate::members::{read_json, whole_object};
use serde_json::{Map, Value};
use std::alloc::Global;
use ve_base::{Memory, Text};

/// The members of an editable `data-mw`.
fn editable_members(alloc: Global, mw: &str) -> Result<Map<String, Value>, Memory>
    requires { IsSome (model.reference_of mw.now) }
    ensures members { IfOk result (λ m.
        members_view m.entries ≡ model.members_of (json.read mw.now)) }
    ensures whole { IfOk result (λ m. written.members_have_float (members_view m.entries) ≡ false) }
{
    let Some(value) = read_json(alloc, mw)? else {
        unreachable!();
    };
    let Some(members) = whole_object(value) else {
        unreachable!();
    };
    Ok(members)
}

/// Puts a member in, and hands back the one that had its name.
fn put_member(
    alloc: Global,
    members: &mut Map<String, Value>,
    name: &str,
    value: Value,
) -> Result<Option<Value>, Memory>
    ensures before { IfOk result (λ old.
        option_map view old ≡ get_member name.now (members_view members.old.entries)) }
    ensures put { OnOk result (
        members_view members.new.entries
        ≡ put name.now (view value) (members_view members.old.entries)) }
{
    let name = String::from_str(alloc, name)?;
    Ok(members.insert(name, value)?)
}

/// The members of an object; those of anything else are none.
fn members_in(alloc: Global, value: Value) -> Map<String, Value>
    ensures { members_view result.entries ≡ model.members_of (Some (view value)) }
{
    match value {
        Value::Object(members) => members,
        Value::Null | Value::Bool(_) | Value::Number(_) | Value::String(_) | Value::Array(_) =>
            Map::new(alloc),
    }
}

fn members_or_new(alloc: Global, value: Option<Value>) -> Map<String, Value>
    ensures { members_view result.entries ≡ model.members_of (option_map view value) }
{
    match value {
        Some(value) => members_in(alloc, value),
        None => Map::new(alloc),
    }
}

fn without_body(members: Map<String, Value>) -> Map<String, Value>
    ensures { members_view result.entries ≡ model.without (codes "body") (members_view members.entries) }
{
    let mut members = members;
    let _ = members.remove("body");
    members
}

/// With this text of the body; the other members of the body stay.
fn with_html(
    alloc: Global,
    members: Map<String, Value>,
    html: &str,
) -> Result<Map<String, Value>, Memory>
    ensures { IfOk result (λ m.
        members_view m.entries
        ≡ model.with_body (Some html.now) (members_view members.entries)) }
{
    let mut members = members;
    let html = String::from_str(alloc, html)?;
    // The position of the body is kept while its members change.
    let old = put_member(alloc, &mut members, "body", Value::Null)?;
    let mut body = members_or_new(alloc, old);
    let _ = put_member(alloc, &mut body, "html", Value::String(html))?;
    let _ = put_member(alloc, &mut members, "body", Value::Object(body))?;
    Ok(members)
}

fn with_body(
    alloc: Global,
    members: Map<String, Value>,
    body: Option<&str>,
) -> Result<Map<String, Value>, Memory>
    ensures { IfOk result (λ m.
        members_view m.entries
        ≡ model.with_body (option_map (λ b. b.now) body.entry) (members_view members.entries)) }
{
    match body {
        Some(html) => with_html(alloc, members, html),
        None => Ok(without_body(members)),
    }
}

/// The compact JSON of an object without floats.
fn spelled(alloc: Global, members: Map<String, Value>) -> Result<Text, Memory>
    requires { written.members_have_float (members_view members.entries) ≡ false }
    ensures text { IfOk result (λ t.
        t ≡ chars (written.compact_text (object (members_view members.entries)))) }
    ensures bytes { IfOk result (λ t.
        encode_utf8_all t ≡ written.compact_text (object (members_view members.entries))) }
{
    Ok(Text::from_string(Value::Object(members).to_string(alloc)?))
}

/// An editable `data-mw` with this text of the body, or without a body, as compact JSON whose
/// members stand in the order of their names' bytes. All other members stay, those of the body too.
pub fn compose(alloc: Global, mw: &str, body: Option<&str>) -> Result<Text, Memory>
    requires { IsSome (model.reference_of mw.now) }
    ensures text { IfOk result (λ t.
        t ≡ chars (model.composed_mw mw.now (option_map (λ b. b.now) body.entry))) }
    ensures bytes { IfOk result (λ t.
        encode_utf8_all t ≡ model.composed_mw mw.now (option_map (λ b. b.now) body.entry)) }
{
    let members = editable_members(alloc, mw)?;
    let members = with_body(alloc, members, body)?;
    spelled(alloc, members)
}
