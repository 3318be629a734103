// The reading of an editable `data-mw`.
ghost use Rattle.std.specs.Prelude.{◌≡◌, IfOk, IfSome, option_map};
ghost use Rattle.std.specs.Str.{chars};
ghost use Rattle.serde_json.specs.View.{members_view};
ghost use Rattle.model_page.specs.DataMw as model;
ghost use Rattle.ve_internal.specs.Read.{as_texts, in_members, BodyIsUtf8};

use crate::members::{
    attribute, html_or_none, member_of, members_or_none, read_json, text_or_empty, whole_object,
};
use serde_json::{Map, Value};
use std::alloc::Global;
use ve_base::{Memory, Text};

/// The reference that an editable `data-mw` describes. An owner has a body; a reuse has a name and
/// no body.
#[derive(Drop)]
pub struct RefRead {
    /// The group, which may be empty.
    pub group: Text,
    pub name: Option<Text>,
    /// The text of the body.
    pub html: Option<Text>,
}

fn text_of(alloc: Global, text: Option<&str>) -> Result<Option<Text>, Memory>
    ensures { IfOk result (λ t. t ≡ option_map (λ t. chars t.now) text.entry) }
{
    match text {
        None => Ok(None),
        Some(text) => Ok(Some(Text::from_str(alloc, text)?)),
    }
}

fn unless_empty<'a>(text: &'a str) -> Option<&'a str>
    ensures { option_map (λ t. t.now) result ≡ model.unless_empty text.now }
{
    if text.is_empty() { None } else { Some(text) }
}

/// The reference that the members of a `data-mw` describe.
fn reference_in(alloc: Global, members: &Map<String, Value>) -> Result<Option<RefRead>, Memory>
    ensures reference { IfOk result (λ r.
        r ≡ option_map as_texts (in_members (members_view members.now.entries))) }
    ensures body { IfOk result (λ r.
        IfSome r (λ _. BodyIsUtf8 (in_members (members_view members.now.entries)))) }
{
    let Some(attrs) = members_or_none(member_of(members, "attrs")) else {
        return Ok(None);
    };
    let Some(name) = text_or_empty(attribute(attrs, "name")) else {
        return Ok(None);
    };
    let Some(group) = text_or_empty(attribute(attrs, "group")) else {
        return Ok(None);
    };
    let Some(html) = html_or_none(alloc, member_of(members, "body"))? else {
        return Ok(None);
    };
    let name = unless_empty(name);
    if html.is_none() && name.is_none() {
        return Ok(None);
    }
    let group = Text::from_str(alloc, group)?;
    let name = text_of(alloc, name)?;
    let html = text_of(alloc, html)?;
    Ok(Some(RefRead { group, name, html }))
}

/// The reference that a `data-mw` describes; none where it isn't editable. It isn't where it isn't
/// JSON, isn't an object, has a number that is no integer of 64 bits, or has members of neither an
/// owner nor a reuse. The text of the body is UTF-8.
pub fn reference_of(alloc: Global, mw: &str) -> Result<Option<RefRead>, Memory>
    ensures reference { IfOk result (λ r. r ≡ option_map as_texts (model.reference_of mw.now)) }
    ensures body { IfOk result (λ r. IfSome r (λ _. BodyIsUtf8 (model.reference_of mw.now))) }
{
    let Some(value) = read_json(alloc, mw)? else {
        return Ok(None);
    };
    let Some(members) = whole_object(value) else {
        return Ok(None);
    };
    reference_in(alloc, &members)
}
