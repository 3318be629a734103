// Items, as a line writes them.
ghost use Rattle.std.specs.Prelude.{◌≡◌, [], ◌++◌, codes, option_map, Some, None, OnOk, IsErrOf};
ghost use Rattle.std.specs.Str.{chars};
ghost use Rattle.serde_json.specs.Find.{get_member};
ghost use Rattle.serde_json.specs.View.{view, members_view};
ghost use Rattle.model_edit.specs.Insert.{text_pieces};
ghost use Rattle.model_page.specs.Elements as elements;
ghost use Rattle.model_world.specs.Values as values;
ghost use Rattle.model_world.specs.Attributes.{marks_in};
ghost use Rattle.model_world.specs.ItemWords as words;
ghost use Rattle.ve_json.specs.Gives.{Reads};

use crate::attributes::{attrs_among, kind_in, marks_in};
use crate::fault::ValueFault;
use crate::held::is_white_char;
use crate::provenance::{Provenance, provenance_in};
use crate::values::{member, pair_in, text_in, values_in};
use model_items::PlainItem;
use model_world::PlainList;
use serde_json::{Map, Value};
use std::alloc::Global;
use ve_base::{Attrs, Head, Marks, Memory, Text, TryCopy};
use ve_kinds::{Kind, is_content_branch, is_element, is_inline_leaf, is_leaf};

fn has_white_chars(text: &str) -> bool
    ensures { result ≡ elements.is_white (chars text.now) }
{
    for ch in text.chars() {
        if !is_white_char(ch) {
            return false;
        }
    }
    true
}

/// A text of whitespace alone.
fn white_in(alloc: Global, json: &Value) -> Result<Text, ValueFault>
    ensures { Reads result (words.white_in (view json.now)) }
{
    let text = text_in(alloc, json)?;
    if !has_white_chars(text.as_str()) {
        return Err(ValueFault::IllFormed);
    }
    Ok(text)
}

/// The whitespace before a bracket; none where it is absent.
fn white_among(alloc: Global, members: &Map<String, Value>) -> Result<Text, ValueFault>
    ensures { Reads result (values.member_or (codes "pre") [] words.white_in (members_view members.now.entries)) }
{
    match member(members, "pre") {
        None => Ok(Text::new(alloc)),
        Some(json) => white_in(alloc, json),
    }
}

/// The marks of an opening; none where they are absent.
fn marks_among(
    alloc: Global,
    exact: bool,
    members: &Map<String, Value>,
) -> Result<Marks, ValueFault>
    ensures { Reads result (
        values.member_or (codes "marks") [] (marks_in exact) (members_view members.now.entries)) }
{
    match member(members, "marks") {
        None => Ok(Marks::new(alloc)),
        Some(json) => marks_in(alloc, exact, json),
    }
}

/// The attributes of an opening of this kind. Those of a leaf that no tag spells aren't read.
fn opening_attrs_in(
    alloc: Global,
    exact: bool,
    members: &Map<String, Value>,
    kind: Kind,
) -> Result<Attrs, ValueFault>
    ensures { Reads result (
        words.opening_attrs_in exact (members_view members.now.entries) kind) }
{
    if !is_element(kind) {
        return Ok(Attrs::new(alloc));
    }
    attrs_among(alloc, exact, members)
}

/// Whether marks, or whitespace before it, may stand with an opening: marks with inline leaves
/// alone, and whitespace with everything else.
fn may_open(kind: Kind, marks: &Marks, pre: &Text) -> bool
    ensures { result ≡ words.may_open kind marks.now pre.now }
{
    if is_inline_leaf(kind) {
        pre.is_empty()
    } else {
        marks.as_slice().is_empty()
    }
}

/// An opening with these members, of which the kind was read.
fn opening_in(
    alloc: Global,
    exact: bool,
    members: &Map<String, Value>,
    kind: Kind,
) -> Result<PlainItem, ValueFault>
    ensures { Reads result (words.opening_in exact (members_view members.now.entries) kind) }
{
    let attrs = opening_attrs_in(alloc, exact, members, kind)?;
    let marks = marks_among(alloc, exact, members)?;
    let pre = white_among(alloc, members)?;
    let Provenance { origin, generated } = provenance_in(exact, members, kind).ok_or(
        ValueFault::IllFormed,
    )?;
    if !may_open(kind, &marks, &pre) {
        return Err(ValueFault::IllFormed);
    }
    let head = Head {
        attrs,
        ..Head::empty(alloc)
    };
    Ok(PlainItem::Opening {
        kind,
        head,
        marks,
        pre,
        origin,
        generated,
    })
}

/// Whether whitespace may stand before a closing: not in a leaf or a content branch.
fn may_close(kind: Kind, pre: &Text) -> bool
    ensures { result ≡ words.may_close kind pre.now }
{
    pre.is_empty() || !(is_leaf(kind) || is_content_branch(kind))
}

/// A closing with these members, of which the kind was read.
fn closing_in(
    alloc: Global,
    members: &Map<String, Value>,
    kind: Kind,
) -> Result<PlainItem, ValueFault>
    ensures { Reads result (words.closing_in (members_view members.now.entries) kind) }
{
    let pre = white_among(alloc, members)?;
    if !may_close(kind, &pre) {
        return Err(ValueFault::IllFormed);
    }
    Ok(PlainItem::Closing { kind, pre })
}

/// An opening where there is a member `open`, else a closing.
fn bracket_in(
    alloc: Global,
    exact: bool,
    members: &Map<String, Value>,
) -> Result<PlainItem, ValueFault>
    ensures { Reads result (words.bracket_in exact (members_view members.now.entries)
        (get_member (codes "open") (members_view members.now.entries)) (get_member (codes "close") (members_view members.now.entries))) }
{
    if let Some(opened) = member(members, "open") {
        let kind = kind_in(exact, opened).ok_or(ValueFault::IllFormed)?;
        return opening_in(alloc, exact, members, kind);
    }
    let closed = member(members, "close").ok_or(ValueFault::IllFormed)?;
    let kind = kind_in(exact, closed).ok_or(ValueFault::IllFormed)?;
    closing_in(alloc, members, kind)
}

/// Appends the characters of a text with these marks.
fn push_text(alloc: Global, marks: &Marks, text: &str, items: &mut PlainList) -> Result<(), Memory>
    ensures { OnOk result (items.new ≡ items.old ++ text_pieces marks.now (chars text.now)) }
{
    for ch in text.chars() {
        let own = marks.copy(alloc)?;
        items.push(PlainItem::Char { ch, marks: own })?;
    }
    Ok(())
}

/// Appends the items that a value is read as: those of a text, of a text with marks, or a bracket.
fn push_items(
    alloc: Global,
    exact: bool,
    json: &Value,
    items: &mut PlainList,
) -> Result<(), ValueFault>
    ensures ok { OnOk result (
        option_map (λ more. items.old ++ more) (words.items_in exact (view json.now))
        ≡ Some items.new) }
    ensures err { IsErrOf result ValueFault.IllFormed
        → words.items_in exact (view json.now) ≡ None }
{
    match json {
        Value::String(_) => {
            let text = text_in(alloc, json)?;
            push_text(alloc, &Marks::new(alloc), text.as_str(), items)?;
        }
        Value::Array(_) => {
            let (text, marks) = pair_in(json).ok_or(ValueFault::IllFormed)?;
            let text = text_in(alloc, text)?;
            let marks = marks_in(alloc, exact, marks)?;
            push_text(alloc, &marks, text.as_str(), items)?;
        }
        Value::Object(members) => items.push(bracket_in(alloc, exact, members)?)?,
        Value::Null | Value::Bool(_) | Value::Number(_) => return Err(ValueFault::IllFormed),
    }
    Ok(())
}

/// The items that a list of values is read as.
pub fn all_items_in(alloc: Global, exact: bool, json: &Value) -> Result<PlainList, ValueFault>
    ensures { Reads result (words.all_items_in exact (view json.now)) }
{
    let list = values_in(json).ok_or(ValueFault::IllFormed)?;
    let mut items = PlainList::new(alloc);
    for json in list {
        push_items(alloc, exact, json, &mut items)?;
    }
    Ok(items)
}
