// Attributes, marks and kinds.
ghost use Rattle.std.specs.Prelude.{◌≡◌, [], codes, map, IfOk};
ghost use Rattle.std.specs.List.{list_all};
ghost use Rattle.std.specs.Str.{chars};
ghost use Rattle.serde_json.specs.View.{view, members_view};
ghost use Rattle.model_spelling.specs.Grammar as grammar;
ghost use Rattle.model_page.specs.Tags as tags;
ghost use Rattle.model_world.specs.Attributes as attributes;
ghost use Rattle.model_world.specs.Values as values;
ghost use Rattle.ve_json.specs.Gives.{Reads};

use crate::fault::ValueFault;
use crate::held::is_held;
use crate::values::{member, pair_in, text_in, values_in};
use model_edit::{Kinds, Shape, Shapes};
use serde_json::{Map, Value};
use std::alloc::Global;
use ve_base::{Attr, Attrs, ListOf, MAX_MARKS, Mark, Marks, Memory, Text};
use ve_kinds::{Kind, is_annotation_tag, kind_of_tag};
use ve_tx::{Names, is_reserved};

/// Whether it is a letter, a digit, `-`, `_`, `.` or `:`.
fn is_name_char(ch: char) -> bool
    ensures { result ≡ grammar.is_name_byte ch }
{
    ch.is_ascii_alphanumeric() || ch == '-' || ch == '_' || ch == '.' || ch == ':'
}

/// Whether a text has no other characters than names have.
fn has_name_chars(text: &str) -> bool
    ensures { result ≡ list_all grammar.is_name_byte (chars text.now) }
{
    for ch in text.chars() {
        if !is_name_char(ch) {
            return false;
        }
    }
    true
}

/// Whether a text may be the name of an attribute.
fn is_attr_name(name: &Text) -> bool
    ensures { result ≡ grammar.is_attr_name name.now }
{
    !name.is_empty() && has_name_chars(name.as_str())
}

/// The name of an attribute.
pub fn name_in(alloc: Global, json: &Value) -> Result<Text, ValueFault>
    ensures { Reads result (attributes.name_in (view json.now)) }
{
    let name = text_in(alloc, json)?;
    if !is_attr_name(&name) {
        return Err(ValueFault::IllFormed);
    }
    Ok(name)
}

/// `[name, value]`.
fn attr_in(alloc: Global, json: &Value) -> Result<Attr, ValueFault>
    ensures { Reads result (attributes.attr_in (view json.now)) }
{
    let (name, value) = pair_in(json).ok_or(ValueFault::IllFormed)?;
    let name = name_in(alloc, name)?;
    let value = text_in(alloc, value)?;
    Ok(Attr { name, value })
}

/// Whether no two attributes have one name.
fn are_apart(alloc: Global, attrs: &[Attr]) -> Result<bool, Memory>
    ensures { IfOk result (λ apart. apart ≡ attributes.are_apart attrs.now) }
{
    let mut names = Names::new(alloc);
    for attr in attrs {
        let is_new = names.note(&attr.name)?;
        if !is_new {
            return Ok(false);
        }
    }
    Ok(true)
}

/// The attributes that values are read as, where their names are distinct.
fn attrs_of(alloc: Global, list: &[Value]) -> Result<Attrs, ValueFault>
    ensures { Reads result (
        values.such_that attributes.are_apart (
        values.all_read attributes.attr_in (map view list.now))) }
{
    let mut attrs = ListOf::new(alloc);
    for json in list {
        let attr = attr_in(alloc, json)?;
        attrs.push(attr)?;
    }
    let apart = are_apart(alloc, attrs.as_slice())?;
    if !apart {
        return Err(ValueFault::IllFormed);
    }
    Ok(Attrs::from_vec(attrs.into_vec()).shared(alloc))
}

/// A list of attributes with distinct names.
pub fn attrs_in(alloc: Global, json: &Value) -> Result<Attrs, ValueFault>
    ensures { Reads result (attributes.attrs_in (view json.now)) }
{
    attrs_of(alloc, values_in(json).ok_or(ValueFault::IllFormed)?)
}

/// Whether none has the name `about` or `typeof`.
fn are_free(attrs: &[Attr]) -> bool
    ensures { result ≡ attributes.are_free attrs.now }
{
    for attr in attrs {
        if is_reserved(attr.name.as_str()) {
            return false;
        }
    }
    true
}

/// Whether an item may have these attributes: where it stands for one that was shown, no name is
/// barred, but none may say that an element is kept whole.
fn are_allowed(exact: bool, attrs: &[Attr]) -> bool
    ensures { result ≡ attributes.are_allowed exact attrs.now }
{
    if exact {
        !is_held(attrs)
    } else {
        are_free(attrs)
    }
}

/// A list of attributes with distinct names that an item may have.
pub fn allowed_attrs_in(alloc: Global, exact: bool, json: &Value) -> Result<Attrs, ValueFault>
    ensures { Reads result (attributes.allowed_attrs_in exact (view json.now)) }
{
    let attrs = attrs_in(alloc, json)?;
    if !are_allowed(exact, attrs.as_slice()) {
        return Err(ValueFault::IllFormed);
    }
    Ok(attrs)
}

/// Whether elements of this tag are read as marks.
fn is_tag_of_marks(tag: &Text) -> bool
    ensures { result ≡ tags.is_annotation_tag tag.now }
{
    is_annotation_tag(tag.as_str())
}

/// `[tag, attributes]`.
fn mark_in(alloc: Global, exact: bool, json: &Value) -> Result<Mark, ValueFault>
    ensures { Reads result (attributes.mark_in exact (view json.now)) }
{
    let (tag, attrs) = pair_in(json).ok_or(ValueFault::IllFormed)?;
    let tag = text_in(alloc, tag)?;
    let attrs = attrs_in(alloc, attrs)?;
    if !is_tag_of_marks(&tag) || !are_allowed(exact, attrs.as_slice()) {
        return Err(ValueFault::IllFormed);
    }
    Ok(Mark { tag, attrs })
}

/// The marks of an item: no more than 64.
pub fn marks_in(alloc: Global, exact: bool, json: &Value) -> Result<Marks, ValueFault>
    ensures { Reads result (attributes.marks_in exact (view json.now)) }
{
    let list = values_in(json).ok_or(ValueFault::IllFormed)?;
    let mut marks = Marks::new(alloc);
    for json in list {
        let mark = mark_in(alloc, exact, json)?;
        marks.push(mark)?;
    }
    if marks.as_slice().len() > MAX_MARKS {
        return Err(ValueFault::IllFormed);
    }
    Ok(marks)
}

/// The kind of an element, by its tag.
pub fn element_in(json: &Value) -> Option<Kind>
    ensures { result ≡ attributes.element_in (view json.now) }
{
    kind_of_tag(json.as_str()?)
}

/// The kind that no tag spells, by its name.
fn leaf_word(word: &str) -> Option<Kind>
    ensures { result ≡ values.meant_by attributes.leaf_kinds word.now }
{
    match word {
        "trans_block" => Some(Kind::TransBlock),
        "alien_block" => Some(Kind::AlienBlock),
        "ref" => Some(Kind::Ref),
        "trans_inline" => Some(Kind::TransInline),
        "alien_inline" => Some(Kind::AlienInline),
        _ => None,
    }
}

/// The kind of an item: where it stands for one that was shown, any but the root, the internal list
/// and its items.
pub fn kind_in(exact: bool, json: &Value) -> Option<Kind>
    ensures { result ≡ attributes.kind_in exact (view json.now) }
{
    if !exact {
        return element_in(json);
    }
    if let Some(kind) = json.as_str().and_then(leaf_word) {
        return Some(kind);
    }
    element_in(json)
}

/// The kind of an element, other than `br` and `img`.
pub fn branch_in(json: &Value) -> Option<Kind>
    ensures { result ≡ attributes.branch_in (view json.now) }
{
    let kind = element_in(json)?;
    if kind == Kind::Br || kind == Kind::Img {
        return None;
    }
    Some(kind)
}

/// Kinds of elements other than `br` and `img`.
pub fn kinds_in(alloc: Global, json: &Value) -> Result<Kinds, ValueFault>
    ensures { Reads result (attributes.kinds_in (view json.now)) }
{
    let list = values_in(json).ok_or(ValueFault::IllFormed)?;
    let mut kinds = Kinds::new(alloc);
    for json in list {
        let kind = branch_in(json).ok_or(ValueFault::IllFormed)?;
        kinds.push(kind)?;
    }
    Ok(kinds)
}

/// The attributes among the members of an item or of a node to be put round others; none where they
/// are absent.
pub fn attrs_among(
    alloc: Global,
    exact: bool,
    members: &Map<String, Value>,
) -> Result<Attrs, ValueFault>
    ensures { Reads result (
        values.member_or (codes "attrs") [] (attributes.allowed_attrs_in exact)
        (members_view members.now.entries)) }
{
    match member(members, "attrs") {
        None => Ok(Attrs::new(alloc)),
        Some(json) => allowed_attrs_in(alloc, exact, json),
    }
}

/// `{"kind":kind,"attrs":attributes}`; the attributes may be absent.
fn shape_in(alloc: Global, json: &Value) -> Result<Shape, ValueFault>
    ensures { Reads result (attributes.shape_in (view json.now)) }
{
    let members = json.as_object().ok_or(ValueFault::IllFormed)?;
    let kind = member(members, "kind")
        .and_then(branch_in)
        .ok_or(ValueFault::IllFormed)?;
    let attrs = attrs_among(alloc, false, members)?;
    Ok(Shape { kind, attrs })
}

/// Nodes to be put round others, the outermost first.
pub fn shapes_in(alloc: Global, json: &Value) -> Result<Shapes, ValueFault>
    ensures { Reads result (attributes.shapes_in (view json.now)) }
{
    let list = values_in(json).ok_or(ValueFault::IllFormed)?;
    let mut shapes = Shapes::new(alloc);
    for json in list {
        let shape = shape_in(alloc, json)?;
        shapes.push(shape)?;
    }
    Ok(shapes)
}
