// The members of a command: each reader looks its member up once, and names it where it is missing
// or not well formed.
ghost use Rattle.std.specs.Prelude.{◌≡◌, [], None, Some, false, option_map, IfOk, IfErr};
ghost use Rattle.serde_json.specs.Find.{as_bool, get_member};
ghost use Rattle.serde_json.specs.View.{view, members_view};
ghost use Rattle.ve_base.specs.Limits.{max_sites};
ghost use Rattle.model_world.specs.declared.field.Field.TheVariants as field;
ghost use Rattle.model_edit.specs.declared.selection.By.TheVariants as by;
ghost use Rattle.model_world.specs.Attributes as attributes;
ghost use Rattle.model_world.specs.Changes as changes;
ghost use Rattle.model_world.specs.Commands as commands;
ghost use Rattle.model_world.specs.Members.{required_member, optional_member};
ghost use Rattle.model_world.specs.Names.{field_name};
ghost use Rattle.model_world.specs.Operations as operations;
ghost use Rattle.model_world.specs.Values as values;
ghost use Rattle.model_world.specs.declared.edit_command.TextMarks.TheVariants as text_marks;
ghost use Rattle.ve_json.specs.Gives.{Gives, or_bad_member};
ghost use Rattle.ve_json.specs.declared.fault.BadMember.TheVariants as bad;

use crate::attributes::{attrs_in, branch_in, kinds_in, name_in, shapes_in};
use crate::fault::{BadMember, ValueFault};
use crate::operations::ops_in;
use crate::values::{
    member, number_in, sites_in, some_source_in, some_text_in, text_in, text_or_null_in,
};
use model_edit::{By, Dir, Kinds, Shapes};
use model_world::{Field, OpWordList, TextMarks, field_name};
use serde_json::{Map, Value};
use std::alloc::Global;
use ve_base::{Attrs, Text};
use ve_kinds::Kind;

/// The member of this field.
fn of_field(members: &Map<String, Value>, field: Field) -> Option<&Value>
    ensures { option_map (λ v. view v.now) result
        ≡ get_member (field_name field) (members_view members.now.entries) }
{
    member(members, field_name(field))
}

/// A member that has to be there.
pub fn found(members: &Map<String, Value>, field: Field) -> Result<&Value, BadMember>
    ensures ok { IfOk result (λ v.
        get_member (field_name field) (members_view members.now.entries) ≡ Some (view v.now)) }
    ensures err { IfErr result (λ why.
        (why ≡ bad.Named field)
        × (get_member (field_name field) (members_view members.now.entries) ≡ None)) }
{
    of_field(members, field).ok_or(BadMember::Named(field))
}

/// A value that isn't well formed makes its member a bad one.
pub fn named<T: Drop>(field: Field, read: Result<T, ValueFault>) -> Result<T, BadMember>
    ensures { result ≡ or_bad_member field read }
{
    match read {
        Ok(value) => Ok(value),
        Err(ValueFault::IllFormed) => Err(BadMember::Named(field)),
        Err(ValueFault::Memory) => Err(BadMember::Memory),
    }
}

/// A number.
pub fn number(members: &Map<String, Value>, field: Field) -> Result<usize, BadMember>
    ensures { Gives result (
        required_member field values.number_in (members_view members.now.entries)) }
{
    number_in(found(members, field)?).ok_or(BadMember::Named(field))
}

/// A number, or this one where it is absent.
pub fn number_or(
    members: &Map<String, Value>,
    field: Field,
    default: usize,
) -> Result<usize, BadMember>
    ensures { Gives result (
        optional_member field default values.number_in (members_view members.now.entries)) }
{
    match of_field(members, field) {
        None => Ok(default),
        Some(json) => number_in(json).ok_or(BadMember::Named(field)),
    }
}

/// A number, where it is there.
pub fn number_or_none(
    members: &Map<String, Value>,
    field: Field,
) -> Result<Option<usize>, BadMember>
    ensures { Gives result (
        optional_member field None values.some_number_in (members_view members.now.entries)) }
{
    match of_field(members, field) {
        None => Ok(None),
        Some(json) => Ok(Some(number_in(json).ok_or(BadMember::Named(field))?)),
    }
}

/// The number of sites: 1 where nothing is said.
pub fn sites(members: &Map<String, Value>) -> Result<usize, BadMember>
    ensures { Gives result (
        optional_member field.Sites 1 (values.number_between 1 max_sites)
        (members_view members.now.entries)) }
{
    match of_field(members, Field::Sites) {
        None => Ok(1),
        Some(json) => sites_in(json).ok_or(BadMember::Named(Field::Sites)),
    }
}

/// Characters, at least one.
pub fn some_text(
    alloc: Global,
    members: &Map<String, Value>,
    field: Field,
) -> Result<Text, BadMember>
    ensures { Gives result (
        required_member field changes.some_text_in (members_view members.now.entries)) }
{
    named(field, some_text_in(alloc, found(members, field)?))
}

/// The text of a fragment, which isn't empty.
pub fn some_source(
    alloc: Global,
    members: &Map<String, Value>,
    field: Field,
) -> Result<Text, BadMember>
    ensures { Gives result (
        required_member field changes.some_source_in (members_view members.now.entries)) }
{
    named(field, some_source_in(alloc, found(members, field)?))
}

/// Characters.
pub fn text(alloc: Global, members: &Map<String, Value>, field: Field) -> Result<Text, BadMember>
    ensures { Gives result (
        required_member field values.text_in (members_view members.now.entries)) }
{
    named(field, text_in(alloc, found(members, field)?))
}

/// Characters, or `null`, which stands for none.
pub fn text_or_null(
    alloc: Global,
    members: &Map<String, Value>,
    field: Field,
) -> Result<Option<Text>, BadMember>
    ensures { Gives result (
        required_member field values.text_or_null_in (members_view members.now.entries)) }
{
    named(field, text_or_null_in(alloc, found(members, field)?))
}

/// The name of an attribute.
pub fn name(alloc: Global, members: &Map<String, Value>, field: Field) -> Result<Text, BadMember>
    ensures { Gives result (
        required_member field attributes.name_in (members_view members.now.entries)) }
{
    named(field, name_in(alloc, found(members, field)?))
}

/// Attributes; none where they are absent.
pub fn attrs(alloc: Global, members: &Map<String, Value>, field: Field) -> Result<Attrs, BadMember>
    ensures { Gives result (
        optional_member field [] attributes.attrs_in (members_view members.now.entries)) }
{
    match of_field(members, field) {
        None => Ok(Attrs::new(alloc)),
        Some(json) => named(field, attrs_in(alloc, json)),
    }
}

/// The kind of a branch.
pub fn branch(members: &Map<String, Value>, field: Field) -> Result<Kind, BadMember>
    ensures { Gives result (
        required_member field attributes.branch_in (members_view members.now.entries)) }
{
    branch_in(found(members, field)?).ok_or(BadMember::Named(field))
}

/// Kinds of branches; none where they are absent.
pub fn kinds(alloc: Global, members: &Map<String, Value>, field: Field) -> Result<Kinds, BadMember>
    ensures { Gives result (
        optional_member field [] attributes.kinds_in (members_view members.now.entries)) }
{
    match of_field(members, field) {
        None => Ok(Kinds::new(alloc)),
        Some(json) => named(field, kinds_in(alloc, json)),
    }
}

/// Nodes to be put round others; none where they are absent.
pub fn shapes(
    alloc: Global,
    members: &Map<String, Value>,
    field: Field,
) -> Result<Shapes, BadMember>
    ensures { Gives result (
        optional_member field [] attributes.shapes_in (members_view members.now.entries)) }
{
    match of_field(members, field) {
        None => Ok(Shapes::new(alloc)),
        Some(json) => named(field, shapes_in(alloc, json)),
    }
}

/// The operations of a transaction, in normal form. Where `exact`, their items stand for those that
/// a reply shows.
pub fn ops(
    alloc: Global,
    exact: bool,
    members: &Map<String, Value>,
    field: Field,
) -> Result<OpWordList, BadMember>
    ensures { Gives result (
        required_member field (operations.ops_in exact) (members_view members.now.entries)) }
{
    named(field, ops_in(alloc, exact, found(members, field)?))
}

fn text_marks_in(json: &Value) -> Option<TextMarks>
    ensures { result ≡ changes.text_marks_in (view json.now) }
{
    match json.as_str()? {
        "left" => Some(TextMarks::Left),
        "none" => Some(TextMarks::Plain),
        _ => None,
    }
}

/// Which marks typed characters get: those to the left where nothing is said.
pub fn text_marks(members: &Map<String, Value>, field: Field) -> Result<TextMarks, BadMember>
    ensures { Gives result (
        optional_member field text_marks.Left changes.text_marks_in (
        members_view members.now.entries)) }
{
    match of_field(members, field) {
        None => Ok(TextMarks::Left),
        Some(json) => text_marks_in(json).ok_or(BadMember::Named(field)),
    }
}

fn dir_in(json: &Value) -> Option<Dir>
    ensures { result ≡ commands.dir_in (view json.now) }
{
    match json.as_str()? {
        "back" => Some(Dir::Back),
        "ahead" => Some(Dir::Ahead),
        _ => None,
    }
}

/// Which way a caret goes.
pub fn dir(members: &Map<String, Value>, field: Field) -> Result<Dir, BadMember>
    ensures { Gives result (
        required_member field commands.dir_in (members_view members.now.entries)) }
{
    dir_in(found(members, field)?).ok_or(BadMember::Named(field))
}

fn by_in(json: &Value) -> Option<By>
    ensures { result ≡ commands.by_in (view json.now) }
{
    match json.as_str()? {
        "cluster" => Some(By::Cluster),
        "word" => Some(By::Word),
        _ => None,
    }
}

/// How far a caret goes: a cluster where nothing is said.
pub fn by(members: &Map<String, Value>, field: Field) -> Result<By, BadMember>
    ensures { Gives result (
        optional_member field by.Cluster commands.by_in (members_view members.now.entries)) }
{
    match of_field(members, field) {
        None => Ok(By::Cluster),
        Some(json) => by_in(json).ok_or(BadMember::Named(field)),
    }
}

/// A switch, off where it is absent.
pub fn switch(members: &Map<String, Value>, field: Field) -> Result<bool, BadMember>
    ensures { Gives result (
        optional_member field false as_bool (members_view members.now.entries)) }
{
    match of_field(members, field) {
        None => Ok(false),
        Some(json) => json.as_bool().ok_or(BadMember::Named(field)),
    }
}
