// The members of the ten commands that a batch may hold.
ghost use Rattle.std.specs.Prelude.{◌≡◌};
ghost use Rattle.model_world.specs.declared.edit_command.EditCommand.TheVariants as change;
ghost use Rattle.serde_json.specs.View.{members_view};
ghost use Rattle.model_world.specs.Changes as changes;
ghost use Rattle.ve_json.specs.Gives.{Gives, made_of};

use crate::fault::BadMember;
use crate::members::{
    attrs, branch, kinds, name, number, number_or, ops, shapes, some_source, some_text, switch,
    text, text_marks, text_or_null,
};
use model_edit::WrapPlan;
use model_world::{EditCommand, Field};
use serde_json::{Map, Value};
use std::alloc::Global;
use ve_base::Mark;

/// The members of `text`.
pub fn text_members(alloc: Global, members: &Map<String, Value>) -> Result<EditCommand, BadMember>
    ensures { Gives result (changes.text_read (members_view members.now.entries)) }
{
    let at = number(members, Field::At)?;
    let text = some_text(alloc, members, Field::Text)?;
    let marks = text_marks(members, Field::Marks)?;
    Ok(EditCommand::Text { at, text, marks })
}

/// The members of `insert`.
pub fn insert_members(alloc: Global, members: &Map<String, Value>) -> Result<EditCommand, BadMember>
    ensures { Gives result (changes.insert_read (members_view members.now.entries)) }
{
    let at = number(members, Field::At)?;
    let html = some_source(alloc, members, Field::Html)?;
    Ok(EditCommand::Insert { at, html })
}

/// The members of `remove`.
pub fn remove_members(members: &Map<String, Value>) -> Result<EditCommand, BadMember>
    ensures { Gives result (changes.remove_read (members_view members.now.entries)) }
{
    let from = number(members, Field::From)?;
    let to = number(members, Field::To)?;
    Ok(EditCommand::Remove { from, to })
}

/// The members of `split`.
pub fn split_members(members: &Map<String, Value>) -> Result<EditCommand, BadMember>
    ensures { Gives result (changes.split_read (members_view members.now.entries)) }
{
    let at = number(members, Field::At)?;
    let depth = number_or(members, Field::Depth, 1)?;
    Ok(EditCommand::Split { at, depth })
}

/// A range and the mark that is to be put on it or taken off it.
#[derive(Drop)]
struct MarkedRange {
    from: usize,
    to: usize,
    mark: Mark,
}

/// The members of `mark` and of `unmark`, which have the same.
fn marked_range(alloc: Global, members: &Map<String, Value>) -> Result<MarkedRange, BadMember>
    ensures { (changed : _) → Gives (made_of (λ range. changed range.from range.to range.mark) result)
        (changes.mark_read changed (members_view members.now.entries)) }
{
    let from = number(members, Field::From)?;
    let to = number(members, Field::To)?;
    let tag = text(alloc, members, Field::Tag)?;
    let attrs = attrs(alloc, members, Field::Attrs)?;
    let mark = Mark { tag, attrs };
    Ok(MarkedRange { from, to, mark })
}

/// The members of `mark`.
pub fn mark_members(alloc: Global, members: &Map<String, Value>) -> Result<EditCommand, BadMember>
    ensures { Gives result (
        changes.mark_read (λ from to mark. change.Mark from to mark)
        (members_view members.now.entries)) }
{
    let MarkedRange { from, to, mark } = marked_range(alloc, members)?;
    Ok(EditCommand::Mark { from, to, mark })
}

/// The members of `unmark`.
pub fn unmark_members(alloc: Global, members: &Map<String, Value>) -> Result<EditCommand, BadMember>
    ensures { Gives result (
        changes.mark_read (λ from to mark. change.Unmark from to mark)
        (members_view members.now.entries)) }
{
    let MarkedRange { from, to, mark } = marked_range(alloc, members)?;
    Ok(EditCommand::Unmark { from, to, mark })
}

/// The members of `wrap`.
pub fn wrap_members(alloc: Global, members: &Map<String, Value>) -> Result<EditCommand, BadMember>
    ensures { Gives result (changes.wrap_read (members_view members.now.entries)) }
{
    let from = number(members, Field::From)?;
    let to = number(members, Field::To)?;
    let plan = WrapPlan {
        unwrap_outer: kinds(alloc, members, Field::UnwrapOuter)?,
        wrap_outer: shapes(alloc, members, Field::WrapOuter)?,
        unwrap_each: kinds(alloc, members, Field::UnwrapEach)?,
        wrap_each: shapes(alloc, members, Field::WrapEach)?,
    };
    Ok(EditCommand::Wrap { from, to, plan })
}

/// The members of `convert`.
pub fn convert_members(members: &Map<String, Value>) -> Result<EditCommand, BadMember>
    ensures { Gives result (changes.convert_read (members_view members.now.entries)) }
{
    let at = number(members, Field::At)?;
    let kind = branch(members, Field::Kind)?;
    Ok(EditCommand::Convert { at, kind })
}

/// The members of `attr`.
pub fn attr_members(alloc: Global, members: &Map<String, Value>) -> Result<EditCommand, BadMember>
    ensures { Gives result (changes.attr_read (members_view members.now.entries)) }
{
    let at = number(members, Field::At)?;
    let name = name(alloc, members, Field::Name)?;
    let to = text_or_null(alloc, members, Field::To)?;
    Ok(EditCommand::Attr { at, name, to })
}

/// The members of `apply`.
pub fn apply_members(alloc: Global, members: &Map<String, Value>) -> Result<EditCommand, BadMember>
    ensures { Gives result (changes.apply_read (members_view members.now.entries)) }
{
    let exact = switch(members, Field::Exact)?;
    let ops = ops(alloc, exact, members, Field::Ops)?;
    Ok(EditCommand::Apply { ops })
}
