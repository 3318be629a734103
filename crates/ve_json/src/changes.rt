// Changes, and batches of them.
ghost use Rattle.std.specs.Prelude.{◌≡◌};
ghost use Rattle.serde_json.specs.View.{view, members_view};
ghost use Rattle.model_world.specs.Changes as changes;
ghost use Rattle.model_world.specs.Commands as commands;
ghost use Rattle.model_world.specs.Members.{required_member};
ghost use Rattle.model_world.specs.Values as values;
ghost use Rattle.ve_json.specs.Gives.{Gives, Reads};
ghost use Rattle.ve_json.specs.CommandWords.{change_by_word, change_read};

use crate::change_members::{
    apply_members, attr_members, convert_members, insert_members, mark_members, remove_members,
    split_members, text_members, unmark_members, wrap_members,
};
use crate::command_words::{ChangeWord, change_word};
use crate::fault::{BadMember, ValueFault};
use crate::members::{found, named};
use crate::values::{member, values_in};
use model_world::{EditCommand, EditCommandList, Field};
use serde_json::{Map, Value};
use std::alloc::Global;
use ve_base::MAX_BATCH;

/// The members of the change that has this word.
pub fn change_members(
    alloc: Global,
    word: ChangeWord,
    members: &Map<String, Value>,
) -> Result<EditCommand, BadMember>
    ensures { Gives result (change_read word (members_view members.now.entries)) }
{
    match word {
        ChangeWord::Text => text_members(alloc, members),
        ChangeWord::Insert => insert_members(alloc, members),
        ChangeWord::Remove => remove_members(members),
        ChangeWord::Split => split_members(members),
        ChangeWord::Mark => mark_members(alloc, members),
        ChangeWord::Unmark => unmark_members(alloc, members),
        ChangeWord::Wrap => wrap_members(alloc, members),
        ChangeWord::Convert => convert_members(members),
        ChangeWord::Attr => attr_members(alloc, members),
        ChangeWord::Apply => apply_members(alloc, members),
    }
}

/// The change, where its members were well formed.
fn well_formed(read: Result<EditCommand, BadMember>) -> Result<EditCommand, ValueFault>
    ensures { (meant : _) → Gives read meant → Reads result (changes.if_well_formed meant) }
{
    match read {
        Ok(change) => Ok(change),
        Err(BadMember::Named(_)) => Err(ValueFault::IllFormed),
        Err(BadMember::Memory) => Err(ValueFault::Memory),
    }
}

/// The change of a batch that has these members.
fn change_with(alloc: Global, members: &Map<String, Value>) -> Result<EditCommand, ValueFault>
    ensures { Reads result (change_by_word (members_view members.now.entries)) }
{
    let word = member(members, "do")
        .and_then(Value::as_str)
        .and_then(change_word)
        .ok_or(ValueFault::IllFormed)?;
    well_formed(change_members(alloc, word, members))
}

/// A change of a batch, where it is well formed.
fn change_in(alloc: Global, json: &Value) -> Result<EditCommand, ValueFault>
    ensures { Reads result (changes.change_in (view json.now)) }
{
    let Some(members) = json.as_object() else {
        return Err(ValueFault::IllFormed);
    };
    change_with(alloc, members)
}

/// The changes of a batch: 1 to 1,000.
fn batch_in(alloc: Global, json: &Value) -> Result<EditCommandList, ValueFault>
    ensures { Reads result (
        values.such_that commands.is_batch (values.list_in changes.change_in (view json.now))) }
{
    let list = values_in(json).ok_or(ValueFault::IllFormed)?;
    let mut changes = EditCommandList::new(alloc);
    for json in list {
        let change = change_in(alloc, json)?;
        changes.push(change)?;
    }
    let count = changes.as_slice().len();
    if count == 0 || count > MAX_BATCH {
        return Err(ValueFault::IllFormed);
    }
    Ok(changes)
}

/// The member that has the changes of a batch.
pub fn batch(
    alloc: Global,
    members: &Map<String, Value>,
    field: Field,
) -> Result<EditCommandList, BadMember>
    ensures { Gives result (
        required_member field
        (λ json. values.such_that commands.is_batch (values.list_in changes.change_in json))
        (members_view members.now.entries)) }
{
    named(field, batch_in(alloc, found(members, field)?))
}
