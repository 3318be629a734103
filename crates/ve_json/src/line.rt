// Reading a line of a script.
ghost use Rattle.std.specs.Prelude.{◌≡◌, codes, Ok, Err, IfOk, IsErrOf, option_map, option_and_then, string_bytes};
ghost use Rattle.serde_json.specs.Find.{as_str, get_member};
ghost use Rattle.serde_json.specs.View.{view, members_view};
ghost use Rattle.model_world.specs.declared.refusal.Refusal.{Refusal};
ghost use Rattle.model_world.specs.Commands as commands;
ghost use Rattle.model_world.specs.Values.{line_json, source_in, word_in};
ghost use Rattle.ve_json.specs.declared.fault.CommandFault.TheVariants as fault;
ghost use Rattle.ve_json.specs.Gives.{Gives};
ghost use Rattle.ve_json.specs.CommandWords.{asked_in, command_with, command_words, request_read};

use crate::command_words::{CommandWord, RequestWord, command_word};
use crate::fault::{BadMember, CommandFault};
use crate::members::{number_or, sites};
use crate::requests::request_members;
use crate::values::member;
use model_world::{Command, Field, Refusal};
use serde_json::{Map, Value};
use std::alloc::Global;
use ve_base::{Memory, Text};

/// A line as JSON, where it is JSON.
fn read_line(alloc: Global, line: &[u8]) -> Result<Option<Value>, Memory>
    ensures { IfOk result (λ value. option_map view value ≡ line_json line.now) }
{
    match Value::from_slice(alloc, line) {
        Ok(value) => Ok(Some(value)),
        Err(error) => {
            if error.is_memory() {
                Err(Memory)
            } else {
                Ok(None)
            }
        }
    }
}

/// A member, taken out of an object.
fn take_member(mut members: Map<String, Value>, name: &str) -> Option<Value>
    ensures { option_map view result ≡ get_member name.now (members_view members.entries) }
{
    members.remove(name)
}

/// The text, where the value is one.
fn text_of(value: Value) -> Option<String>
    ensures { option_map string_bytes result ≡ as_str (view value) }
{
    match value {
        Value::String(text) => Some(text),
        Value::Null | Value::Bool(_) | Value::Number(_) | Value::Array(_) | Value::Object(_) => {
            None
        }
    }
}

/// The text of a page, taken out of the members rather than copied.
fn take_page(members: Map<String, Value>) -> Option<Text>
    ensures { result ≡ option_and_then source_in (get_member (codes "page") (members_view members.entries)) }
{
    let page = text_of(take_member(members, "page")?)?;
    Some(Text::from_string(page))
}

/// The members of `open`. The page comes first where both are bad.
fn open_members(members: Map<String, Value>) -> Result<Command, BadMember>
    ensures { Gives result (commands.open_read (members_view members.entries)) }
{
    let sites = sites(&members);
    let page = take_page(members).ok_or(BadMember::Named(Field::Page))?;
    Ok(Command::OpenPage {
        page,
        sites: sites?,
    })
}

/// The members of a command of a site, the site's number last.
fn ask_members(
    alloc: Global,
    word: RequestWord,
    members: &Map<String, Value>,
) -> Result<Command, BadMember>
    ensures { Gives result (
        commands.ask_read (request_read word) (members_view members.now.entries)) }
{
    let request = request_members(alloc, word, members)?;
    let site = number_or(members, Field::Site, 0)?;
    Ok(Command::Ask { request, site })
}

/// The word of the command that `do` names.
fn named_command(members: &Map<String, Value>) -> Option<CommandWord>
    ensures { result ≡ option_and_then (word_in command_words) (get_member (codes "do") (members_view members.now.entries)) }
{
    let word = member(members, "do")?;
    command_word(word.as_str()?)
}

/// The members of the command that `do` names.
fn command_members(alloc: Global, members: Map<String, Value>) -> Result<Command, BadMember>
    ensures { Gives result (command_with (members_view members.entries)) }
{
    match named_command(&members) {
        None => Err(BadMember::Named(Field::Do)),
        Some(CommandWord::Open) => open_members(members),
        Some(CommandWord::Ask(word)) => ask_members(alloc, word, &members),
    }
}

/// The command of a JSON value, which has to be an object.
fn command_in(alloc: Global, json: Value) -> Result<Command, BadMember>
    ensures { Gives result (asked_in (view json)) }
{
    match json {
        Value::Object(members) => command_members(alloc, members),
        Value::Null | Value::Bool(_) | Value::Number(_) | Value::String(_) | Value::Array(_) => {
            Err(BadMember::Named(Field::Do))
        }
    }
}

/// The command of a line.
///
/// `BadJson` comes exactly where `serde_json` doesn't read the line. `BadCommand` comes exactly
/// where the value is no object with a known word in `do` and with well-formed members. It names
/// the first member that is missing or ill-formed.
pub fn command(alloc: Global, line: &[u8]) -> Result<Command, CommandFault>
    ensures ok { IfOk result (λ asked. commands.command line.now ≡ Ok asked) }
    ensures refused { (why : Refusal)
        → IsErrOf result (fault.Refused why)
        → commands.command line.now ≡ Err why }
{
    let Some(json) = read_line(alloc, line)? else {
        return Err(CommandFault::Refused(Refusal::BadJson));
    };
    Ok(command_in(alloc, json)?)
}
