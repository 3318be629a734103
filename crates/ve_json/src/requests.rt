// The members of a site's commands.
ghost use Rattle.std.specs.Prelude.{◌≡◌};
ghost use Rattle.serde_json.specs.View.{members_view};
ghost use Rattle.model_world.specs.Commands as commands;
ghost use Rattle.ve_json.specs.Gives.{Gives};
ghost use Rattle.ve_json.specs.declared.command_words.RequestWord.TheVariants as a_request;
ghost use Rattle.ve_json.specs.CommandWords.{bare_request, place_read, request_read, table_line, table_read};

use crate::changes::{batch, change_members};
use crate::command_words::{BareWord, ChangeWord, PlaceWord, RequestWord, TableWord};
use crate::fault::BadMember;
use crate::members::{by, dir, number, number_or, number_or_none, some_text, switch};
use model_world::{Field, Request};
use serde_json::{Map, Value};
use std::alloc::Global;

/// The members of `data`.
fn show_members(members: &Map<String, Value>) -> Result<Request, BadMember>
    ensures { Gives result (commands.show_read (members_view members.now.entries)) }
{
    let from = number_or(members, Field::From, 0)?;
    let to = number_or_none(members, Field::To)?;
    Ok(Request::ShowItems { from, to })
}

/// The members of `near`.
fn near_members(members: &Map<String, Value>) -> Result<Request, BadMember>
    ensures { Gives result (commands.near_read (members_view members.now.entries)) }
{
    let at = number(members, Field::At)?;
    let dir = dir(members, Field::Dir)?;
    Ok(Request::Near { at, dir })
}

/// The members of `select`.
fn select_members(members: &Map<String, Value>) -> Result<Request, BadMember>
    ensures { Gives result (commands.select_read (members_view members.now.entries)) }
{
    let anchor = number(members, Field::Anchor)?;
    let focus = number(members, Field::Focus)?;
    Ok(Request::Select { anchor, focus })
}

/// The members of `move`.
fn move_members(members: &Map<String, Value>) -> Result<Request, BadMember>
    ensures { Gives result (commands.move_read (members_view members.now.entries)) }
{
    let dir = dir(members, Field::Dir)?;
    let by = by(members, Field::By)?;
    let keep = switch(members, Field::Keep)?;
    Ok(Request::Move { dir, by, keep })
}

/// The members of `erase`.
fn erase_members(members: &Map<String, Value>) -> Result<Request, BadMember>
    ensures { Gives result (commands.erase_read (members_view members.now.entries)) }
{
    let dir = dir(members, Field::Dir)?;
    let by = by(members, Field::By)?;
    Ok(Request::Erase { dir, by })
}

/// The members of `batch`.
fn batch_members(alloc: Global, members: &Map<String, Value>) -> Result<Request, BadMember>
    ensures { Gives result (commands.batch_read (members_view members.now.entries)) }
{
    let cmds = batch(alloc, members, Field::Cmds)?;
    Ok(Request::Batch { cmds })
}

/// The members of `type`.
fn type_members(alloc: Global, members: &Map<String, Value>) -> Result<Request, BadMember>
    ensures { Gives result (commands.type_read (members_view members.now.entries)) }
{
    let text = some_text(alloc, members, Field::Text)?;
    Ok(Request::TypeText { text })
}

/// The members of `revoke`.
fn revoke_members(members: &Map<String, Value>) -> Result<Request, BadMember>
    ensures { Gives result (commands.revoke_read (members_view members.now.entries)) }
{
    let entry = number(members, Field::Entry)?;
    let live = switch(members, Field::Live)?;
    Ok(Request::Revoke { entry, live })
}

/// The members of a command that has a position alone.
fn place_members(word: PlaceWord, members: &Map<String, Value>) -> Result<Request, BadMember>
    ensures { Gives result (place_read word (members_view members.now.entries)) }
{
    let at = number(members, Field::At)?;
    Ok(match word {
        PlaceWord::At => Request::At { at },
        PlaceWord::Grid => Request::Grid { at },
        PlaceWord::Indent => Request::Indent { at },
        PlaceWord::Outdent => Request::Outdent { at },
    })
}

/// Whether a command of a table names a row or a column of it.
fn line_of(word: TableWord) -> Field
    ensures { result ≡ table_line word }
{
    match word {
        TableWord::RowIn | TableWord::RowOut => Field::Row,
        TableWord::ColIn | TableWord::ColOut => Field::Column,
    }
}

/// The members of a command that has a table's position and a row or a column of it.
fn table_members(word: TableWord, members: &Map<String, Value>) -> Result<Request, BadMember>
    ensures { Gives result (table_read word (members_view members.now.entries)) }
{
    let at = number(members, Field::At)?;
    let line = number(members, line_of(word))?;
    Ok(match word {
        TableWord::RowIn => Request::RowIn { at, row: line },
        TableWord::RowOut => Request::RowOut { at, row: line },
        TableWord::ColIn => Request::ColIn { at, column: line },
        TableWord::ColOut => Request::ColOut { at, column: line },
    })
}

/// The request of a command without members of its own.
fn bare_request(word: BareWord) -> Request
    ensures { result ≡ bare_request word }
{
    match word {
        BareWord::Html => Request::Html,
        BareWord::Tree => Request::Tree,
        BareWord::Refs => Request::Refs,
        BareWord::Caret => Request::Caret,
        BareWord::Undo => Request::Undo,
        BareWord::Redo => Request::Redo,
        BareWord::Send => Request::Send,
        BareWord::Serve => Request::Serve,
        BareWord::Take => Request::Take,
        BareWord::Changes => Request::Tell,
    }
}

/// The members of a command that a batch may hold.
fn edit_members(
    alloc: Global,
    word: ChangeWord,
    members: &Map<String, Value>,
) -> Result<Request, BadMember>
    ensures { Gives result (
        request_read (a_request.Change word) (members_view members.now.entries)) }
{
    let change = change_members(alloc, word, members)?;
    Ok(Request::Edit { change })
}

/// The members of the command of a site that has this word.
pub fn request_members(
    alloc: Global,
    word: RequestWord,
    members: &Map<String, Value>,
) -> Result<Request, BadMember>
    ensures { Gives result (request_read word (members_view members.now.entries)) }
{
    match word {
        RequestWord::Change(word) => edit_members(alloc, word, members),
        RequestWord::Bare(word) => Ok(bare_request(word)),
        RequestWord::Place(word) => place_members(word, members),
        RequestWord::Table(word) => table_members(word, members),
        RequestWord::Show => show_members(members),
        RequestWord::Near => near_members(members),
        RequestWord::Batch => batch_members(alloc, members),
        RequestWord::Select => select_members(members),
        RequestWord::Move => move_members(members),
        RequestWord::Type => type_members(alloc, members),
        RequestWord::Erase => erase_members(members),
        RequestWord::Revoke => revoke_members(members),
    }
}
