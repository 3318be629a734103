// The word of a command.
ghost use Rattle.std.specs.Prelude.{◌≡◌};
ghost use Rattle.model_world.specs.Values.{meant_by};
ghost use Rattle.ve_json.specs.CommandWords.{change_words, command_words, own_words, request_words};

/// The word of a command that a batch may hold.
#[derive(Clone, Copy, Debug, PartialEq, Eq)]
pub enum ChangeWord {
    Text,
    Insert,
    Remove,
    Split,
    Mark,
    Unmark,
    Wrap,
    Convert,
    Attr,
    Apply,
}

/// The word of a command without members of its own.
#[derive(Clone, Copy, Debug, PartialEq, Eq)]
pub enum BareWord {
    Html,
    Tree,
    Refs,
    Caret,
    Undo,
    Redo,
    Send,
    Serve,
    Take,
    Changes,
}

/// The word of a command that has a position alone.
#[derive(Clone, Copy, Debug, PartialEq, Eq)]
pub enum PlaceWord {
    At,
    Grid,
    Indent,
    Outdent,
}

/// The word of a command that has a table's position and a row or a column of it.
#[derive(Clone, Copy, Debug, PartialEq, Eq)]
pub enum TableWord {
    RowIn,
    RowOut,
    ColIn,
    ColOut,
}

/// The word of a command of a site.
#[derive(Clone, Copy, Debug, PartialEq, Eq)]
pub enum RequestWord {
    Change(ChangeWord),
    Bare(BareWord),
    Place(PlaceWord),
    Table(TableWord),
    Show,
    Near,
    Batch,
    Select,
    Move,
    Type,
    Erase,
    Revoke,
}

/// The command of a batch that has this word.
pub fn change_word(word: &str) -> Option<ChangeWord>
    ensures { result ≡ meant_by change_words word.now }
{
    let word = match word {
        "text" => ChangeWord::Text,
        "insert" => ChangeWord::Insert,
        "remove" => ChangeWord::Remove,
        "split" => ChangeWord::Split,
        "mark" => ChangeWord::Mark,
        "unmark" => ChangeWord::Unmark,
        "wrap" => ChangeWord::Wrap,
        "convert" => ChangeWord::Convert,
        "attr" => ChangeWord::Attr,
        "apply" => ChangeWord::Apply,
        _ => return None,
    };
    Some(word)
}

/// The command of a site that has this word and that no batch may hold.
fn own_word(word: &str) -> Option<RequestWord>
    ensures { result ≡ meant_by own_words word.now }
{
    let word = match word {
        "html" => RequestWord::Bare(BareWord::Html),
        "tree" => RequestWord::Bare(BareWord::Tree),
        "refs" => RequestWord::Bare(BareWord::Refs),
        "caret" => RequestWord::Bare(BareWord::Caret),
        "undo" => RequestWord::Bare(BareWord::Undo),
        "redo" => RequestWord::Bare(BareWord::Redo),
        "send" => RequestWord::Bare(BareWord::Send),
        "serve" => RequestWord::Bare(BareWord::Serve),
        "take" => RequestWord::Bare(BareWord::Take),
        "changes" => RequestWord::Bare(BareWord::Changes),
        "data" => RequestWord::Show,
        "at" => RequestWord::Place(PlaceWord::At),
        "near" => RequestWord::Near,
        "batch" => RequestWord::Batch,
        "select" => RequestWord::Select,
        "move" => RequestWord::Move,
        "type" => RequestWord::Type,
        "erase" => RequestWord::Erase,
        "grid" => RequestWord::Place(PlaceWord::Grid),
        "row_in" => RequestWord::Table(TableWord::RowIn),
        "row_out" => RequestWord::Table(TableWord::RowOut),
        "col_in" => RequestWord::Table(TableWord::ColIn),
        "col_out" => RequestWord::Table(TableWord::ColOut),
        "indent" => RequestWord::Place(PlaceWord::Indent),
        "outdent" => RequestWord::Place(PlaceWord::Outdent),
        "revoke" => RequestWord::Revoke,
        _ => return None,
    };
    Some(word)
}

/// The command of a site that has this word.
pub fn request_word(word: &str) -> Option<RequestWord>
    ensures { result ≡ meant_by request_words word.now }
{
    if let Some(own) = own_word(word) {
        return Some(own);
    }
    Some(RequestWord::Change(change_word(word)?))
}

/// The word of a command.
#[derive(Clone, Copy, Debug, PartialEq, Eq)]
pub enum CommandWord {
    Open,
    Ask(RequestWord),
}

/// The command that has this word.
pub fn command_word(word: &str) -> Option<CommandWord>
    ensures { result ≡ meant_by command_words word.now }
{
    if word == "open" {
        return Some(CommandWord::Open);
    }
    Some(CommandWord::Ask(request_word(word)?))
}
