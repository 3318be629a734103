// Commands: all that a line of a script can ask.
use crate::{EditCommand, EditCommandList};
use model_edit::{By, Dir};
use ve_base::Text;

/// A request to one site. Offsets, positions and ranges count items.
#[derive(Drop)]
pub enum Request {
    /// `html`: the page, written out.
    Html,
    /// `tree`: the tree of the list.
    Tree,
    /// `refs`: the table of references.
    Refs,
    /// `caret`: where the selection stands.
    Caret,
    /// `undo`: takes the last unsent entry back.
    Undo,
    /// `redo`: makes the entry again that was undone last.
    Redo,
    /// `send`: hands all unsent entries to the server.
    Send,
    /// `serve`: the server takes the site's next submission.
    Serve,
    /// `take`: the site takes the server's next feed.
    Take,
    /// `changes`: what changed in the list since the site last told it.
    Tell,
    /// `data`: the items of a range, to the list's end where `to` is absent.
    ShowItems { from: usize, to: Option<usize> },
    /// `at`: the innermost node at an offset, and what the offset is.
    At { at: usize },
    /// `near`: the nearest content offset, there or on one side.
    Near { at: usize, dir: Dir },
    /// One of the ten commands that a batch may hold.
    Edit { change: EditCommand },
    /// `batch`: 1 to 1,000 changes as one entry.
    Batch { cmds: EditCommandList },
    /// `select`: puts both ends of the selection.
    Select { anchor: usize, focus: usize },
    /// `move`: moves the focus to the next position, and the anchor too unless `keep`.
    Move { dir: Dir, by: By, keep: bool },
    /// `type`: characters, at least one, in the place of the selection.
    TypeText { text: Text },
    /// `erase`: takes the selection out, or what stands between it and the next position.
    Erase { dir: Dir, by: By },
    /// `grid`: the grid of a table.
    Grid { at: usize },
    /// `row_in`: a new row before a row of a table, or after its last one.
    RowIn { at: usize, row: usize },
    /// `row_out`: a row taken out.
    RowOut { at: usize, row: usize },
    /// `col_in`: a new column before a column of a table, or after its last one.
    ColIn { at: usize, column: usize },
    /// `col_out`: a column taken out.
    ColOut { at: usize, column: usize },
    /// `indent`: a list item moved one list deeper.
    Indent { at: usize },
    /// `outdent`: a list item moved one list out.
    Outdent { at: usize },
    /// `revoke`: takes a committed entry back, though later ones stand on it. Where `live`, what
    /// took each other back doesn't stand in the way.
    Revoke { entry: usize, live: bool },
}

/// The command of a line, after VisualEditor's commands on a surface. The words and members are
/// this project's own.
#[derive(Drop)]
pub enum Command {
    /// `open`: takes this page, in place of the one that is open, for 1 to 8 sites.
    OpenPage { page: Text, sites: usize },
    /// Every other command is for one site.
    Ask { request: Request, site: usize },
}
