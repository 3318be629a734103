// Replies to lines.
use crate::{GridCells, PatchList, PlainList, Refusal, TreeWords};
use model_items::OffsetClass;
use model_page::RefTable;
use ve_base::Text;
use ve_kinds::Kind;

/// The answer to a line.
#[derive(Drop)]
pub enum Reply {
    /// How many items the list has now: to `open`, edits, `undo`, `redo`, `type` and `erase`.
    Length(usize),
    /// To `html`: the page, written out.
    Page(Text),
    /// To `data`: the items.
    Items(PlainList),
    /// To `tree`: the root and all in it.
    Tree(TreeWords),
    /// To `at`: the innermost node, its range, and what the offset is.
    At {
        kind: Kind,
        from: usize,
        to: usize,
        class: OffsetClass,
    },
    /// To `near`: a content offset.
    Offset(usize),
    /// To `changes`: how many items the list has, and what changed in it.
    Told {
        count: usize,
        patches: PatchList,
    },
    /// To `refs`: the table of references.
    Refs(RefTable),
    /// To `select`, `caret` and `move`: where the selection stands.
    Caret {
        anchor: usize,
        focus: usize,
    },
    /// To `send`: how many entries were sent.
    Sent(usize),
    /// To `serve`: how many of the submission's entries were accepted; where one was not,
    /// the active ranges in conflict, the committed one first.
    Served {
        accepted: usize,
        total: usize,
        clash: Option<((usize, usize), (usize, usize))>,
    },
    /// To `take`, of others' entries: how many they are, and how many of the site's own were
    /// dropped.
    TookForeign {
        entries: usize,
        dropped: usize,
    },
    /// To `take`, of an acknowledgement: how many entries were accepted.
    TookAck {
        accepted: usize,
    },
    /// To `grid`: how many rows and columns there are, and the cells.
    Grid {
        rows: usize,
        columns: usize,
        cells: GridCells,
    },
    /// It was refused, and changed nothing.
    No(Refusal),
    /// A batch was refused at the change `at`, counted from 0, and changed nothing.
    NoBatch {
        at: usize,
        refusal: Refusal,
    },
}
