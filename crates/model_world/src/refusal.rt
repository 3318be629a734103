// Why a line is refused.
use crate::Field;
use model_spelling::ScanWhat;

/// A fault in the text of a page or of a fragment.
#[derive(Clone, Copy, Debug, PartialEq, Eq)]
pub enum HtmlWord {
    /// A token is not spelled right.
    Scan(ScanWhat),
    /// An end tag is not the innermost open element's.
    Mismatched,
    /// An element is open at the end.
    Unclosed,
    /// An end tag stands where no element is open, or is of an element that has none.
    Stray,
    /// An element stands inside 200 others.
    TooDeep,
}

/// Why a line is refused. Nothing changes then. Positions, offsets and ranges count items, with
/// these exceptions, which count bytes of the page or of the fragment: `Html`, `TooDeep` to `open`,
/// and `TooManyMarks` to `open` and to `insert`.
#[derive(Clone, Copy, Debug, PartialEq, Eq)]
pub enum Refusal {
    /// The line has `len` bytes, which are more than 8,388,608.
    LineTooLong {
        len: usize,
    },
    /// The line is not JSON.
    BadJson,
    /// The first member that is missing or ill-formed; `Do` where the line is no object.
    BadCommand {
        field: Field,
    },
    /// No page is open.
    NotOpen,
    /// There are `sites` sites, numbered from 0.
    BadSite {
        sites: usize,
    },
    /// The page has `len` bytes, which are more than 4,194,304.
    PageTooLong {
        len: usize,
    },
    /// The page or the fragment is not spelled right.
    Html {
        word: HtmlWord,
        at: usize,
    },
    /// A node would stand inside 100 others.
    TooDeep {
        at: usize,
    },
    /// An item would have more than 64 marks.
    TooManyMarks {
        at: usize,
    },
    /// The list would have `count` items, which are more than 4,194,304.
    TooManyItems {
        count: usize,
    },
    /// The list would need more than 1,048,576 values.
    StoreFull,
    /// The range is none of the list, or is not one that can be changed so.
    BadRange {
        from: usize,
        to: usize,
    },
    /// The offset is past the list, or inside a leaf, or nothing can be put there.
    BadOffset {
        at: usize,
    },
    /// No content branch is innermost there.
    NotContent {
        at: usize,
    },
    /// The caret is at its branch's edge; or no content offset is there or on that side.
    Edge {
        at: usize,
    },
    /// No open node may hold what is put there.
    NoPlace {
        at: usize,
    },
    /// So many nodes cannot be split there.
    BadDepth {
        depth: usize,
    },
    /// The mark's tag marks no text, or one of its attributes has a reserved name.
    BadMark,
    /// The bracket that is to go does not stand there.
    NotWrapped {
        at: usize,
    },
    /// No content branch begins there, or the new kind is none.
    NotBranch {
        at: usize,
    },
    /// No element begins there.
    NotOpening {
        at: usize,
    },
    /// The attribute cannot be set there.
    BadAttr {
        at: usize,
    },
    /// The page has no such origin, or it is of an opening of another kind.
    BadOrigin {
        origin: usize,
    },
    /// The list has `has` items, and the operations need `needs`.
    BadLength {
        has: usize,
        needs: usize,
    },
    /// The item would not be allowed there.
    Unlawful {
        at: usize,
    },
    /// Nothing is unsent, and the site sent nothing since the page was opened.
    NothingToUndo,
    /// Nothing is unsent, and the site sent so many entries since the page was opened.
    AlreadyShared {
        sent: usize,
    },
    /// Nothing is undone.
    NothingToRedo,
    /// A submission of so many entries is not acknowledged yet.
    InFlight {
        entries: usize,
    },
    /// Nothing is unsent.
    NothingToSend,
    /// The site's queue is empty.
    NothingQueued,
    /// No table begins there.
    NotTable {
        at: usize,
    },
    /// The cell covers a position that an earlier cell covers, or passes the last row of its
    /// section.
    Crooked {
        at: usize,
    },
    /// The table has `rows` rows.
    BadRow {
        row: usize,
        rows: usize,
    },
    /// The grid has `columns` columns.
    BadColumn {
        column: usize,
        columns: usize,
    },
    /// A new row would have more than 1,000 columns to fill.
    TooWide {
        columns: usize,
    },
    /// The row has a gap left of the new column.
    Ragged {
        row: usize,
    },
    /// The cell begins in the row that is to go, and reaches further down.
    Spanned {
        at: usize,
    },
    /// The cell's span cannot grow.
    SpanFull {
        at: usize,
    },
    /// No list item begins there.
    NotListItem {
        at: usize,
    },
    /// No list item stands just before it.
    NoSibling {
        at: usize,
    },
    /// Its list stands in no list item.
    NotNested {
        at: usize,
    },
    /// The site has seen `seen` entries, and this is none of them.
    BadEntry {
        entry: usize,
        seen: usize,
    },
    /// Entry `by` took the entry back.
    TakenBack {
        entry: usize,
        by: usize,
    },
    /// A later entry conflicts with what takes the entry back. The ranges are theirs.
    RevokeConflict {
        later: (usize, usize),
        reversal: (usize, usize),
    },
}
