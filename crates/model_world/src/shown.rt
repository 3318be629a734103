// Lists that replies show: items by value, a tree in words, patches, and the cells of a grid.
use model_edit::GridCell;
use model_items::PlainItem;
use model_site::Patch;
use ve_base::ListOf;
use ve_kinds::Kind;

/// Items by value, in order.
pub type PlainList = ListOf<PlainItem>;

/// A word of a tree that is written out.
#[derive(Clone, Copy, Debug, PartialEq, Eq)]
pub enum TreeWord {
    /// A node begins.
    Begin(Kind),
    /// A text node of so many characters.
    Run(usize),
    /// The innermost open node ends.
    End,
}

/// A tree in words, in the order of the list; the root stands round it.
pub type TreeWords = ListOf<TreeWord>;

/// What changed in a list, one patch after the other.
pub type PatchList = ListOf<Patch>;

/// The cells of a grid, in the order of the list.
pub type GridCells = ListOf<GridCell>;
