// The changes of a page that a line can ask for.
use crate::PlainList;
use model_edit::WrapPlan;
use ve_base::{ListOf, Mark, Text};
use ve_kinds::Kind;

/// Which marks typed characters get.
#[derive(Clone, Copy, Debug, PartialEq, Eq)]
pub enum TextMarks {
    /// Those of the character or the inline leaf to the left.
    Left,
    /// None.
    Plain,
}

/// An operation as it is written. The items that it removes, and the old value of an attribute, are
/// the list's.
#[derive(Drop)]
pub enum OpWords {
    /// Passes so many items.
    Retain(usize),
    /// Puts items in the place of the next `count` ones.
    Remove { count: usize, insert: PlainList },
    /// Sets an attribute of the next item, or removes it.
    Attr { name: Text, to: Option<Text> },
}

/// Operations, in order.
pub type OpWordList = ListOf<OpWords>;

/// A change of the page: what a batch may hold. Offsets, positions and ranges count items.
#[derive(Drop)]
pub enum EditCommand {
    /// `text`: types characters, at least one.
    Text {
        at: usize,
        text: Text,
        marks: TextMarks,
    },
    /// `insert`: puts in what a fragment of a page stands for. Its text is not empty.
    Insert {
        at: usize,
        html: Text,
    },
    /// `remove`: takes a range out.
    Remove {
        from: usize,
        to: usize,
    },
    /// `split`: splits the innermost `depth` nodes.
    Split {
        at: usize,
        depth: usize,
    },
    /// `mark`: puts a mark on the characters and inline leaves of a range.
    Mark {
        from: usize,
        to: usize,
        mark: Mark,
    },
    /// `unmark`: takes it off them.
    Unmark {
        from: usize,
        to: usize,
        mark: Mark,
    },
    /// `wrap`: changes which nodes stand round a range of siblings and round each of them.
    Wrap {
        from: usize,
        to: usize,
        plan: WrapPlan,
    },
    /// `convert`: gives a content branch another kind.
    Convert {
        at: usize,
        kind: Kind,
    },
    /// `attr`: sets an attribute, or removes it.
    Attr {
        at: usize,
        name: Text,
        to: Option<Text>,
    },
    /// `apply`: a transaction, its operations in normal form.
    Apply {
        ops: OpWordList,
    },
    /// An `apply` with an origin that the page doesn't have, or has of another kind. No line is read
    /// as this; it is refused.
    NoOrigin {
        origin: usize,
    },
}

/// Changes, to be made in turn.
pub type EditCommandList = ListOf<EditCommand>;
