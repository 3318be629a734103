// The members of a command.

/// A member of a command. Its name in a line is the same in small letters, with `_` between words.
#[derive(Clone, Copy, Debug, PartialEq, Eq)]
pub enum Field {
    /// Which command it is.
    Do,
    /// The text of a page.
    Page,
    /// How many sites edit the page.
    Sites,
    /// Which of them is asked, from 0.
    Site,
    /// Where a range begins.
    From,
    /// Where a range ends; or the new value of an attribute.
    To,
    /// An offset, or the position of an item.
    At,
    /// Characters.
    Text,
    /// Which marks typed characters get.
    Marks,
    /// The text of a fragment.
    Html,
    /// How many nodes are split.
    Depth,
    /// The tag of a mark.
    Tag,
    /// The attributes of a mark.
    Attrs,
    /// The nodes to be taken off a range.
    UnwrapOuter,
    /// Those to be put round it.
    WrapOuter,
    /// The nodes to be taken off each sibling of a range.
    UnwrapEach,
    /// Those to be put round each.
    WrapEach,
    /// A kind of nodes.
    Kind,
    /// The name of an attribute.
    Name,
    /// Whether items stand for those that were first read.
    Exact,
    /// The operations of a transaction.
    Ops,
    /// The changes of a batch.
    Cmds,
    /// Where a selection began.
    Anchor,
    /// The end of a selection that moves.
    Focus,
    /// Which way a caret goes.
    Dir,
    /// How far it goes.
    By,
    /// Whether the anchor stays.
    Keep,
    /// A row of a table, from 0.
    Row,
    /// A column of a table, from 0.
    Column,
    /// The number of a committed entry, from 0.
    Entry,
    /// Whether an entry is taken back under those alone that still count.
    Live,
}
