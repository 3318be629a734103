// Why an edit of a list is refused.
use thiserror::Error;

/// Why an edit is refused. Places count the items before them.
#[derive(Clone, Copy, Debug, PartialEq, Eq, Error)]
pub enum BuildFault {
    /// Nothing can be put there: it is the list's end or past it, or inside a leaf.
    #[error("nothing can be put at {at}")]
    BadOffset { at: usize },
    /// No open node may hold what is put there, or it is content and blocks side by side.
    #[error("no node at {at} may hold it")]
    NoPlace { at: usize },
    /// No content branch is innermost there.
    #[error("{at} is not in content")]
    NotContent { at: usize },
    /// So many nodes cannot be split there.
    #[error("{depth} nodes cannot be split")]
    BadDepth { depth: usize },
    /// The range is not one that can be changed so.
    #[error("{from} to {to} is no range for it")]
    BadRange { from: usize, to: usize },
    /// The mark's tag marks no text, or one of its attributes has a reserved name.
    #[error("no such mark")]
    BadMark,
    /// The item would have more than 64 marks.
    #[error("item {at} has too many marks")]
    TooManyMarks { at: usize },
    /// The bracket that is to go does not stand there.
    #[error("item {at} is not wrapped so")]
    NotWrapped { at: usize },
    /// No content branch begins there, or the new kind is none.
    #[error("item {at} is no branch of content")]
    NotBranch { at: usize },
    /// No element begins there.
    #[error("item {at} opens no element")]
    NotOpening { at: usize },
    /// The attribute's name is reserved.
    #[error("the attribute of item {at} cannot be set")]
    BadAttr { at: usize },
    /// There is no memory for the transaction.
    #[error("there is no memory for it")]
    Memory,
}
