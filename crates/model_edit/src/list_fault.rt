// Why a list item is not moved.
use thiserror::Error;

/// Why a list item is not moved deeper or out. Places count the items before them.
#[derive(Clone, Copy, Debug, PartialEq, Eq, Error)]
pub enum ListFault {
    /// No list item begins there.
    #[error("item {at} opens no list item")]
    NotListItem { at: usize },
    /// No list item stands just before it.
    #[error("no list item stands before {at}")]
    NoSibling { at: usize },
    /// Its list stands in no list item.
    #[error("the list of {at} stands in no list item")]
    NotNested { at: usize },
    /// There is no memory for the transaction.
    #[error("there is no memory for it")]
    Memory,
}
