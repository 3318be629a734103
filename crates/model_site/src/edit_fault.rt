// Why a transaction is not performed.
use thiserror::Error;

/// Why a transaction is not performed on a site's list. The causes come in this order; places count the items
/// before them. Nothing has changed then.
#[derive(Clone, Copy, Debug, PartialEq, Eq, Error)]
pub enum EditFault {
    /// The retained and removed lengths add up to `needs`, and the list has `has` items.
    #[error("the list has {has} items, and the transaction needs {needs}")]
    BadLength { has: usize, needs: usize },
    /// The item there, in the list as it is, is not the one that is to be removed.
    #[error("item {at} is not the one to be removed")]
    Mismatch { at: usize },
    /// An attribute of the item there, in the list as it is, cannot be changed so.
    #[error("the attribute of item {at} cannot be changed so")]
    BadAttr { at: usize },
    /// The item there, in the new list, would not be allowed; at the new list's length, the list would end too early.
    #[error("item {at} would not be allowed there")]
    Unlawful { at: usize },
    /// The item there, in the new list, would be nested over 100 deep.
    #[error("item {at} would be nested over 100 deep")]
    TooDeep { at: usize },
    /// The new list would have `count` items, over 4,194,304.
    #[error("the list would have {count} items")]
    TooManyItems { count: usize },
    /// The store would have over 1,048,576 values.
    #[error("the store would have too many values")]
    StoreFull,
    /// There is no memory for it.
    #[error("there is no memory for it")]
    Memory,
}
