// Why a transaction does not apply to a list.
use thiserror::Error;

/// Why a transaction does not apply. Places count the items before them, in the list that it was to apply to.
#[derive(Clone, Copy, Debug, PartialEq, Eq, Error)]
pub enum TxFault {
    /// The retained and removed lengths add up to `needs`, and the list has `has` items.
    #[error("the list has {has} items, and the transaction needs {needs}")]
    BadLength { has: usize, needs: usize },
    /// The item there is not the one that is to be removed.
    #[error("item {at} is not the one to be removed")]
    Mismatch { at: usize },
    /// An attribute cannot be changed so there: the item is no element's opening, the attribute has another value, or its name is reserved.
    #[error("the attribute of item {at} cannot be changed so")]
    BadAttr { at: usize },
    /// There is no memory for the new list.
    #[error("there is no memory for it")]
    Memory,
}
