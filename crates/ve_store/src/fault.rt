// Why a store does not take a value.
use thiserror::Error;

/// Why a store did not take a value.
#[derive(Clone, Copy, Debug, PartialEq, Eq, Error)]
pub enum StoreFault {
    /// It holds 1,048,576 values, and this one isn't among them.
    #[error("the store is full")]
    Full,
    /// There is no memory for the value.
    #[error("out of memory")]
    Memory,
}
