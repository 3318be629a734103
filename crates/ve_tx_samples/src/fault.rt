// Why a line gives no transaction.
use thiserror::Error;
use ve_base::Memory;

/// Why a line gives no transaction.
#[derive(Clone, Copy, Debug, PartialEq, Eq, Error)]
pub enum LineFault {
    /// The operations of the line are not in normal form.
    #[error("the operations are not in normal form")]
    NotNormal,
    /// There is no memory for it.
    #[error("there is no memory for it")]
    Memory,
}

impl From<Memory> for LineFault {
    fn from(_: Memory) -> Self {
        LineFault::Memory
    }
}
