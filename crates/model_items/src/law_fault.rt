// The first place at which a list of items breaks a rule.
use thiserror::Error;

/// The first item that is not allowed where it stands. `at` counts the items before it; at the list's end it is the length.
#[derive(Clone, Copy, Debug, PartialEq, Eq, Error)]
pub enum LawFault {
    /// The item is not allowed there, or the list ends too early.
    #[error("item {at} is not allowed there")]
    Unlawful { at: usize },
    /// The item would be allowed, but 100 nodes are open.
    #[error("item {at} would be nested over 100 deep")]
    TooDeep { at: usize },
}
