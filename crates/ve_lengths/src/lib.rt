//! Lengths in their order, such as those of blocks or of gaps: which of them holds a position, and
//! where each one starts.
//!
//! Proved: a search finds the length that holds a position, and how far it lies from that length's
//! start.
//!
//! It knows numbers alone, not what they measure. A length may be 0; their sum fits a `usize`.
//! Beside each group of 16 lengths stands the sum of those before it. So a position is found by the
//! starts of the groups and the lengths of one group. A length that changes moves the starts of the
//! groups after it; where one comes or goes, one length of each of these groups is read.
//!
//! Definitions: `LengthRow` is the view of the lengths, `Finds` the result of a search, and
//! `AreStarts` the starts beside the groups. Law: a search has one answer.
#![tactic(auto)]

mod laws;
mod lengths;
mod reckon;

pub use laws::one_is_found;
pub use lengths::Lengths;
