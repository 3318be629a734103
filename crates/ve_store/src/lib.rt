//! The distinct values that items cite by their positions, looked up by their hash. It knows
//! values, and no items and no lists of items.
//!
//! Proved: values are distinct and found by position; a store is full exactly at the limit.
//!
//! - `Store` is the list of its values. `admit` and `intern` give a value's position, the first one
//!   where an equal value stands, and append it where it is new; `intern` takes none past
//!   `max_values`.
//! - `NewValues` are to follow a store of a given length (specs/Following.antt), so that an edit
//!   can cite values before the store takes them. `id_of` gives the first position in both
//!   together.
//! - `with_mark` and `without_mark` cite an item's marks with one more, or without one
//!   (specs/Marked.antt).
//! - specs/HashInput.antt is what a value is hashed by, and specs/Laws.antt shows that equal values
//!   have one hash.
//!
//! That a value is found without a walk over the store is how it is written, and no clause says it.
//!
//! `admit` may grow a store past 2^20 values; `intern` is then full for a value that is new. A hash
//! is taken of the texts in order, without their lengths, and of attributes by their digest, which a
//! long list keeps. That affects speed alone, since equal hashes are compared by value.
#![tactic(auto)]

mod fault;
mod hashed;
mod marks;
mod new_values;
mod store;

pub use fault::StoreFault;
pub use marks::{has_mark, same_mark, with_mark, without_mark};
pub use new_values::NewValues;
pub use store::Store;
