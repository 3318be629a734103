//! Laws of the items that changes retain and insert, which no definition of `model_change` needs.
//! It defines no change. There are definitions in specs/:
//!
//! - `Retained`: what becomes of an item that a transaction retains;
//! - `Inserted`: what transactions insert once they are joined;
//! - `Told`: what the tree of a list tells of its items, and what therefore leaves the tree as it
//!   is.
//!
//! The laws stand in `laws`: each public function there does nothing, and its contract is a law
//! that is proved.
#![tactic(auto)]

mod laws;

pub use laws::{joins_insert_the_same, retained_items_are_kept, trees_tell_shapes};
