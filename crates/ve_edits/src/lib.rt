//! The base of all builders of edits. Edits of a page's list at rising positions are collected into
//! the one transaction that they are; an opening is copied, and new values may take the copy's
//! head. Builders also find here the other bracket of a node, the nodes that are open at an offset,
//! the value of an attribute, and whether a range may be edited.
//!
//! Proved: but for want of memory, edits at rising positions, set attributes among them, are the
//! model's one transaction. An opening's copy, partners, open nodes and bad ranges are the model's.
//!
//! It gives transactions and writes nothing. A page is borrowed as a `Doc`: brackets are found by
//! the tree, and a range by its items. It doesn't know which edits a user's command is; that is
//! what the crates above it say.
//!
//! Definitions, in reading order: `Collected` (edits as they are collected, `Makes`), `Round` (the
//! innermost open node at an offset), `Filled` (how the values that follow a store grow), `Refused`
//! (how a builder refuses). The transaction of some edits, a copy and the refusals are defined in
//! `model_edit`; partners and open nodes are `model_items`'s. Law: `values_may_grow` (collected
//! edits are the same over a longer list of values, so values may be put in between two edits).
//!
//! Edits whose operations add up to more than 2^60 items are answered as want of memory.
#![tactic(auto)]

mod attributes;
mod brackets;
mod copies;
mod edits;
mod laws;
mod openings;
mod spans;

pub use attributes::present_value;
pub use brackets::{is_unmatched, opening_round, partner, range_round, same_kind};
pub use copies::{cite_attrs, copy_of};
pub use edits::Edits;
pub use laws::values_may_grow;
pub use openings::openings_round;
pub use spans::{has_internal, is_bad_span, is_content_item, is_internal, is_internal_item};
