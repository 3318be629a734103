//! Pages over the limits on nesting and marks, and where they are over them. It has laws alone:
//! what they speak of is `model_page`'s. Definitions stand in specs/, in this order:
//!
//! - `Counted`: how many kinds are open at each opening, and where the elements begin that mark
//!   each item ([`counts_are_of_items`]);
//! - `First`: the first thing over a limit in the order of bytes: a page is refused there, and only
//!   where there is one ([`over_limit_is_first`]);
//! - `Items`: the first item of a list that is over a limit: a page is over that limit, and where
//!   there is none over no limit ([`limits_are_of_items`]).
//!
//! It speaks of pages and fragments that are UTF-8, as are those that lines give.
//!
//! That a fragment over its limit has an item with over 64 marks asks that it is UTF-8: 65 `<b>`
//! round the byte 195 alone make no item.
#![tactic(auto)]

mod laws;

pub use laws::{counts_are_of_items, limits_are_of_items, over_limit_is_first};
