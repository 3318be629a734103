//! The flat list of a page: characters, openings and closings, one item each, kept in blocks. It
//! knows items as values in an order, and nothing of their meaning: no bracket, no kind, no law of
//! lists.
//!
//! Proved: `splice` is list substitution, or changes nothing; within `spare` it succeeds.
//!
//! Each contract relates the plain list before the call to that after it. It also tells `spare`,
//! the reserved capacity: how many items splices together may still put in without memory. So a
//! change in several positions can be whole or not at all. Only borrowed blocks show how the items
//! lie in them.
//!
//! Definitions, in reading order: `ItemList` is the view of a list, and `spliced` the result of a
//! splice. `AreBlocks` is the rule of the blocks; `StandsAt`, `MayChange` and `MayPart` are
//! positions in them. `items_of` is where a block's items stand. `Pile` is the view of tables and
//! stacks of blocks, `IsReady` the capacity that a list keeps beside its blocks. The sizes 512 and
//! 448 of a block are `MAX_BLOCK` and `FILLED_BLOCK` of ve_base.
//!
//! `spare` falls by as many items as a splice puts in, so several splices follow one `reserve`. A
//! splice that inserts nothing always succeeds.
//!
//! `reserve(n)` takes two blocks for each of n items, but no more than n items can ever need: two
//! neighbours hold more than 512 together. Blocks that get empty wait for later splices. A copy has
//! equal items and no spare room. So has a list that shares its blocks with another: whoever writes
//! into one first copies it, into memory that `share` took, so that no splice asks for more. A
//! list's length with its spare room stays below 2^64; `reserve` answers want of memory beyond it.
#![tactic(auto)]

mod block;
mod edit;
mod items;
mod linear;
mod moves;
mod places;
mod room;
mod same;
mod stack;
mod table;

pub use items::Items;
pub use linear::Linear;
pub use model_items::Item;
pub use same::same_item;
