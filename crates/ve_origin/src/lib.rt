//! Origins: the parts of the page that was first read, and which nodes of a list are still as they
//! were read. It knows neither trees nor stores, and writes nothing.
//!
//! Proved: a node whose range is given, before the internal list and over distinct values, is kept
//! exactly where the model keeps it. The page's own parts are the model's.
//!
//! - `OriginTable` has a row for each origin: its bytes of the page, and the positions of its node
//!   in the list that was first read. `Origins` borrows the page, that table, that list and the
//!   table of its references together (specs/Origins.antt).
//! - `Origins::head` and `tail` are the page before and after its body, and `part` is
//!   model_page_write's `part_at`. `count` says how many items the node of an origin had.
//! - `Origins::kept` is model_page_write's `is_kept` (specs/Kept.antt: the node at a position, and
//!   the conditions on the row of an origin). The positions of values are compared in place of
//!   values, so its clause holds over every list of distinct values. Rows.antt and Bodies.antt in
//!   specs/ say by which rows and items it is found; Agree.antt and Without.antt serve private
//!   functions.
//! - `Origins::compared` notes in a `Known` how far a node and its origin's are alike, and
//!   `kept_after` is `kept` that compares none of that again (specs/Known.antt). Nodes in nodes are
//!   so compared once. `is_known` says whether all items of a node are known to be alike.
//! - `Origins::is_first_after` tells whether a whole list is the one that was first read, and
//!   compares nothing that is known.
//!
//! No call takes memory but `OriginTable::push` and `copy`. There are no laws here: that the node of
//! each origin stands at its range, before the internal list, is for whoever reads a page to keep.
#![tactic(auto)]

mod bodies;
mod carried;
mod compare;
mod known;
mod node;
mod origin;

pub use known::{Known, Run};
pub use origin::{OriginRow, OriginTable, Origins};
