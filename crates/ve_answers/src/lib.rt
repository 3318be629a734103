//! Answers of a page and one of its sites to the requests that change nothing: `html`, `data`,
//! `tree`, `at`, `near`, `refs`, `caret` and `grid`. Each is the model's. It knows nothing of lines, of
//! sessions and of who asks.
//!
//! It knows a page as a `Doc`, its list, tree and values, borrowed together, and what is left of
//! the page that was first read. Each call gives the answer that `ve_json` serialises. Items are
//! borrowed, and no list is copied. In reading order:
//!
//! - `Replies`: the replies, over items by value;
//! - `Asked`: that the replies are what `model_world`'s `asked` answers, session and all
//!   ([`replies_are_as_asked`]);
//! - for private functions `Words` (how the words of a tree are read off its items) and `Faults`
//!   (which refusal a table's fault is).
#![tactic(auto)]

mod laws;
mod page;
mod parts;
mod place;
mod table;
mod words;

pub use laws::replies_are_as_asked;
pub use page::html;
pub use parts::{caret, items, refs};
pub use place::{near, node};
pub use table::grid;
pub use words::tree;
