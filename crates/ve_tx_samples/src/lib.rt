//! Transactions for tests, each written in one line: `transaction(alloc, "1 -ab+c 3")` passes one
//! item, puts the letter `c` in place of `a` and `b`, and passes three. For tests alone: no crate's
//! other code calls it.
//!
//! The words of a line are its operations, with spaces between them:
//! - a number is a retain, and a word that is no number retains nothing;
//! - `-ab`, `+c` and `-ab+c` are replaces, and their items are written as those of `ve_samples`;
//! - `id:x>y` sets the attribute `id` from `x` to `y`; nothing before `>` or after it means that
//!   there is no attribute.
//!
//! No position is kept, and no item cites a value (specs/NoValues.antt), so a test may apply such a
//! transaction over any store. The contracts say no more: what a line spells is read off.
//!
//! `page` is a page to apply it to. `spells` tells whether a transaction has the operations of a
//! line, and `page_line` is the line of a page, with the attributes of its elements, as `<p
//! id="x">ab</p>`.
#![tactic(auto)]

mod fault;
mod line;
mod pages;

pub use fault::LineFault;
pub use line::{ops, spells, transaction};
pub use pages::{page, page_line};
