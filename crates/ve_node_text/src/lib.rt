//! The text of single items of a page: characters, whitespace, the tags of marks where they change,
//! and the tags of an element. Also leaves, references with their composed `data-mw` among them. It
//! reads the values that an item cites, and knows no list: which text comes next is its caller's
//! matter. An `Err` is want of memory, and may leave a part appended.
//!
//! Proved: the text of characters, of marks where they change, of tags and of leaves is the
//! model's, byte for byte.
//!
//! The meaning of each call is in `Written` of model_page_write: `letter`, `marks_changed`,
//! `start_tag`, `end_tag`, `leaf_text`. Of a leaf it is said by `leaf_of` in `Leaves` of specs/,
//! which names the text of a carried body in place of the body. It is the model's by the law
//! `leaves_are_written`.
//!
//! Bytes that were UTF-8 still are after each call that succeeds (clause `utf8`). It is no law of
//! the model, where a character is any number.
#![tactic(auto)]

mod cited;
mod laws;
mod leaves;
mod letters;
mod marking;
mod reference;
mod tags;

pub use cited::{head_of, marks_of, white_of};
pub use laws::leaves_are_written;
pub use leaves::put_leaf;
pub use letters::put_letter;
pub use marking::change_marks;
pub use tags::{put_end_tag, put_start_tag};
