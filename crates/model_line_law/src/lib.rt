//! The texts of a line, for every line that is UTF-8. It defines no command: those are
//! `model_world`'s, and how a text of JSON is read is `json`'s. There are definitions in specs/:
//!
//! - `Texts`: every string of a line that is read is UTF-8 itself, since it is cut at ASCII bytes,
//!   and its escapes spell characters;
//! - `Pages`: so is the page of every world that lines lead to, and what is said of UTF-8 pages
//!   holds of it.
//!
//! The laws stand in `laws`: each public function there does nothing, and its contract is a law
//! that is proved.
#![tactic(auto)]

mod laws;

pub use laws::{opened_pages_are_utf8, pages_of_lines_stand, texts_of_lines_are_utf8};
