//! A generated script, made from a number: it opens a page of 200 paragraphs, makes edits at random
//! positions, and asks for the page. The same number and count of edits give the same bytes.
//!
//! Proved: the script, line by line and whole, is that of its definition.
//!
//! [`Lines`] gives it line by line, into a buffer that is borrowed for each line, and [`script`]
//! whole. The script is defined in specs/Generated.antt, in reading order: draws, the page, the
//! lines. That its lines are lines, and how many there are, are laws (specs/Laws.antt).
//!
//! There is nothing between the 200 paragraphs. A position is one more than a draw's remainder by
//! 4,000, drawn for an `undo` too. Each edit takes two draws, a removal three.
#![tactic(auto)]

mod edits;
mod laws;
mod lines;
mod opening;
mod whole;

pub use laws::{script_has_its_lines, script_has_two_lines_more};
pub use lines::Lines;
pub use whole::script;
