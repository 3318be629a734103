//! The `data-mw` of references, and the table of the references of a list. It knows JSON as
//! `serde_json` reads it, and no page.
//!
//! Proved: but for want of memory, a `data-mw` is read exactly where it is editable, and its text
//! with another body is the model's. So is the table of the references of a list.
//!
//! - `reference_of` gives group, name and body of a `data-mw` that is editable, as model_page's
//!   `reference_of` says; `RefRead` holds them as texts (`Read` in specs/).
//! - `compose` gives an editable `data-mw` with another body, or without one: model_page's
//!   `composed_mw`. Its members stand in the order of their names, and no number of it is a float,
//!   so its text is settled.
//! - `table` gives a row for each reference of a list, in order: which body it names, whether it
//!   carries it, and its number. Keys are found by their hashes and borrowed from the store
//!   (`Keys`). `Noted` serves private functions.
//!
//! There are no laws here. Those of model_page_law speak of readings and of composed texts
//! (`references_are_editable`, `composed_reads_back`), and none of the table.
//!
//! A reference's number past those of a `u32` is want of memory. No list within the limits comes
//! near, so the table asks for no bound.
#![tactic(auto)]

mod composed;
mod floats;
mod key;
mod members;
mod notes;
mod reference;
mod rows;

pub use composed::compose;
pub use reference::{RefRead, reference_of};
pub use rows::table;
