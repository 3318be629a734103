//! A page's text as items: which of its nodes and texts become which items, where their sources
//! stand, and which elements are references. There are definitions in specs/, and the table of
//! references that they speak of:
//!
//! - `Tags`, `Elements`, `Parts`: what tags and attributes say, and the forest of a page with its
//!   groups formed;
//! - `DataMw`, `References`, `Editable`: what a `data-mw` says of a reference, which reference of a
//!   list carries which body, and lists whose references can be written;
//! - `Fit`, `Heads`, `Pieces`, `ReferenceNodes`, `Convert`: what each part becomes;
//! - `PageItems`, `Fragment`, `Limits`, `OpenPage`: the items of a page and of an inserted
//!   fragment, what is over the limits, and why a page does not open.
//!
//! How items are written is `model_page_write`'s. The laws of both are `model_page_law`'s: a page
//! that is opened and written is itself, and fresh text is read back.
//!
//! Numbers in `data-mw` are judged on what `serde_json` reads; a number that a later member of the
//! same name replaces isn't judged. Numbers of nameless owners count over all groups.
//!
//! Too deep in a body counts the internal list and its item, and a leaf counts as a kind. Too many
//! marks names the start of the 65th annotation.
//!
//! A whitespace character with marks counts as content; an annotation is never whitespace.
#![tactic(auto)]

mod ref_table;

pub use ref_table::{RefRow, RefTable};
