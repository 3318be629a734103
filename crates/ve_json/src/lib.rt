//! Commands read from a script's lines, and replies serialised. It knows nothing of pages, and
//! doesn't say when a reply is given. The meaning of both stands in model_world: `Commands`, and
//! `Spelled`.
//!
//! Proved: but for want of memory, a line is read as the model's command, or as its refusal. The
//! text of every answer, with its newline, is the model's text of the reply, where the items that
//! it borrows cite values of their store; or nothing changes.
//!
//! - `command` reads a line: each command's members, as JSON has them. A well-formed command may
//!   still be refused by the page or the site. `Gives` in specs/: a reader gives the model's value,
//!   or for want of memory nothing of it. `CommandWords`: the commands by their words, and the
//!   readers of each one's members. `Begun`: how much of `mw:` a word has so far.
//! - `reply_text` appends a reply to a buffer: words and numbers, and the JSON of texts, items,
//!   references and cells. Items are borrowed from the page, and serialised in one pass.
//!   `Spelling`: a text that is being written into a buffer. `Pieces`: characters that stand for
//!   themselves in a JSON string. `ReplyWords`: words with their numbers. `ReplyMembers`: the
//!   members of an object. `Runs`: the characters of one list of marks. `Answers`: the reply that
//!   an answer is.
//!
//! A command's texts are copied out of its line once; the page of `open` alone is taken out of the
//! line's value.
#![tactic(auto)]

mod answer;
mod attributes;
mod brackets;
mod change_members;
mod changes;
mod command_words;
mod fault;
mod held;
mod item_members;
mod item_replies;
mod json_list;
mod line;
mod members;
mod operations;
mod provenance;
mod quoted;
mod refusals;
mod reply_words;
mod requests;
mod shown;
mod spelling;
mod tree_rows;
mod values;

pub use answer::{Answer, reply_text};
pub use fault::CommandFault;
pub use line::command;
pub use model_world::{Command, EditCommand, Field, Refusal, Request};
