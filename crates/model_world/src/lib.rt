//! The plain machine: what a line of a script asks, what it is answered, and the world that the
//! lines change. It knows every command and reply of the script, and no code that answers them.
//! What a page, an edit or a site is it takes from the layers below. There are definitions in
//! specs/, and the types that they speak of:
//!
//! - `Values`, `Attributes`, `ItemWords`, `Operations`: what a JSON value is read as;
//! - `Members`, `Changes`, `Commands`: the command that a line is, or the first member that is
//!   missing or ill-formed;
//! - `Names`, `Shown`, `Spelled`: the words of a script, items and tables as JSON, and the text of
//!   a reply;
//! - `Edits`: the transaction that a change is, and batches;
//! - `Refusals`: the refusal that each fault is answered by;
//! - `Opening`, `Answers`: a page opened, and what a site's request is answered;
//! - `World`: the world, the reply to a line, and the plain machine's `meaning`, which counts no
//!   steps;
//! - `Cost`: how many steps a line may take, by the model's trees and transactions alone.
//!
//! The laws, each the contract of a function that does nothing: refusals change nothing
//! ([`refusals_change_nothing`]), and a batch is whole or nothing ([`batches_are_whole`]). What
//! holds of every world is `model_world_law`'s.
//!
//! A line that isn't UTF-8 is `bad_json`. `null` is not an absent member. A `site` inside a batch
//! isn't read. Beside `close` only `pre` is read. `[text, []]` is a text without marks. Only U+000A
//! ends a line.
//!
//! After `type` the caret is just after the last typed character, also where the text came to stand
//! in a new paragraph. Want of memory is no cause: the types of causes have none. An operation that
//! a line writes keeps no position of an attribute that it removes: it is found when the change is
//! performed.
#![tactic(auto)]

mod command;
mod edit_command;
mod field;
mod laws;
mod names;
mod refusal;
mod reply;
mod shown;

pub use command::{Command, Request};
pub use edit_command::{EditCommand, EditCommandList, OpWordList, OpWords, TextMarks};
pub use field::Field;
pub use laws::{batches_are_whole, refusals_change_nothing};
pub use names::{class_name, field_name, html_word, kind_name};
pub use refusal::{HtmlWord, Refusal};
pub use reply::Reply;
pub use shown::{GridCells, PatchList, PlainList, TreeWord, TreeWords};
