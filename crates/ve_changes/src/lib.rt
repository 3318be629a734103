//! The changes that a line makes on the page, one or several together. It reads no line, and knows
//! no site. It knows which builder makes each change, and which refusal each fault is.
//!
//! Proved: but for want of memory, each change, and each move of a row, a column or a list item, is
//! the draft that the model says, over the page's store and with just the values that the store
//! takes. Else it is the model's refusal. For a change, memory is wanting only where `MayWantDraft`
//! of `Drafts` says so: mostly where the model refuses nothing. Changes made in turn are the
//! model's transactions and one entry, or the first refusal with its number. They take no more
//! steps than the `Cost` of model_world says.
//!
//! - `change_draft` gives the draft of a change over a page's store, or the refusal that answers
//!   it. `move_draft` gives the draft of a row, a column or a list item that is moved. Each calls
//!   one builder and names its fault (`Stops`, `HtmlStops`, `Drafts`, `Moves` in specs/). Nothing
//!   is performed.
//! - `completed` gives a change with what it takes from the page as it was first read: model_world's
//!   `completed`. `FirstItems` lends that page, and a row says where the opening of an origin stands
//!   (`Completions`). A change that takes nothing from there is moved.
//! - `may_select`, `next_place` and `erased_range` say what may be selected, where a caret goes and
//!   which range is erased (`Carets`). They read the page alone.
//! - `Batch` is an attempt at changes in turn, each on the result of those before it, as one entry:
//!   the model's `batch_on`. Where one is refused its number is told (`Batches`), and whoever makes
//!   the attempt takes back those before it.
//! - `Typing` is an attempt at typing, and tells where the caret stands after the text;
//!   `after_inserted` tells that of one transaction (`TypedCarets`).
//!
//! The meaning of a change stands in model_world's `Edits`, the next position of a caret in its
//! `Answers`. Laws: a move is answered by performing the transaction that `Moves` defines
//! (`moves_are_asked`), and so carets (`carets_are_asked`). That a batch is whole or nothing is a
//! law of model_world.
//!
//! A text typed at a caret is one change. Over a selection it is two, and an attempt, as every
//! batch is: both are one entry or none.
#![tactic(auto)]

mod applied;
mod batch;
mod batch_stop;
mod built;
mod caret;
mod carets;
mod cited;
mod completion;
mod drafts;
mod faults;
mod first;
mod html_faults;
mod laws;
mod moves;
mod pasted;
mod typed;

pub use batch::Batch;
pub use batch_stop::BatchStop;
pub use caret::after_inserted;
pub use carets::{carets_are_asked, erased_range, may_select, next_place};
pub use completion::{all_completed, completed};
pub use drafts::change_draft;
pub use faults::ChangeStop;
pub use first::FirstItems;
pub use laws::moves_are_asked;
pub use model_world::{EditCommand, Refusal, Request};
pub use moves::{is_move, move_draft};
pub use typed::Typing;
