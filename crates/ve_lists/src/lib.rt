//! Moves of a list item one list deeper or one list out, as transactions: `indent` and `outdent`
//! give the model's transaction, or the model's refusal. They write nothing, and know no other
//! builder.
//!
//! An indented item joins the list that ends the item before it, or a new list there. An outdented
//! item follows the item that its list stands in. The rest of its list becomes a list of its own,
//! which begins with a copy of the list's opening. `outdent` puts the head of that copy into the
//! values that are to follow the store.
//!
//! Definitions: `Moved` in specs/ (the edits of both, and how a move is refused). A move is defined
//! in `model_edit`'s `Lists`; how values are filled, in `ve_edits`' `Filled`. It has no law of its
//! own: those of `model_edit_law` hold of the results by the clauses.
#![tactic(auto)]

mod brackets;
mod deeper;
mod outward;

pub use deeper::indent;
pub use outward::outdent;
