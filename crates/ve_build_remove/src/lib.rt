//! The removal of a range of a page's list, as a transaction: `removal` gives the model's
//! transaction, or the model's refusal. It writes nothing, and knows no other builder.
//!
//! Two branches of content are joined where one ends in the range, the other begins in it, and no
//! other bracket of it is unmatched. Then the whole range goes, and the second branch ends with the
//! first one's kind. In every other range each item goes but for the unmatched brackets. A range
//! that holds a bracket of the internal list is refused.
//!
//! Its one file of definitions is `Joined` (a join as the code keeps it, and the edits of a
//! removal). A removal is defined in `model_edit`'s `Remove`, its refusal in `ve_edits`' `Refused`.
//! It has no law of its own: those of `model_edit_law` hold of the results by the clauses of
//! `removal`.
#![tactic(auto)]

mod join;
mod remove;

pub use remove::removal;
