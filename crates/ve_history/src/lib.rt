//! The history of one editor: a stack of entries that were done, and a stack of parcels that were
//! undone. An undone entry is kept as a parcel, with its own values, since an undo may cut these
//! values off the store.
//!
//! Proved: both stacks are exact, and a push or a move succeeds within the spare room.
//!
//! It moves entries and parcels, and makes none: what an undo does to a list is not its matter.
//! Definitions: `Stacks` is the view of a history, `without_last` takes the top off the first
//! stack.
//!
//! Room is taken first: a push or a move succeeds where there is spare room, so a change can be
//! made and noted as one. Where nothing can be undone or redone, none is taken for that.
#![tactic(auto)]

mod history;

pub use history::History;
