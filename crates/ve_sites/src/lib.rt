//! The sites of a page: a page under edit by several sites, with their queues and one server, in
//! one process. It is model_site's session, and each call is one turn of it.
//!
//! Proved: each call is the turn of the model's session that its name says. Where a call fails
//! nothing changes. An edit, an undo, a redo, a revoke and a take have bounds on their steps.
//!
//! The view of `Sites` is the model's session, beside the list that it was opened with (`Shared` in
//! specs/). `edit`, `attempt`, `select`, `tell`, `undo`, `redo` and `revoke` change one site and
//! nothing else; `told` gives what `tell` marks as told. `send` puts a submission behind those that
//! wait; `serve` is the server's turn and `take` a site's (`Turns`). Each makes of the session what
//! the model's event of its name does: that is a law, `turns_are_events` (`Laws`). The type keeps
//! the invariant of a session (`IsShared`), whose fields `Senders` reads. So each call asks only for
//! such a site, and for what that site asks. `FirstBack` serves a private function.
//!
//! `ends` says exactly how many items all transactions that a site knows leave as they were, at the
//! list's beginning and at its end: those of the committed entries that it has seen, and its own.
//!
//! It knows no page text and no script.
//!
//! A submission or a feed is taken off its queue only after it was served or taken; so a turn that
//! fails changes nothing.
#![tactic(auto)]

mod edits;
mod laws;
mod member;
mod queues;
mod sites;

pub use laws::turns_are_events;
pub use model_site::{
    EditFault, MAX_PATCHES, Patch, RedoFault, SendFault, Served, Taken, UndoFault,
};
pub use sites::Sites;
pub use ve_peer_undo::LiveFault;
pub use ve_site::Ends;
