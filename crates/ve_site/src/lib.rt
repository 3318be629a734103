//! A site: its editor, the entries that it sent and has no answer for, those that it has not sent,
//! and those that it undid. Each call is the model's, but for want of memory: `edit`, `attempt`,
//! `settle`, `undo`, `redo`, `adopt`, `send`, `take`, `select` and `tell` make of a site what model_site
//! says, or refuse it exactly where that does. `pending` gives its pending entries serialised, with
//! what they take back, and `told` what changed in its list since `tell`, as patches. `ends` says how
//! many items its pending entries leave as they were, at a list's beginning and at its end: the least
//! that one of their transactions leaves there. `ends_under` says it of others (specs/Ends.antt).
//!
//! Proved: but for want of memory, each call is the model's, or is refused as it is. Where a call
//! fails nothing changes. An edit, an undo, a redo, an adoption and a take have bounds on their
//! steps.
//!
//! The view of a site is its number beside the model's site (specs/Numbered.antt), and the type
//! keeps the invariant of one (specs/Ground.antt). So of the site these calls ask two things alone:
//! what it takes has to run from its confirmed list (the ground), and what it adopts on its list.
//! specs/Refusal.antt says how a refusal is told. The steps of a call are bounded by what it performs,
//! which is `Made` of model_site; specs/Taking.antt says how many a take counts. specs/Attempted.antt
//! says what an attempt makes of a site, and specs/Settled.antt defines the changed copy that a site
//! takes. Three files serve private functions:
//! specs/Dropped.antt (pending entries taken back), specs/Underway.antt (a site while it takes
//! entries) and specs/Patches.antt (what operations change).
//!
//! Laws: `takes_are_bounded` (specs/Laws.antt) says what a take counts in plain words, and when it
//! joins no transaction that is too long. `settling_performs` (specs/Settled.antt) says that a site
//! which takes a changed copy of its editor has the changes as a new entry.
//!
//! It knows neither the server nor other sites.
//!
//! The type keeps the invariant on the site's confirmed list: its list with its pending entries
//! taken back. Neither the opened page nor a committed entry is kept for that.
//!
//! A take never copies the page. One entry that makes one transaction is taken at once. All others
//! are taken on a trial of the page, which goes back without memory where memory is wanting, so no
//! part of a take stays done then. What is copied for a trial are the pending entries and what is
//! untold. Entries that are in conflict with no pending one are taken as one run, for which the
//! pending ones are written once. The steps of a take are counted by definition, so one that copied
//! the page wouldn't meet the bound.
//!
//! What it has not told is noted while it changes, in memory that is taken when it begins. So no
//! call fails for want of it, and a call that fails notes nothing: the notes are made last.
#![tactic(auto)]

mod ends;
mod laws;
mod pending;
mod sent;
mod site;
mod take;
mod taking;
mod untold;

pub use ends::{Ends, ends_under};
pub use laws::{settling_performs, takes_are_bounded};
pub use model_site::{EditFault, MAX_PATCHES, Patch, RedoFault, SendFault, Taken, UndoFault};
pub use site::Site;
