//! Sites that edit one page apart, and the server that orders their entries. Each event has its
//! result for a site, the committed entries and the queues between them. It knows no page text and
//! no script. There are definitions in specs/, and the types that they answer:
//!
//! - `Untold`: what a site has not told yet of how its list changed;
//! - `Replica`: a site's list with its store and selection, and what performing a transaction and
//!   taking one back makes of them;
//! - `Causes`, `Refused`: why a transaction is not performed, and why a site does not undo, redo or
//!   send;
//! - `Entries`: transactions that are one change, and how the store goes back with them;
//! - `Live`: what still counts of entries, and an entry taken back under it;
//! - `Site`: edits, undo, redo, sending, and taking a known entry back;
//! - `Joined`: entries joined one after the other over committed ones, up to the first conflict;
//! - `Take`: what a site makes of foreign entries and of an acknowledgement;
//! - `Made`: the transactions that an undo, a redo, a revoke and a take make;
//! - `Session`: the sites with their queues and the committed entries, and the server's turn;
//! - `Events`: what may happen in a session.
//!
//! Their laws are `model_site_law`'s.
//!
//! Edit, batch, typing and revoking are one thing: a list of transactions that is performed as one
//! entry, and travels by value.
//!
//! What a site tells of its list are patches, each over the list that those before it gave. An
//! attribute operation is one too, and so is each operation of a reversal. The list as it is opened is
//! the first patch.
//!
//! Undone entries survive sending, and a redo after it makes a new unsent entry. Any take forgets
//! them. A submission stays in flight with the number submitted, also where a take has dropped some
//! of it.
//!
//! A revoke names a committed entry that was seen; pending ones count among the later ones. Which
//! of two conflicts is named goes by the submitted transactions first, then by the committed ones.
#![tactic(auto)]

mod edit_fault;
mod patch;
mod served;
mod site_fault;
mod taken;

pub use edit_fault::EditFault;
pub use patch::{MAX_PATCHES, Patch};
pub use served::{Clash, Served};
pub use site_fault::{RedoFault, SendFault, UndoFault};
pub use taken::Taken;
