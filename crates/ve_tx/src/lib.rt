//! Edits as values: transactions of retain, replace and attribute operations along a list of items
//! that cite a store. It doesn't choose edits: the crates above turn a user's command into a
//! transaction.
//!
//! Proved: but for want of memory, each call is the model's `apply`, `change`, `inverse` or
//! `filled`, or names exactly the first fault. A recited transaction is the same by value.
//!
//! - `Op`, `OpList` and `Transaction` make up an edit. A transaction is in normal form and keeps
//!   positions beside its operations (specs/Operation.antt, specs/Normal.antt); its meaning by
//!   value is model_change's.
//! - specs/Cites.antt says which values it cites, and specs/Applied.antt what it does to a list:
//!   whether it applies, the new list, the first fault, and the store after it.
//! - `Transaction::change` makes the splices of a `Change` (specs/Spliced.antt, specs/Changed.antt,
//!   specs/Making.antt), and `apply` carries them out. So performing costs as much as it changes,
//!   and nothing for what lies between.
//! - `inverse` (specs/Turned.antt), `filled` (specs/Filled.antt), `with_ends` (specs/Ends.antt) and
//!   `active_range` (specs/Range.antt) make other transactions of one, as the model does.
//! - `Entry` is transactions that are undone together (specs/Entry.antt). `Parcel` is an entry over
//!   its own values, to be sent (specs/Parcel.antt); `recite` is the way back into a store
//!   (specs/Taken.antt). `Draft` is a transaction with values that no store has yet.
//! - `Names` notes names, each once, so that many are told apart by few comparisons
//!   (specs/Noted.antt). `Lookup` finds the attributes of a list by name as fast, and `Search` does
//!   so where many are looked for (specs/Looked.antt, specs/Searched.antt).
//!
//! The laws are clauses of these calls: `undone` of `inverse`, `restorable` of `filled`, `applied`
//! of `apply`. The tests stand in ve_tx_samples.
//!
//! A transaction is checked in three passes over the old list alone: lengths, removed items,
//! attributes. Want of memory stops none of them, so it is answered only where there is no fault.
//!
//! A few operations change the attributes of an opening in a list (specs/Changing.antt). Where there
//! are many, each attribute has a slot, which a map of the names finds, and the slots' numbers stand
//! in an order of small chunks (specs/Many.antt, specs/Order.antt). So none is moved by another.
//!
//! Performing puts only the final head of each changed opening into the store. A parcel's values
//! are the cited ones in the order of first citation, removed items before inserted ones; in one
//! item head, marks, whitespace.
//!
//! Kept positions stand beside the operations, in a list that may be shorter: an operation without
//! one beside it keeps none. A transaction is recited over another store whole, and the store takes
//! in the values of removed items, too.
#![tactic(auto)]

mod attributes;
mod change;
mod changing;
mod check;
mod copies;
mod draft;
mod ends;
mod entry;
mod filled;
mod gathered;
mod inverse;
mod kept;
mod lookup;
mod making;
mod many;
mod names;
mod normal;
mod op;
mod order;
mod parcel;
mod range;
mod splice;
mod taken;
mod transaction;

pub use attributes::{attrs_of, is_reserved};
pub use change::Change;
pub use draft::Draft;
pub use entry::{Entry, EntryList};
pub use lookup::{Lookup, Search, attrs_at};
pub use making::copy_range;
pub use model_change::TxFault;
pub use names::Names;
pub use normal::same_text;
pub use op::{Op, OpList};
pub use parcel::{Parcel, ParcelList, ValueList};
pub use splice::Splice;
pub use transaction::{Transaction, TxList};
