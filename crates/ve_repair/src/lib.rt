//! The repair of a linked tree: it becomes that of the list which a transaction gives, before the
//! list itself is changed. It takes as few writes as the change asks for: at most eight for each
//! node that it touches, and sixteen more. Nodes that stay keep their numbers. At want of memory
//! the tree is as before.
//!
//! `check_change` tells whether the new list is lawful, or its first offence. `relink` makes the
//! tree of a new list that is known to be lawful, and `repair` does one and then the other.
//!
//! How it is done: `range` finds the operations from the first replace to the last. `start` finds
//! which nodes are open where they begin, the range widened to whole texts. `read` goes along the
//! old nodes (`cursor`) and the operations at once and notes which nodes stay, go and come
//! (`script`); those that come are made. `plan` and `close` say by the script which links are to be
//! written, `sizes` which lengths; both read the old tree alone. Then nothing fails any more:
//! `write` carries the writes out (`linking`), and `free` frees what went. `assembly` joins these,
//! and `mending` has the landmarks follow.
//!
//! Definitions, in reading order: `Change` (what a transaction makes of a list), `Repaired` (what a
//! repair answers and leaves), `Kept` (nodes keep their numbers), `Outside` (where nodes outside of
//! the change stand). The others serve private functions and lemmas. What is done with each item,
//! and the script of that: `Acts`, `Spelled`, `Changed`, `Script`. A script that is carried out
//! gives the tree: `Tokens`, `Work`, `Relink`, `Repair`, `Numbers`, `Whole`. Writes: `Plan`,
//! `Agree`, `Ready`, `Closing`, `Ending`, `Stacks`, `Writes`, `Labels`, `Frees`. Lengths: `Sizes`,
//! `SizesRight`, `Sizing`, `Lengths`. Positions: `Cursor`, `Cursors`, `Start`, `Begun`, `Range`.
//! Reading: `Reader`, `Courses`, `Made`. Nodes that match, and the bound: `Pieces`, `Traced`,
//! `Moved`, `Numbered`, `Matching`, `Charged`, `Bounded`. All of it: `Assembly`, `Scene`. The law
//! is `nodes_outside_stand` (`Outside`).
//!
//! A node that moves needs at most eight writes, one that comes seven, one that goes three. Links
//! between siblings that stay are never written, since they keep their order. A closing has no
//! identity.
#![tactic(auto)]

mod assembly;
mod close;
mod cursor;
mod fault;
mod free;
mod law;
mod laws;
mod linking;
mod mending;
mod plan;
mod range;
mod read;
mod script;
mod sizes;
mod stack;
mod start;
mod write;

pub use fault::RepairFault;
pub use law::check_change;
pub use laws::nodes_outside_stand;
pub use mending::{relink, repair};
