//! An arena of tree nodes, linked by numbers: each has a parent, a first and a last child, a
//! sibling on either side, and a length.
//!
//! Proved: each write changes one node and counts one step. Making a node is one step also where
//! there is no memory for it; the arena is then as before. A copy is one step for each node. Taking
//! a trial back gives each number the node that it had.
//!
//! It knows which numbers have a node, and each node's fields. A new node has no links, and a write
//! changes one field of one node. A number is given out again only after its node was freed. It
//! doesn't know whether the links are those of a tree, whether a link leads to a node, or what a
//! length counts. Its users say that.
//!
//! Each node that is made, copied or freed and each write is one step of a count, so a bound on
//! steps is a bound on writes, and on copies too. Reading is free.
//!
//! In a trial the first write to a slot notes what stood there, in room that was taken when the
//! trial began. So a write can't fail, a trial costs what is written in it, and going back takes no
//! memory. Outside of a trial a write asks once more whether one runs.
//!
//! Definitions, in reading order. `Arena`: what the arena shows (`ArenaView`, `settled`,
//! `first_slots`), `slot_at` and `node_under` (what stands under a number), `IsLive`, `live_count`
//! (how many nodes there are), `Puts` and `Changes` (what one call leaves as it was), `new_node`,
//! and the fields' `with_parent` to `with_len`. `Slots` serves private functions: it is how nodes
//! and notes are kept. It has no laws: each clause is the whole of what its call does.
#![tactic(auto)]

mod arena;
mod node;
mod slot;

pub use arena::Arena;
use node::Field;
pub use node::{ArenaNode, NodeId, NodeWhat};
