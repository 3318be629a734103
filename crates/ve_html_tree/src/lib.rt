//! The forest of a page, as a list of nodes in the order of their starts; or the first fault of a
//! text that no forest spells. It knows tokens and open elements; what elements mean as items is
//! not its matter. The list of nodes is all the memory that it takes.
//!
//! Proved: but for want of memory, the nodes are exactly those of the forest that spells the text,
//! or the fault is its first.
//!
//! - `read`: the nodes of the one forest that spells the text (`ShowNodes` in `Nodes`), or its
//!   first fault (`IsFirstFault` in `Seen`);
//! - `Forest`, `Node`: the nodes, each with its first token, its bytes, those of its content, and
//!   the number past its subtree.
//!
//! `Opened`, `Building` and `Taken` in specs/ serve the private functions. They are the open
//! elements as the nodes link them, the nodes that the tokens so far have made, and the effect of
//! one more token. There are no laws here: those of forests are `model_spelling`'s.
//!
//! Open elements are linked through their nodes' `next` until they are closed. So the list of nodes
//! is all the memory of reading, and no pass only counts.
#![tactic(auto)]

mod build;
mod fault;
mod node;
mod open;
mod reader;

pub use fault::HtmlFault;
pub use node::{Forest, Node};
pub use reader::read;
