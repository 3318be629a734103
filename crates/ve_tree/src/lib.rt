//! The tree of a page's flat list, kept as linked nodes. There is a node for each opening with its
//! closing, one for each longest run of characters, and the root over all. After the document tree
//! of VisualEditor's `ve.dm`.
//!
//! Proved: linked nodes are the list's tree. Building takes at most 6 steps for each node and 2
//! more, and a copy one for each node. A trial that is taken back leaves the nodes as they were when
//! it began. Links decide the tree, and a tree shows the shapes of items alone.
//!
//! It knows a node's kind, length and links, and where some nodes, the landmarks, begin. It doesn't
//! know the items: it is the tree of every list whose items have the same shapes
//! (`shapes_are_read`). The list is passed to `build`, which reads it. Who changes nodes, so that
//! they are the tree of another list, has the landmarks `follow`.
//!
//! A look-up begins at the landmark before the offset and goes along siblings, up at the end of a
//! row, and down. A node's range is found by going left and up to the next landmark. Landmarks are
//! hints: it is proved that they are true, and nothing says that one is near. They are near by how
//! they are put. One walk fills the gap after any of them, when a tree is built, and where items
//! came and went. The others keep their positions: the one gap that a change stands in grows or
//! shrinks with it.
//!
//! Changes of nodes can be tried. `begin_trial` begins a trial, and it ends by `keep` with the nodes
//! as they are, or by `take_back` with those that were there when it began, each under its number.
//! In between they need be no tree, so nothing has to be put right before they are taken back. That
//! takes no memory and can't fail. The landmarks are then found anew by one walk over the tree,
//! since those of the changed tree may be wrong.
//!
//! Definitions, in reading order: `Links` and `Named` (links, forests with numbers), `IsTree`
//! (linked nodes are the tree of a list), `Places` (where nodes begin and end), `Landmarks`,
//! `TreeOf` (what each call asks of a tree), `Trials` (an arena in which a trial begins). `Spots` is
//! the innermost node round an offset with its child there, `Rows` the nodes round a position of a
//! forest. The others serve private functions.
//! `Grown` and `Lent` are how a tree is built and a list read from its end. `Way` is how far nodes
//! lie before an offset, `Gaps` what lies between two landmarks. Laws: `links_are_read` (`Reads`),
//! `children_lists_fit` (`Fits`), `nodes_are_linked` (`Nodes`), `shapes_are_read` (`Shapes`).
//!
//! "The tree of a list" includes that the list is lawful, that node numbers are distinct, and that
//! no node stands besides. The tree is built from the list's end, so each node becomes its parent's
//! first child. Of building, the 6 are for each node but the root; a copy counts the root as well.
//!
//! Landmarks are cut between the first change and the last, also where these lie far apart, and one
//! walk fills the gap again.
#![tactic(auto)]

mod build;
mod follow;
mod landmarks;
mod laws;
mod lookup;
mod mark;
mod tree;
mod trial;
mod unread;

pub use laws::{children_lists_fit, links_are_read, nodes_are_linked, shapes_are_read};
pub use lookup::Spot;
pub use tree::Tree;
pub use ve_arena::{Arena, ArenaNode, NodeId, NodeWhat};
