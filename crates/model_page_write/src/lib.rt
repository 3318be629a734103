//! Items written as a page: fresh, or with the bytes that a node was read from where nothing of it
//! changed. There are definitions alone, in specs/:
//!
//! - `Nodes`: the tree of a list, with all that its items say and the bodies that its references
//!   carry;
//! - `Written`: marks, bare paragraphs, and the text of each node;
//! - `PageText`: fresh text, which nodes are kept, and the page;
//! - `Range`: the fresh text of a range.
//!
//! The laws are `model_page_law`'s.
//!
//! A leaf whose source nothing spells makes its paragraph not bare. A leaf in content keeps its
//! bytes, also where the text beside it changed. A range that is written fresh is written as
//! siblings by themselves.
#![tactic(auto)]
