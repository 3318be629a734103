//! Items of a page's flat list: their values, which lists are lawful, and the tree that a lawful
//! list writes out. It knows no page text, no change and no store. There are definitions in specs/,
//! and the types that they speak of:
//!
//! - `Same`: when values, heads, marks and items are equal, as tests;
//! - `Plain`: items read by value, over the list of values that they cite;
//! - `Marks`: marks with one more, and without one;
//! - `Law`: which item may stand where, the verdict over a whole list, and what a changed piece
//!   tells of it;
//! - `Tree`: the forest that a list spells, and the node round an offset;
//! - `Cost`: how many steps making the tree may take;
//! - `LawfulTree`: lawful lists in words of the tree;
//! - `NodeAt`: the node round an offset, found in the tree;
//! - `Offsets`: what an offset is, the partner of a bracket, unmatched brackets of a range, and the
//!   nearest content offset.
//!
//! The laws stand in `laws`: each public function there does nothing, and its contract is a law
//! that is proved.
#![tactic(auto)]

mod item;
mod law_fault;
mod laws;
mod offset_class;
mod plain_item;

pub use item::Item;
pub use law_fault::LawFault;
pub use laws::{
    equality_is_tested, lawful_lists_are_trees, nearest_content_is_nearest, node_at_is_innermost,
    piece_decides, plain_tells_apart, state_is_decided, tree_spells, values_are_not_read,
    verdict_is_first,
};
pub use offset_class::OffsetClass;
pub use plain_item::PlainItem;
