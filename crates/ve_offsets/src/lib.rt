//! Offsets of a page's list: whether characters may stand there, or nodes, or nothing, and which
//! nodes are open there. Also the unmatched brackets of a range, and the nearest offset where
//! characters may stand, on both sides or on one.
//!
//! Proved: an offset's class and state, the unmatched brackets and the nearest content offset are
//! the model's.
//!
//! It knows a page as a `Doc`: its list, tree and values, borrowed together. It changes nothing,
//! takes no memory, and reads no value. The state at an offset is found from the innermost node
//! round it, by its parents. A class is found by the one item before the offset, and unmatched
//! brackets by the items of the range.
//!
//! Definitions, in reading order: `Docs` (what each call asks), `Classes`, `States` (the law's
//! state at an offset; `IsRound` serves private functions), `Unmatched` (what its law speaks of,
//! and how a range is counted). `Nearest` and `Lent` serve private functions. Offsets, unmatched
//! brackets and the nearest content offset are spoken of in `model_items`. Laws:
//! `items_decide_classes` (the item before an offset decides its class), `unmatched_are_open` (the
//! unmatched brackets of a range are those of the nodes that it closes and opens).
#![tactic(auto)]

mod class;
mod doc;
mod laws;
mod nearest;
mod range;
mod reader;
mod state;

pub use class::{is_content, is_inside_leaf, is_structural};
pub use doc::Doc;
pub use laws::{items_decide_classes, unmatched_are_open};
pub use nearest::{content_ahead, content_back, nearest_content};
pub use range::unmatched;
pub use state::state_at;
pub use ve_lawful::State;
