//! Items of a page, a body or a fragment, as they grow from the first one on. It knows pieces of
//! items, and neither forests nor siblings: its caller walks over a page and says what comes next.
//!
//! Proved: but for want of memory, items, heads, marks, characters and leaves of one node, and the
//! key of a reference, are model_page's. The first opening that is too deep is the model's.
//!
//! - A `Reader` holds items over their values, a row for each origin, the marks around, the owners,
//!   and how many kinds are open (`ReadSoFar` in specs/). Each call adds a piece of model_page's
//!   conversion (`with_piece`), or an opening or a closing. Reading stops at an opening that is too
//!   deep, at a mark too many, or for want of memory (`Stops`).
//! - An `ItemDraft` holds items with the values that they cite, each once and in their order
//!   (`Drafted`, `Holding`). A call that fails changes nothing.
//! - `element_head`, `mark_of`, `push_text` and `push_leaf` make the items of one node: a head, a
//!   mark, characters, a leaf (`Leaves`, `TagAttrs`).
//! - `Owners` says which key a reference gets, and whether its body has an owner (`Owned`,
//!   `Claimed`). A key is found by its hash.
//!
//! After an `Err` of a `Reader` some of the items may have come in: whoever reads gives up then.
//!
//! Laws: pieces that are joined are read one after the other, and the first opening that is too
//! deep is found so (`pieces_are_even`, `pieces_join`, `depths_join`). Leaves, heads and marks are
//! model_page's (`leaves_are_pieces`, `tags_are_read`), and so are the keys that are claimed
//! (`claims_are_keys`).
//!
//! The items read so far have the rows of origins themselves. Opening a branch hands out the node
//! and closing takes it back, so nothing keeps a stack of open nodes.
#![tactic(auto)]

mod cite;
mod draft;
mod growing;
mod heads;
mod key;
mod laws;
mod leaves;
mod opening;
mod owners;
mod purpose;
mod put;
mod reader;
mod rows;

pub use draft::ItemDraft;
pub use heads::{attrs_of, element_head, mark_of, reference_head, whole_head};
pub use laws::{
    claims_are_keys, depths_join, leaves_are_pieces, pieces_are_even, pieces_join, tags_are_read,
};
pub use leaves::{push_block_leaf, push_leaf, push_text};
pub use opening::Opening;
pub use owners::{Claim, Owner, Owners};
pub use purpose::{Purpose, ReadStop};
pub use reader::{NewOwner, NodeStart, OpenNode, ReadParts, Reader};
