//! Reading of pages and fragments: a page's text becomes its list, the values that the list cites,
//! and a row for each origin, or the first refusal. The text of a fragment becomes items over a
//! store. It leaves it to ve_reader where items go.
//!
//! Proved: but for want of memory, a page is the model's page, with its list, the values that the
//! list cites and a row for each origin. Or it is refused as the model refuses it, with the model's
//! first cause and its byte. A fragment is the model's where these kinds are open, over a store and
//! just the values that it takes.
//!
//! - `page` gives model_page's page as it was opened (`IsReadPage` in `Pages` of specs/), or the
//!   model's refusal in the model's order. `fragment` gives the model's fragment where these kinds
//!   are open, or its refusal (`Fragments`).
//! - `read_siblings` walks over blocks: all children of a node, or all siblings of a page, a body
//!   or a fragment (`Blocks`, `Places`, `Reads`, `Units`). Whitespace is kept until it is known
//!   what follows it. How far a run goes is looked up first.
//! - `read_content` walks over content: characters, leaves and annotations, part by part
//!   (`Content`, `ContentParts`, `References`).
//!
//! One walk goes over the body of the page, and then one over the body of each reference.
//! `Forests`, `Faults`, `Bodies`, `Moved` and `Anew` serve private functions.
//!
//! Laws: each row has whole characters of the page and is the range of its node (`rows_stand`).
//! Content and siblings are read one after the other, and reading stops at the first limit in the
//! text (`content_in_turn`, `siblings_in_turn`).
//!
//! The whitespace after the last sibling is handed back by who reads siblings: it belongs to the
//! closing of their parent, which the reader alone puts.
#![tactic(auto)]

mod anew;
mod block_leaves;
mod blocks;
mod bodies;
mod content;
mod content_leaves;
mod fault;
mod forests;
mod fragments;
mod laws;
mod moved_rows;
mod pages;
mod paragraph;
mod references;
mod rows_law;
mod units;

pub use blocks::read_siblings;
pub use content::read_content;
pub use fault::ReadFault;
pub use fragments::{FragmentFault, fragment};
pub use laws::{content_in_turn, siblings_in_turn};
pub use pages::{PageRead, page};
pub use paragraph::read_paragraph;
pub use rows_law::rows_stand;
