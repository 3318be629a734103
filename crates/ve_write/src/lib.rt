//! Writing of a list of items as the text of a page: nodes that are kept by the bytes that they
//! had, all others afresh. It reads no `data-mw` but to compose it.
//!
//! Proved: a lawful list in which every reference is editable is written as the model writes it,
//! each body at the reference that carries it; or nothing changes.
//!
//! - `write` appends the page that a list gives after the page that was first read:
//!   model_page_write's `write`. A node that is as it was read is copied; that is asked once for
//!   each node on the way down (`Originals` in specs/). Items that were found alike in a node aren't
//!   compared again for the nodes in it (`Known` of ve_origin). `write_knowing` does the same for a
//!   caller that knows of more items that are alike. The list isn't read for its references where
//!   no value of the store is a head with a key (`Referring`). A kept node ends after as many items
//!   as it had, which its origin tells. After a kept node, siblings whose items are all known to be
//!   alike are taken from a borrowed piece, and none is looked up.
//! - `write_fresh` appends the nodes of a list without origins: model_page_write's `fresh`.
//!   `write_fresh_range` does so for a range of whole siblings (`AreSiblings`): its `fresh_range`.
//!   The range is cut out, and written as a list by itself (`Range`).
//! - `put_list`, `put_blocks` and `put_body` do the same for a writer that is told where bodies
//!   stand (`Told`). One walk goes forward over the items, and calls itself for an element in an
//!   element alone.
//! - `is_bare` says which paragraphs need no tags, and `reads_inline` whether a source is inline
//!   elements and whitespace (`Bare`, `Inline`). The parser is asked last, and only for sources
//!   that are kept.
//! - `siblings_end` and `after_siblings` say where siblings end and what follows the node that they
//!   stand in (`Siblings`, `After`). model_page_write reads a list from its end; here a walk goes
//!   forward (`ending_at`).
//!
//! `BodyTexts`, `Begun`, `Passing` and `Referring` serve private functions. An `Err` is want of
//! memory: `write`, `write_knowing`, `write_fresh` and `write_fresh_range` then leave the buffer as
//! it was, the others may leave a part. There are no laws here: reading back is a law of
//! model_page_law.
//!
//! The caller tells where the node of each origin stood (`IsFirst`), so whether a node is kept is
//! asked without a walk. An origin that the page hadn't keeps nothing. Bytes that were UTF-8 still
//! are after each call that succeeds (clause `utf8`).
#![tactic(auto)]

mod bare;
mod blocks;
mod bodies;
mod content;
mod ends;
mod first_page;
mod fresh;
mod inline;
mod kept;
mod lists;
mod page;
mod range;
mod references;
mod run;
mod tags;

pub use bare::is_bare;
pub use blocks::put_blocks;
pub use ends::{After, after_siblings, ends_at, siblings_end};
pub use first_page::{First, Page};
pub use fresh::write_fresh;
pub use inline::reads_inline;
pub use lists::{put_body, put_list};
pub use page::{write, write_knowing};
pub use range::write_fresh_range;
