//! Insertions and splits as transactions: `insertion` puts pieces at an offset, `text_insertion`
//! and `plain_text_insertion` put a text there, with the marks of its left neighbour and without
//! marks. `split` splits the nodes that are open there. Each gives the model's transaction, or the
//! model's refusal, and writes nothing. `open_at` tells whether anything may be put at an offset,
//! and which kinds are open there.
//!
//! Pieces go into the innermost open node that may hold them: the nodes inside that one are closed
//! before them, and after them copies of those nodes are opened. Content outside every branch of
//! content is put into a paragraph. The heads of the copies go into the `NewValues` that are
//! passed: after a success just those that the inserted items bring. It knows no tree but through
//! `ve_edits`, and no page text.
//!
//! Definitions, in reading order. `Placed` has the conditions on pieces, where they may stand, and
//! the meaning of their insertion. `Reopened` has closings and copies, as they are made. `Typed`
//! has text as pieces, and the meaning of its insertion. Insertion and split are defined in
//! `model_edit`'s `Insert`, their refusals in `ve_edits`' `Refused`, and the new values that they
//! bring in its `Filled`. It has no law of its own: those of `model_edit_law` hold of the results
//! by the clauses.
#![tactic(auto)]

mod inserts;
mod pieces;
mod place;
mod reopen;
mod splits;
mod text;

pub use inserts::insertion;
pub use place::open_at;
pub use splits::split;
pub use text::{plain_text_insertion, text_insertion};
