//! Translation of offsets and selections over a transaction, and the moves of a caret.
//! `translate_offset` and `translate_range` walk the operations of a transaction, read no list and
//! take no memory. `next_cluster` and `next_word` read the run of characters beside the caret, and
//! take memory for its text. It keeps no selection: an end that then stands inside a leaf is moved
//! out of it where selections are kept.
//!
//! Proved: an offset and a range after a transaction, and the next position of a caret by cluster
//! or word, are the model's.
//!
//! Their meaning stands in `model_edit`'s `Translate` and `Next`; boundaries are those of
//! `unicode_segmentation`. The definitions here serve private functions: `Passed` is the
//! translation over operations whose items cite values, `Runs` the characters of such items, and
//! `Passing` the state of one pass over the pieces of a text. There is no law of its own: those of
//! `model_edit_law` hold of the results by the clauses alone. By these laws offsets keep their
//! order and their neighbours, a selection never turns round, and a caret stays in its branch.
//!
//! Where an offset stands after a transaction is asked without a condition: the walk counts by its
//! operations alone. `next_cluster` and `next_word` answer at every offset, also where no content
//! is.
#![tactic(auto)]

mod beside;
mod next;
mod run;
mod translate;

pub use model_edit::{Bias, Dir, Selection};
pub use next::{next_cluster, next_word};
pub use translate::{translate_offset, translate_range};
