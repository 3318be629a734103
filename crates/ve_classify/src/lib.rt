//! Conversion of siblings: which text, comment, element or group stands first among siblings of a
//! page, and what it becomes. It goes over a forest as `ve_html_tree` gives it. It makes no items,
//! and no call takes memory. Clauses speak of whatever siblings stand at a node.
//!
//! Proved: the first part of siblings, its fit, and the ends of it, its group and its run are
//! model_page's. So are the open kind that a fragment goes into, and the groups that may be
//! references.
//!
//! - `fit` says what the first of them becomes in its parent, and `group_end` where its group ends
//!   (`Fits`, `Groups` in specs/). `has_type`, `is_held` and `spelled_value` read attributes as
//!   they stand in the page (`Values`).
//! - `part_at` says where the first part ends in the text, and `part_source` which source it has
//!   (`FirstPart`, `Places`).
//! - `run_at` says where a run ends and whether it is whitespace alone; `is_in_run` whether a part
//!   is one of a run (`Runs`, `Units`). model_page puts siblings together from the last one; here
//!   they are read from the first (`Siblings`, `Marked`).
//! - `context_kind` says into which of the open kinds a fragment is put: the innermost one that
//!   fits (`Context`).
//! - `cited_mw` borrows the `data-mw` of a group that may be a reference (`Citations`). Whether it
//!   is one, `ve_internal` says by that `data-mw`.
//!
//! Laws: the nodes that were read stand in their text, and so does all that a walk over them comes
//! to (`read_stands`, `parts_stand`). Siblings are read from the first one on (`siblings_split`,
//! `marks_are_counted`). A reference is decided by its `data-mw` (`references_are_cited`).
#![tactic(auto)]

mod around;
mod citations;
mod context;
mod fits;
mod groups;
mod laws;
mod parts;
mod runs;
mod types;
mod values;

pub use around::{Around, Fit};
pub use citations::cited_mw;
pub use context::context_kind;
pub use fits::fit;
pub use groups::group_end;
pub use laws::{marks_are_counted, parts_stand, read_stands, references_are_cited, siblings_split};
pub use parts::{Part, part_at, part_source};
pub use runs::{RunPart, is_in_run, run_at};
pub use types::TypeTest;
pub use values::{has_type, is_held, is_white, is_white_text, spelled_value};
