//! Edits of a list of items: the transaction that each is, and when it is refused. Also where a
//! caret goes, and the grid of a table. It knows no site, no page text and no limit on a list's
//! length. There are definitions in specs/, and the types that they speak of:
//!
//! - `Causes`: why an edit is refused;
//! - `Brackets`: the openings and closings that edits make;
//! - `Edits`: edits at rising positions, and the one transaction that they are;
//! - `Insert`, `Remove`, `Marking`, `Wrap`, `Convert`: insertion, text and split; removal; marks;
//!   wrapping; kinds and attributes;
//! - `Lists`: list items moved deeper and out;
//! - `Grid`, `Tables`, `Layout`: the grid of a table, rows and columns put in and taken out, and
//!   what the grid then is;
//! - `Translate`, `Next`: where offsets and selections stand after a change, and where a caret goes
//!   next.
//!
//! The offsets of a list are defined in `model_items`; the laws of edits are `model_edit_law`'s.
//!
//! Converting a branch keeps its head and the whitespace before it, and drops origin and generated.
//! A new opening's head has attributes alone.
//!
//! In a wrap, a closing that is to go is the partner of its opening. In a sibling that is too short
//! openings are judged first, then closings. A marked range may hold the brackets of the internal
//! list and of its items. Indenting takes the kind of the item's own list.
//!
//! Setting an attribute to the value that it has is still an operation, and so an entry; so is a
//! removal of brackets that all stay.
#![tactic(auto)]

mod build_fault;
mod grid_cell;
mod list_fault;
mod selection;
mod table_fault;
mod wrap_plan;

pub use build_fault::BuildFault;
pub use grid_cell::GridCell;
pub use list_fault::ListFault;
pub use selection::{Bias, By, Dir, Selection};
pub use table_fault::TableFault;
pub use wrap_plan::{Kinds, Shape, Shapes, WrapPlan};
