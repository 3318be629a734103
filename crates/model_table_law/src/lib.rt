//! Tables after a row or a column is put in or taken out, for every table. It defines no edit:
//! those are `model_edit`'s, as are the rectangles after each (`Layout`). There are definitions in
//! specs/:
//!
//! - `Cells`: the cells of a table with what stands in them;
//! - `Grids`: the grid after a row or a column is put in, rectangle by rectangle; after one is
//!   taken out it is in `model_edit_law`;
//! - `Insides`: each cell that stays keeps what stands in it, and a new one is an empty paragraph.
//!
//! The laws stand in `laws`: each public function there does nothing, and its contract is a law
//! that is proved.
#![tactic(auto)]

mod laws;

pub use laws::{cells_keep_their_insides, ins_move_the_others};
