// Laws of tables under rows and columns put in or taken out. Each function does nothing, and its
// contract is a law that is proved.
ghost use Rattle.model_table_law.specs.Grids.{ColInGrid, RowInGrid};
ghost use Rattle.model_table_law.specs.Insides.{ColInKeeps, ColOutKeeps, RowInKeeps, RowOutKeeps};

/// The grid of a table after a row or a column is put in is the old one with it. A cell that begins
/// before it and reaches over it is one larger. One that begins at it or after is moved on. Each
/// position that no cell grows into has a new cell of one row and one column. Sizes and order are
/// the grid's.
pub fn ins_move_the_others()
    ensures row { RowInGrid }
    ensures column { ColInGrid }
{}

/// Each cell that stays keeps what stands in it, whatever becomes of its position and its spans,
/// and a new cell has an empty paragraph.
pub fn cells_keep_their_insides()
    ensures row_in { RowInKeeps }
    ensures col_in { ColInKeeps }
    ensures row_out { RowOutKeeps }
    ensures col_out { ColOutKeeps }
{}
