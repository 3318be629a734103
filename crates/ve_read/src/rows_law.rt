// The law of the rows. Its function does nothing, and its contract is the law.
ghost use Rattle.ve_read.specs.RowsStand.{RowsStandLaw};

/// The body of a page that was read and its rows are cut between characters. Each row is the range
/// of its node, before the internal list. The origins of the list are the numbers of the rows.
pub fn rows_stand()
    ensures { RowsStandLaw }
{}
