// Laws of cells that are placed.
ghost use Rattle.ve_tables.specs.Placed.{NextIsPlaced};

/// The next cell is the one that the model positions after those before it in its row.
pub fn next_is_placed()
    ensures { NextIsPlaced }
{}
