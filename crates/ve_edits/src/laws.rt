// The law of collected edits, for whoever builds with them.
ghost use Rattle.ve_edits.specs.Collected.{ValuesMayGrow};

/// Collected edits are the same over a list of values that has more after it.
pub fn values_may_grow()
    ensures { ValuesMayGrow }
{}
