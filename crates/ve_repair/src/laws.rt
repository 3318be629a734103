// Laws of a repair. The function does nothing, and its contract is a law that is proved.
ghost use Rattle.ve_repair.specs.Outside.{NodesStand};

/// Where matching nodes keep their numbers, a node that begins before a transaction's changes
/// begins where it began. One that begins past them begins as much farther on as the list is
/// longer.
pub fn nodes_outside_stand()
    ensures { NodesStand }
{}
