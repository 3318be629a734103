// Laws of the offsets of lawful lists. Each function does nothing, and its contract is a law that
// is proved.
ghost use Rattle.ve_offsets.specs.Classes.{ItemDecidesClass};
ghost use Rattle.ve_offsets.specs.Unmatched.{UnmatchedAreOpen};

/// The item before an offset decides its class.
pub fn items_decide_classes()
    ensures { ItemDecidesClass }
{}

/// The unmatched closings of a range close the innermost of the nodes that are open at its start.
/// Its unmatched openings are those of the nodes that begin in it and are open at its end.
#[tactic(auto, using(crate::proofs::OpenLemmas::unmatched_are_open))]
pub fn unmatched_are_open()
    ensures { UnmatchedAreOpen }
{}
