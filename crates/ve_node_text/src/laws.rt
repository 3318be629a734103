// Laws of leaves.
ghost use Rattle.ve_node_text.specs.Leaves.{LeavesAreWritten};

/// A leaf whose body has a text is the one that a writer writes who gives the body that text.
#[tactic(auto, using(crate::proofs::LeafLemmas::leaf_is))]
pub fn leaves_are_written()
    ensures { LeavesAreWritten }
{}
