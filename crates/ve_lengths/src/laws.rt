// Laws of finding a position among lengths. The function does nothing, and its contract is a law
// that is proved.
ghost use Rattle.ve_lengths.specs.Laws.{OneIsFound, FoundIsWithin};

/// A position lies in at most one length, at one distance from its start, and only where it is
/// before the end of them all.
#[tactic(auto, using(crate::proofs::FindLemmas::one_is_found, crate::proofs::FindLemmas::found_is_within))]
pub fn one_is_found()
    ensures one { OneIsFound }
    ensures within { FoundIsWithin }
{}
