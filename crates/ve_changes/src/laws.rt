// A law that speaks of definitions alone.
ghost use Rattle.ve_changes.specs.Moves.{MovesAreAsked};

/// A row, a column or a list item is moved by performing the transaction of `moved_by`, where that
/// may be performed; else its refusal is the answer.
#[tactic(auto, using(crate::proofs::MoveLemmas::moves_are_asked))]
pub fn moves_are_asked()
    ensures { MovesAreAsked }
{}
