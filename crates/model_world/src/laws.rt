// The laws of the plain machine: they speak of the definitions alone.
ghost use Rattle.model_world.specs.Laws.{RefusalsChangeNothing, BatchIsWhole, WholeIsBatch, BatchStopsAtFirst};

/// A refusal leaves the world as it was: page, sites, lists, stores, selections, entries and
/// queues.
#[tactic(auto, using(crate::proofs::Unchanged::refusals_change_nothing))]
pub fn refusals_change_nothing()
    ensures { RefusalsChangeNothing }
{}

/// A batch is all of its changes, each made on the result of those before it, or none. Then it is
/// refused at the first change that is refused there, for the same cause.
#[tactic(auto, using(crate::proofs::BatchLemmas::batch_is_whole, crate::proofs::BatchLemmas::whole_is_batch, crate::proofs::BatchLemmas::batch_stops_at_first))]
pub fn batches_are_whole()
    ensures whole { BatchIsWhole }
    ensures only { WholeIsBatch }
    ensures stops { BatchStopsAtFirst }
{}
