// Laws of the nodes of a text that was read, for a walk over them.
ghost use Rattle.ve_classify.specs.Citations.{ReferencesAreCited};
ghost use Rattle.ve_classify.specs.Laws.{NodesLeadOn, ForestStands, RestStands, ChildrenStand};
ghost use Rattle.ve_classify.specs.Marked.{MarksSplit, RunsMarked};
ghost use Rattle.ve_classify.specs.PartLaws.{ForestStandsIn, ChildrenStandIn, ChildrenReach, AllParts, PartsKeepSource};
ghost use Rattle.ve_classify.specs.Runs.{RunsSplit};
ghost use Rattle.ve_classify.specs.Siblings.{BlocksSplit, ContentSplits, RunsRead, WhiteSplits};

/// Siblings stand at the first node of a text that was read, after each of its nodes, and in each
/// of its elements; and its nodes lead on.
#[tactic(auto, using(crate::proofs::LeadLemmas::leads_on, crate::proofs::LeadLemmas::whole_stands))]
pub fn read_stands()
    ensures leads { NodesLeadOn }
    ensures stands { ForestStands }
    ensures rest { RestStands }
    ensures children { ChildrenStand }
{}

/// The forest of a text that was read stands in it, and so do the children of each element.
/// Siblings have some number of parts, and these have their source.
#[tactic(auto, using(crate::proofs::TextLemmas::forest_stands, crate::proofs::TextLemmas::children_stand, crate::proofs::TextLemmas::children_reach, crate::proofs::PartLemmas::parts_reach, crate::proofs::SourceLemmas::parts_keep_source))]
pub fn parts_stand()
    ensures forest { ForestStandsIn }
    ensures children { ChildrenStandIn }
    ensures reach { ChildrenReach }
    ensures parts { AllParts }
    ensures source { PartsKeepSource }
{}

/// Siblings are read from the first one on, whatever follows. Content is read part by part, a
/// structural parent as blocks and whitespace, and a flow parent also by runs up to their ends.
#[tactic(auto, using(crate::proofs::RunLemmas::runs_split, crate::proofs::BlockLemmas::blocks_split, crate::proofs::BlockLemmas::white_splits, crate::proofs::BlockLemmas::runs_read, crate::proofs::ContentLemmas::content_splits))]
pub fn siblings_split()
    ensures content { ContentSplits }
    ensures blocks { BlocksSplit }
    ensures white { WhiteSplits }
    ensures runs { RunsSplit }
    ensures read { RunsRead }
{}

/// Where annotations stand too deep in one another: in the first part or else in the later ones,
/// and in a run as in content.
#[tactic(auto, using(crate::proofs::MarkedLemmas::marks_split, crate::proofs::MarkedLemmas::runs_marked))]
pub fn marks_are_counted()
    ensures parts { MarksSplit }
    ensures runs { RunsMarked }
{}

/// In a page, but not in a structural parent, a group is the reference that its `data-mw` says, and
/// no other.
#[tactic(auto, using(crate::proofs::CitationLemmas::references_are_cited))]
pub fn references_are_cited()
    ensures { ReferencesAreCited }
{}
