// Content, read in turn.
ghost use Rattle.ve_read.specs.BlockLaws.{BlocksInTurn, BlockLimits, RunsInTurn, RunLimits, BranchesAreRead, BranchLimits};
ghost use Rattle.ve_read.specs.ContentLaws.{EarlierJoins, PartsInTurn, LimitsInTurn, AnnotationsAreRead, AnnotationLimits};

/// Content is read one part after the other, and the inside of an annotation inside of its mark. A
/// limit is passed in the first part or else in the later ones; in an annotation by the mark or
/// else inside.
#[tactic(auto, using(crate::proofs::LimitLemmas::earlier_joins, crate::proofs::ContentTurns::parts_in_turn, crate::proofs::ContentTurns::limits_in_turn, crate::proofs::MarkLemmas::annotations_are_read, crate::proofs::MarkLemmas::annotation_limits))]
pub fn content_in_turn()
    ensures limits { EarlierJoins }
    ensures parts { PartsInTurn }
    ensures stops { LimitsInTurn }
    ensures annotations { AnnotationsAreRead }
    ensures marks { AnnotationLimits }
{}

/// A block, or a run that is no whitespace, is read before the rest, and a branch as its opening,
/// its inside and its closing. A limit is passed in the first of these or else in the later ones.
#[tactic(auto, using(crate::proofs::BranchLemmas::blocks_in_turn, crate::proofs::BranchLemmas::block_limits, crate::proofs::ParagraphLemmas::runs_in_turn, crate::proofs::ParagraphLemmas::run_limits, crate::proofs::BranchLemmas::branches_are_read, crate::proofs::BranchLemmas::branch_limits))]
pub fn siblings_in_turn()
    ensures blocks { BlocksInTurn }
    ensures block_limits { BlockLimits }
    ensures runs { RunsInTurn }
    ensures run_limits { RunLimits }
    ensures branches { BranchesAreRead }
    ensures branch_limits { BranchLimits }
{}
