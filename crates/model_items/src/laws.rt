// Laws of lists of items, their trees and their offsets. Each function does nothing, and its
// contract is a law that is proved.
ghost use Rattle.model_items.specs.Same.{Means, item_same, value_same};
ghost use Rattle.model_items.specs.Plain.{PlainTellsApart};
ghost use Rattle.model_items.specs.Law.{VerdictIsFirstOffence, LawReadsNoValues, VerdictReadsNoValues, PieceFails, PieceFits, PieceDiffers, StateDecided};
ghost use Rattle.model_items.specs.Tree.{TreeSpells, TreeHasWholeRuns, TreeIsOnly, TreeReadsNoValues};
ghost use Rattle.model_items.specs.LawfulTree.{LawfulHasTree, TreeIsLawful};
ghost use Rattle.model_items.specs.Offsets.{NearestIsFound, NearestIsOnly, NoneIsFound, NoneIsOnly};
ghost use Rattle.model_items.specs.NodeAt.{NodeAtIsFound, TreeHasAllItems, NodeAtIsInnermost, OpenIsStack, ClassIsOfTop};

/// The tests of equality that the definitions compute with are true exactly of equal values and
/// equal items.
#[tactic(auto, using(crate::proofs::SameLemmas::values_are_tested, crate::proofs::SameLemmas::items_are_tested))]
pub fn equality_is_tested()
    ensures values { Means value_same }
    ensures items { Means item_same }
{}

/// Two items that cite one list of distinct values, each value of its sort and not empty, are equal
/// where what they cite is.
#[tactic(auto, using(crate::proofs::PlainLemmas::plain_tells_apart))]
pub fn plain_tells_apart()
    ensures { PlainTellsApart }
{}

/// The verdict over a list names the first item that is not allowed, or the list's end.
pub fn verdict_is_first()
    ensures { VerdictIsFirstOffence }
{}

/// Whether a list is lawful, and which tree it writes out, does not depend on the values that its
/// items cite.
pub fn values_are_not_read()
    ensures law { LawReadsNoValues }
    ensures verdict { VerdictReadsNoValues }
    ensures tree { TreeReadsNoValues }
{}

/// A changed piece of a lawful list tells of the whole. Where the piece fails from the state before
/// it, the list fails there. Where it ends in the state in which the old piece ends, the list stays
/// lawful. Else the first offence lies after the piece.
#[tactic(auto, using(crate::proofs::LawLemmas::piece_fails, crate::proofs::LawLemmas::piece_fits, crate::proofs::LawLemmas::piece_differs))]
pub fn piece_decides()
    ensures fails { PieceFails }
    ensures fits { PieceFits }
    ensures differs { PieceDiffers }
{}

/// The items after a position decide the state there. The closings name the open kinds, and whether
/// the internal list still comes names the flag.
#[tactic(auto, using(crate::proofs::LawLemmas::state_decided))]
pub fn state_is_decided()
    ensures { StateDecided }
{}

/// The tree of a lawful list, written out, is the list, and no other forest of whole runs is.
#[tactic(auto, using(crate::proofs::TreeLemmas::tree_spells, crate::proofs::OnlyLemmas::tree_has_whole_runs, crate::proofs::OnlyLemmas::tree_is_only))]
pub fn tree_spells()
    ensures spells { TreeSpells }
    ensures whole { TreeHasWholeRuns }
    ensures only { TreeIsOnly }
{}

/// A list is lawful exactly where a lawful tree writes it out. In such a tree each node stands in
/// one that may hold it, and characters stand in content branches alone. At most 100 nodes stand
/// one inside the other. The root's last child, and no other, is the internal list.
pub fn lawful_lists_are_trees()
    ensures tree { LawfulHasTree }
    ensures list { TreeIsLawful }
{}

/// The node at an offset of a lawful list is found by searching its tree, which has all items. It
/// is the innermost of the tree's nodes that hold the offset. The open nodes there are the law's
/// state, and the offset's class goes by the top of its stack.
pub fn node_at_is_innermost()
    ensures found { NodeAtIsFound }
    ensures all { TreeHasAllItems }
    ensures innermost { NodeAtIsInnermost }
    ensures state { OpenIsStack }
    ensures class { ClassIsOfTop }
{}

/// The content offset nearest to an offset is one, and no other lies nearer. Of two at one distance
/// it is the lower. There is none exactly where a list has no content offset.
pub fn nearest_content_is_nearest()
    ensures found { NearestIsFound }
    ensures only { NearestIsOnly }
    ensures none { NoneIsFound }
    ensures no_other { NoneIsOnly }
{}
