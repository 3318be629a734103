// Laws of the items under a change. Each function does nothing, and its contract is a law that is
// proved.
ghost use Rattle.model_change_law.specs.Told.{ShapesTellTree, TreeTellsShapes};
ghost use Rattle.model_change_law.specs.Inserted.{JoinListsInsertTheSame, JoinsInsertTheSame};
ghost use Rattle.model_change_law.specs.Retained.{AttributesAloneChange, RetainedIsChanged};

/// A retained item stands at its new position, with the attribute operations of its old position
/// made on it. Otherwise it is as it was. These operations change attributes alone.
pub fn retained_items_are_kept()
    ensures changed { RetainedIsChanged }
    ensures alone { AttributesAloneChange }
{}

/// Two transactions that don't conflict, and two lists of them that join, insert what they inserted
/// before, in their order.
pub fn joins_insert_the_same()
    ensures pair { JoinsInsertTheSame }
    ensures lists { JoinListsInsertTheSame }
{}

/// A tree tells of a lawful list which items are characters, and which open and close nodes of
/// which kinds. It tells nothing else: neither which characters they are, nor heads, marks,
/// whitespace, origins and the flag generated. So much of its list the links of a tree decide, and
/// so much of the tree a change of characters, heads and marks leaves.
#[tactic(auto, using(crate::proofs::ToldLemmas::tree_tells_shapes, crate::proofs::ToldLemmas::shapes_tell_tree))]
pub fn trees_tell_shapes()
    ensures list { TreeTellsShapes }
    ensures tree { ShapesTellTree }
{}
