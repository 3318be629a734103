// Landmarks of a tree whose nodes were changed by another crate.
ghost use Rattle.std.specs.Prelude.{◌≡◌, ◌≤◌, List};
ghost use Rattle.model_items.specs.declared.plain_item.PlainItem.{PlainItem};
ghost use Rattle.ve_tree.specs.IsTree.{IsTree};
ghost use Rattle.ve_tree.specs.Landmarks.{MayFollow};
ghost use Rattle.ve_tree.specs.TreeOf.{IsTreeOf};
ghost use Rattle.ve_tree.specs.Way.{IsSomeTree};

use crate::Tree;
use crate::mark::thicken;

impl Tree {
    /// Has the landmarks follow a change of the nodes, in which `len` items came for those between
    /// two positions of the list. A node that began between them is a landmark no more, one that
    /// begins later has moved, and the gap is filled again. To be called when the linked nodes are
    /// the tree of the new list.
    pub fn follow(&mut self, from: usize, to: usize, len: usize)
        requires order { from ≤ to }
        requires tree { IsSomeTree self.old.arena.slots self.old.root }
        requires may { MayFollow self.old.arena.slots self.old.root self.old.landmarks from to len }
        ensures arena { self.new.arena ≡ self.old.arena }
        ensures root { self.new.root ≡ self.old.root }
        ensures tree { (items : List PlainItem)
            → IsTree self.old.arena.slots self.old.root items
            → IsTreeOf self.new items }
    {
        let was = self.landmarks.len();
        let (k, behind) = self.landmarks.cut(self.root, from, to, len);
        thicken(&mut self.landmarks, &self.arena, self.root, k);
        self.landmarks.rank(k, was, behind);
    }
}
