// Changes that can be taken back: a trial in the arena of a tree.
ghost use Rattle.std.specs.Prelude.{◌≡◌, List, None, OnOk, OnErr};
ghost use Rattle.model_items.specs.declared.plain_item.PlainItem.{PlainItem};
ghost use Rattle.ve_arena.specs.Arena.{settled, first_slots};
ghost use Rattle.ve_tree.specs.IsTree.{IsTree};
ghost use Rattle.ve_tree.specs.TreeOf.{IsTreeOf};
ghost use Rattle.ve_tree.specs.Trials.{begun};
ghost use Rattle.ve_tree.specs.Way.{IsSomeTree};

use crate::Tree;
use crate::mark::fill;
use ve_base::Memory;

impl Tree {
    /// Begins a trial: from now on the tree can go back to the nodes that it has, each under its
    /// number. It takes memory for what is to be noted, and no step; without memory nothing has
    /// changed.
    pub fn begin_trial(&mut self) -> Result<(), Memory>
        requires none { self.old.arena.first ≡ None }
        ensures ok { OnOk result (
            self.new ≡ record self.old { arena = begun self.old.arena.slots }) }
        ensures err { OnErr result (self.new ≡ self.old) }
    {
        self.arena.begin()
    }

    /// Ends a trial with the nodes as they are. Without one nothing changes.
    pub fn keep(&mut self)
        ensures { self.new ≡ record self.old { arena = settled self.old.arena.slots } }
    {
        self.arena.keep();
    }

    /// Ends a trial with the nodes as they were, each under its number. It can't fail. Landmarks
    /// that are true of the changed tree may be wrong of the first one, so all are found anew, in the
    /// memory that they had; where they need more and there is none, there are fewer of them. That
    /// is one walk over the tree, which looks at each node once at most and counts no step.
    pub fn take_back(&mut self)
        requires tree { IsSomeTree (first_slots self.old.arena) self.old.root }
        ensures arena { self.new.arena ≡ settled (first_slots self.old.arena) }
        ensures root { self.new.root ≡ self.old.root }
        ensures tree { (items : List PlainItem)
            → IsTree (first_slots self.old.arena) self.old.root items
            → IsTreeOf self.new items }
    {
        self.arena.take_back();
        self.landmarks.clear();
        fill(&mut self.landmarks, &self.arena, self.root);
    }
}
