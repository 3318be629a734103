// The tree of a list.
ghost use Rattle.std.specs.Prelude.{◌≡◌, ◌+◌, ◌*◌, ◌≤◌, List, None, Some, IfOk, option_map, length};
ghost use Rattle.model_items.specs.Law.{Lawful};
ghost use Rattle.model_items.specs.declared.plain_item.PlainItem.{PlainItem};
ghost use Rattle.model_items.specs.Tree.{tree_of, node_count, number_of_nodes};
ghost use Rattle.ve_arena.specs.Arena.{IsLive, settled};
ghost use Rattle.ve_tree.specs.Links.{number_of};
ghost use Rattle.ve_tree.specs.IsTree.{IsTree, unvalued};
ghost use Rattle.ve_tree.specs.Places.{sort_of, IsNodeRound, OfItsPlace, IsBranch};
ghost use Rattle.ve_tree.specs.Spots.{IsSpotOf};
ghost use Rattle.model_items.specs.Cost.{cost_of_tree};
ghost use Rattle.ve_tree.specs.TreeOf.{IsTreeOf, HasOffset, HasNode};
ghost use Rattle.ve_tree.specs.Way.{IsSomeTree};

use crate::build::read_children;
use crate::landmarks::Landmarks;
use crate::lookup::{Spot, spot_near};
use crate::mark::landmarks_of;
use crate::unread::Unread;
use crate::{Arena, NodeId, NodeWhat};
use std::alloc::Global;
use std::sync::ledger::Ledger;
use ve_base::{Memory, Steps};
use ve_items::Linear;
use ve_kinds::Kind;

/// Linked nodes and the number of their root, with some nodes whose positions are known. That they
/// are the tree of a list is a condition or a promise of each call.
pub struct Tree {
    pub arena: Arena,
    pub root: NodeId,
    pub(crate) landmarks: Landmarks,
}

impl Drop for Tree {
    fn drop(self) {
        let Tree {
            arena,
            root,
            landmarks,
        } = self;
        drop(arena);
        drop(root);
        drop(landmarks);
    }
}

impl Tree {
    /// The tree of a lawful list: a node for each opening and its closing, one for each longest run
    /// of characters, and the root over all. It takes at most six steps for each node, and two
    /// more for the root. No trial runs in it.
    pub fn build<L: Ledger>(
        alloc: Global,
        list: &Linear,
        steps: &mut Steps<L>,
    ) -> Result<Tree, Memory>
        requires { Lawful (unvalued list.now.items) }
        ensures tree { IfOk result (λ tree. IsTreeOf tree (unvalued list.now.items)) }
        ensures first { IfOk result (λ tree. tree.arena.first ≡ None) }
        ensures counted { steps.old ≤ steps.new }
        ensures steps { steps.new ≤ steps.old + cost_of_tree (unvalued list.now.items) }
        ensures six_a_node { steps.new
            ≤ steps.old + (6 * node_count (tree_of (unvalued list.now.items)) + 2) }
    {
        let mut arena = Arena::new(alloc);
        let root = arena.make(NodeWhat::Node(Kind::Root), steps)?;
        arena.set_len(root, list.len(), steps);
        let mut rest = Unread::new(list);
        read_children(&mut arena, &mut rest, root, steps)?;
        let landmarks = landmarks_of(alloc, &arena, root);
        Ok(Tree {
            arena,
            root,
            landmarks,
        })
    }

    /// A copy, with each node under its number, and with landmarks of its own. No trial runs in it.
    /// Each node of the copy is a step, the root counted, also where there is no memory for it.
    pub fn copy<L: Ledger>(&self, alloc: Global, steps: &mut Steps<L>) -> Result<Tree, Memory>
        requires { IsSomeTree self.now.arena.slots self.now.root }
        ensures arena { IfOk result (λ copy. copy.arena ≡ settled self.now.arena.slots) }
        ensures root { IfOk result (λ copy. copy.root ≡ self.now.root) }
        ensures tree { IfOk result (λ copy.
            (items : List PlainItem)
            → IsTree self.now.arena.slots self.now.root items
            → IsTreeOf copy items) }
        ensures counted { steps.old ≤ steps.new }
        ensures step_a_node { (items : List PlainItem)
            → IsTree self.now.arena.slots self.now.root items
            → steps.new ≡ steps.old + number_of_nodes items }
    {
        let arena = self.arena.copy(steps)?;
        let landmarks = landmarks_of(alloc, &arena, self.root);
        Ok(Tree {
            arena,
            root: self.root,
            landmarks,
        })
    }

    /// The innermost node round an offset, text nodes aside: its opening stands before the offset,
    /// and its closing at it or after. The root is round every offset. It follows links from the
    /// landmark before the offset, and reads no item.
    pub fn node_at(&self, o: usize) -> NodeId
        requires { HasOffset self.now o }
        ensures { IsNodeRound self.now.arena.slots self.now.root o result }
    {
        self.spot_at(o).node
    }

    /// The innermost node round an offset with its child there. That child ends after the offset
    /// and doesn't begin after it; with it, how many of its items lie before the offset. There is
    /// none at the end of what is inside the node. It goes as `node_at` does.
    pub fn spot_at(&self, o: usize) -> Spot
        requires { HasOffset self.now o }
        ensures { IsSpotOf self.now.arena.slots self.now.root o result }
    {
        if let Some((near, from)) = self.landmarks.before(o)
            && near.0 != self.root.0
        {
            return spot_near(self, near, o - from, o);
        }
        match self.arena.node(self.root).first {
            Some(first) => spot_near(self, first, o, o),
            None => Spot {
                node: self.root,
                next: None,
                left: 0,
            },
        }
    }

    /// The kind of a node. A text node has no kind.
    pub fn kind_of(&self, n: NodeId) -> Kind
        requires { IsBranch self.now.arena.slots n }
        ensures arena { sort_of self.now.arena.slots n ≡ Some (NodeWhat.Node result) }
        ensures place { OfItsPlace self.now.arena.slots self.now.root n (λ place.
            place.sort ≡ NodeWhat.Node result) }
    {
        match self.arena.node(n).what {
            NodeWhat::Node(kind) => kind,
            NodeWhat::Run => unreachable!(),
        }
    }

    /// The node that a node stands in, and none for the root.
    pub fn parent_of(&self, n: NodeId) -> Option<NodeId>
        requires { IsLive self.now.arena.slots n }
        ensures { OfItsPlace self.now.arena.slots self.now.root n (λ place.
            place.parent ≡ option_map number_of result) }
    {
        self.arena.node(n).parent
    }

    /// The positions of the list where a node begins and ends, its brackets included; for the root
    /// 0 and the length. It follows links to the left and up, to the next landmark, and reads no
    /// item.
    pub fn range_of(&self, n: NodeId) -> (usize, usize)
        requires { HasNode self.now n }
        ensures { OfItsPlace self.now.arena.slots self.now.root n (λ place.
            result ≡ (place.from, place.to)) }
    {
        let all = self.arena.node(self.root).len;
        let len = self.arena.node(n).len;
        // the number of items left when all that stands before the node is passed, going to the
        // left and up
        let mut left = all;
        let mut at = n;
        loop {
            if let Some(start) = self.landmarks.start_of(at) {
                let from = start + (all - left);
                return (from, from + len);
            }
            let node = self.arena.node(at);
            if let Some(before) = node.before {
                left -= self.arena.node(before).len;
                at = before;
                continue;
            }
            let Some(parent) = node.parent else {
                return (all - left, all - left + len);
            };
            if parent.0 == self.root.0 {
                return (all - left, all - left + len);
            }
            left -= 1; // the parent's opening
            at = parent;
        }
    }
}
