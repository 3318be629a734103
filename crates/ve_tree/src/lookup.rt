// From a node whose position is known to the innermost node round an offset and its child there,
// and to the node that begins next.
ghost use Rattle.std.specs.Prelude.{◌≡◌, ◌≤◌, ◌<◌, IfSome};
ghost use Rattle.ve_tree.specs.Spots.{IsSpotOf};
ghost use Rattle.ve_tree.specs.Way.{IsBefore, IsBeforeEnd, EndsBeforeEnd, IsSomeTree, IsInside};
ghost use Rattle.ve_tree.specs.TreeOf.{HasOffset};

use crate::{Arena, NodeId, NodeWhat, Tree};

/// Where an offset lies in a tree.
#[derive(Clone, Copy, Debug, PartialEq, Eq)]
pub struct Spot {
    /// The innermost node round the offset, text nodes aside.
    pub node: NodeId,
    /// The child of that node which ends after the offset and doesn't begin after it; none at the
    /// end of what is inside the node.
    pub next: Option<NodeId>,
    /// How many items of that child lie before the offset: none, unless it is a text node.
    pub left: usize,
}

/// The spot of an offset that lies in a node, or at its start: the innermost node is the node's
/// parent, the node, or one inside it.
fn spot_inside(tree: &Tree, near: NodeId, left: usize, o: usize) -> Spot
    requires offset { HasOffset tree.now o }
    requires near { IsBefore tree.now.arena.slots tree.now.root o near left }
    requires inside { IsInside tree.now.arena.slots near left }
    ensures { IsSpotOf tree.now.arena.slots tree.now.root o result }
{
    let Some(parent) = tree.arena.node(near).parent else {
        unreachable!()
    };
    let mut inner = parent;
    let mut next = Some(near);
    // how many items there are from where `next` begins to the offset
    let mut left = left;
    while let Some(child) = next {
        let node = tree.arena.node(child);
        if node.len <= left {
            left -= node.len;
            next = node.after;
        } else if left == 0 {
            return Spot {
                node: inner,
                next: Some(child),
                left,
            };
        } else {
            match node.what {
                NodeWhat::Run => {
                    return Spot {
                        node: inner,
                        next: Some(child),
                        left,
                    };
                }
                NodeWhat::Node(_) => {
                    inner = child;
                    left -= 1;
                    next = node.first;
                }
            }
        }
    }
    Spot {
        node: inner,
        next: None,
        left: 0,
    }
}

/// The spot of an offset, found from a node that begins `left` items before it. The walk goes along
/// its siblings, up where there are no more, and down into the one that holds the offset. Each step
/// passes an item at least, so there are no more than lie between the two positions.
pub fn spot_near(tree: &Tree, near: NodeId, left: usize, o: usize) -> Spot
    requires offset { HasOffset tree.now o }
    requires near { IsBefore tree.now.arena.slots tree.now.root o near left }
    ensures { IsSpotOf tree.now.arena.slots tree.now.root o result }
{
    let len = tree.arena.node(near).len;
    if left < len {
        return spot_inside(tree, near, left, o);
    }
    // how many items there are from the end of the node `at` to the offset
    let mut left = left - len;
    let mut at = near;
    loop {
        let node = tree.arena.node(at);
        if let Some(after) = node.after {
            let len = tree.arena.node(after).len;
            if left < len {
                return spot_inside(tree, after, left, o);
            }
            left -= len;
            at = after;
        } else {
            let Some(parent) = node.parent else {
                unreachable!()
            };
            if left == 0 {
                return Spot {
                    node: parent,
                    next: None,
                    left: 0,
                };
            }
            left -= 1; // the closing of the parent round the node
            at = parent;
        }
    }
}

/// The node that begins next after the end of a node, which ends `left` items before the list's
/// end. It is the next sibling of the innermost node round it that has one. With it, how many items
/// lie from its start to the list's end.
pub fn following(arena: &Arena, root: NodeId, n: NodeId, left: usize) -> Option<(NodeId, usize)>
    requires tree { IsSomeTree arena.now.slots root }
    requires ends { EndsBeforeEnd arena.now.slots root n left }
    ensures begins { IfSome result (λ next. IsBeforeEnd arena.now.slots root next.0 next.1) }
    ensures farther { IfSome result (λ next. next.1 ≤ left) }
{
    let mut left = left;
    let mut at = n;
    loop {
        let node = arena.node(at);
        if let Some(after) = node.after {
            return Some((after, left));
        }
        if left == 0 {
            return None;
        }
        let Some(parent) = node.parent else {
            unreachable!()
        };
        left -= 1; // the parent's closing
        at = parent;
    }
}
