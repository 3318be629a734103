// Where the changed range begins: the nodes that are open there, and what stands in front of it.
ghost use Rattle.std.specs.Prelude.{◌≡◌, [], IfOk, OnOk};
ghost use Rattle.ve_tree.specs.TreeOf.{HasOffset, HasNode};
ghost use Rattle.ve_tree.specs.Way.{IsSomeTree};
ghost use Rattle.ve_repair.specs.Plan.{begun_stacks};
ghost use Rattle.ve_repair.specs.Sizing.{with_level};
ghost use Rattle.ve_repair.specs.Start.{opened_level, opened_from, StartsRange, IsBetweenOf, IsEdgeOf, OpensRound};

use crate::plan::{Level, Plan};
use crate::sizes::{OpenFrom, Sizes};
use ve_arena::{NodeId, NodeWhat};
use ve_base::Memory;
use ve_tree::Tree;

/// The start of the changed range, where it is widened to whole texts: the innermost node that is
/// open there, the child that comes next, and the position.
#[derive(Clone, Copy, Drop)]
pub struct Start {
    pub parent: NodeId,
    pub next: Option<NodeId>,
    pub place: usize,
}

/// An open node, the position of its opening, and the last of its children so far.
#[derive(Clone, Copy, Drop)]
pub(crate) struct Opened {
    node: NodeId,
    from: usize,
    last: Option<NodeId>,
}

/// A position between two children of a node: the node, the child before it, the child that comes
/// next, and the position in the list.
#[derive(Clone, Copy)]
pub(crate) struct Edge {
    node: NodeId,
    last: Option<NodeId>,
    next: Option<NodeId>,
    place: usize,
}

/// The position, or the start of the text that ends at it.
fn before_text(tree: &Tree, edge: Edge) -> Edge
    requires tree { IsSomeTree tree.now.arena.slots tree.now.root }
    requires between { IsBetweenOf tree.now.arena.slots tree.now.root edge }
    ensures { IsEdgeOf tree.now.arena.slots tree.now.root edge.place result }
{
    let Some(text) = edge.last else {
        return edge;
    };
    let node = tree.arena.node(text);
    match node.what {
        NodeWhat::Run => Edge {
            node: edge.node,
            last: node.before,
            next: edge.last,
            place: edge.place - node.len,
        },
        NodeWhat::Node(_) => edge,
    }
}

/// A position of the list, or the start of the text that it lies in or that ends at it.
fn edge_at(tree: &Tree, x: usize) -> Edge
    requires { HasOffset tree.now x }
    ensures { IsEdgeOf tree.now.arena.slots tree.now.root x result }
{
    let spot = tree.spot_at(x);
    let Some(child) = spot.next else {
        let edge = Edge {
            node: spot.node,
            last: tree.arena.node(spot.node).last,
            next: None,
            place: x,
        };
        return before_text(tree, edge);
    };
    let node = tree.arena.node(child);
    match node.what {
        NodeWhat::Run => Edge {
            node: spot.node,
            last: node.before,
            next: spot.next,
            place: x - spot.left,
        },
        NodeWhat::Node(_) => {
            let edge = Edge {
                node: spot.node,
                last: node.before,
                next: spot.next,
                place: x,
            };
            before_text(tree, edge)
        }
    }
}

/// The node is open in both lists, inside those that are.
fn begin(inner: Opened, plan: &mut Plan, sizes: &mut Sizes) -> Result<(), Memory>
    ensures stacks { OnOk result (
        plan.new.stacks ≡ begun_stacks (opened_level inner) plan.old.stacks) }
    ensures writes { OnOk result (plan.new.writes ≡ plan.old.writes) }
    ensures sizes { OnOk result (sizes.new ≡ with_level (opened_from inner) sizes.old) }
{
    plan.begin(Level {
        node: inner.node,
        last: inner.last,
    })?;
    sizes.begin(OpenFrom {
        node: inner.node,
        from: inner.from,
    })
}

/// The nodes from the root down to this one are open in both lists. It calls itself once for each,
/// and they stand no deeper than the law allows.
fn begin_round(
    tree: &Tree,
    n: NodeId,
    last: Option<NodeId>,
    plan: &mut Plan,
    sizes: &mut Sizes,
) -> Result<(), Memory>
    requires node { HasNode tree.now n }
    requires old { plan.old.stacks.old ≡ [] }
    requires new { plan.old.stacks.new ≡ [] }
    requires old_open { sizes.old.old_open ≡ [] }
    requires new_open { sizes.old.new_open ≡ [] }
    ensures open_nodes { OnOk result (
        OpensRound tree.now.arena.slots tree.now.root n last plan.new.stacks sizes.new) }
    ensures writes { OnOk result (plan.new.writes ≡ plan.old.writes) }
{
    let inner = Opened {
        node: n,
        from: tree.range_of(n).0,
        last,
    };
    let Some(parent) = tree.arena.node(n).parent else {
        return begin(inner, plan, sizes);
    };
    begin_round(tree, parent, Some(n), plan, sizes)?;
    begin(inner, plan, sizes)
}

/// The start of a range that begins at a position of the list. It is looked up from the landmarks
/// near it, so its cost doesn't grow with the page.
pub(crate) fn start_at(
    tree: &Tree,
    x: usize,
    plan: &mut Plan,
    sizes: &mut Sizes,
) -> Result<Start, Memory>
    requires place { HasOffset tree.now x }
    requires old { plan.old.stacks.old ≡ [] }
    requires new { plan.old.stacks.new ≡ [] }
    requires old_open { sizes.old.old_open ≡ [] }
    requires new_open { sizes.old.new_open ≡ [] }
    ensures start { IfOk result (λ start.
        StartsRange tree.now.arena.slots tree.now.root x start plan.new.stacks sizes.new) }
    ensures writes { OnOk result (plan.new.writes ≡ plan.old.writes) }
{
    let edge = edge_at(tree, x);
    begin_round(tree, edge.node, edge.last, plan, sizes)?;
    sizes.start(edge.place);
    Ok(Start {
        parent: edge.node,
        next: edge.next,
        place: edge.place,
    })
}
