// The choice of landmarks among a tree's nodes.
ghost use Rattle.std.specs.Prelude.{◌≡◌, ◌≤◌, ◌<◌, [], IfOk, IfErr, IfSome};
ghost use Rattle.ve_tree.specs.Landmarks.{AreLandmarks};
ghost use Rattle.ve_tree.specs.Way.{IsSomeTree, IsBeforeEnd};
ghost use Rattle.ve_tree.specs.Gaps.{IsGap};

use crate::landmarks::Landmarks;
use crate::lookup::following;
use crate::{Arena, NodeId};
use std::alloc::Global;
use ve_base::Memory;

/// How many items two landmarks lie apart, at least, but for nodes that are longer: each of these
/// is one, too.
const STRIDE: usize = 192;

/// The first node of a tree under its root, and how many items lie from its start to the list's
/// end: all.
fn first_ahead(arena: &Arena, root: NodeId) -> Option<(NodeId, usize)>
    requires { IsSomeTree arena.now.slots root }
    ensures { IfSome result (λ next. IsBeforeEnd arena.now.slots root next.0 next.1) }
{
    let top = arena.node(root);
    let first = top.first?;
    Some((first, top.len))
}

/// The node to look at after one: its first child, if it is long, else the one that begins next
/// after its end. And how many items lie from its start to the list's end.
fn next_ahead(arena: &Arena, root: NodeId, n: NodeId, left: usize) -> Option<(NodeId, usize)>
    requires tree { IsSomeTree arena.now.slots root }
    requires begins { IsBeforeEnd arena.now.slots root n left }
    ensures begins { IfSome result (λ next. IsBeforeEnd arena.now.slots root next.0 next.1) }
    ensures farther { IfSome result (λ next. next.1 < left) }
{
    let node = arena.node(n);
    if node.len > STRIDE
        && let Some(first) = node.first
    {
        return Some((first, left - 1));
    }
    following(arena, root, n, left - node.len)
}

/// The part of a list between two landmarks: the number of the second, and how many items lie from
/// the start of each to the list's end. After the last one it goes to the list's end.
#[derive(Clone, Copy)]
pub struct Gap {
    pub next: usize,
    pub from: usize,
    pub to: usize,
}

/// The gap after a landmark, and the first node to look at in it, if there is one.
fn gap_after(
    marks: &Landmarks,
    arena: &Arena,
    root: NodeId,
    k: usize,
) -> Option<(Gap, (NodeId, usize))>
    requires tree { IsSomeTree arena.now.slots root }
    requires are { AreLandmarks arena.now.slots root marks.now }
    ensures gap { IfSome result (λ found. IsGap arena.now.slots root marks.now found.0) }
    ensures begins { IfSome result (λ found. IsBeforeEnd arena.now.slots root found.1.0 found.1.1) }
    ensures order { IfSome result (λ found. found.1.1 ≤ found.0.from) }
{
    let (n, start) = marks.get(k)?;
    let all = arena.node(root).len;
    let from = all - start;
    let first = if n.0 != root.0 {
        next_ahead(arena, root, n, from)?
    } else {
        first_ahead(arena, root)?
    };
    let to = match marks.get(k + 1) {
        Some((_, end)) => all - end,
        None => 0,
    };
    Some((
        Gap {
            next: k + 1,
            from,
            to,
        },
        first,
    ))
}

/// Makes a node in a gap a landmark if it ends more than a stride after the gap's start. Gives the
/// gap that is left.
fn offer(
    marks: &mut Landmarks,
    arena: &Arena,
    root: NodeId,
    gap: Gap,
    n: NodeId,
    left: usize,
) -> Result<Gap, Memory>
    requires tree { IsSomeTree arena.now.slots root }
    requires begins { IsBeforeEnd arena.now.slots root n left }
    requires gap { IsGap arena.now.slots root marks.old gap }
    requires after { left ≤ gap.from }
    requires before { gap.to < left }
    ensures gap { IfOk result (λ rest. IsGap arena.now.slots root marks.new rest) }
    ensures ends { IfOk result (λ rest. left ≤ rest.from) }
    ensures err { IfErr result (λ want. AreLandmarks arena.now.slots root marks.new) }
{
    let space = gap.from - left;
    if space + arena.node(n).len <= STRIDE {
        return Ok(gap);
    }
    marks.insert(gap.next, n, space)?;
    Ok(Gap {
        next: gap.next + 1,
        from: left,
        to: gap.to,
    })
}

/// Puts landmarks into the gap after one, going along siblings, and into each node that is longer
/// than a stride. Each node that ends more than a stride after the landmark before it becomes one.
/// Where there is no memory for one, there are no more: they are needed for speed alone.
pub fn thicken(marks: &mut Landmarks, arena: &Arena, root: NodeId, k: usize)
    requires tree { IsSomeTree arena.now.slots root }
    requires are { AreLandmarks arena.now.slots root marks.old }
    ensures { AreLandmarks arena.now.slots root marks.new }
{
    let Some((gap, first)) = gap_after(marks, arena, root, k) else {
        return;
    };
    let mut gap = gap;
    let mut next = Some(first);
    'node: while let Some((n, left)) = next {
        if left <= gap.to {
            return;
        }
        let Ok(rest) = offer(marks, arena, root, gap, n, left) else {
            return;
        };
        gap = rest;
        next = next_ahead(arena, root, n, left);
    }
}

/// Puts landmarks where there are none: the root, and those in the gap after it.
pub fn fill(marks: &mut Landmarks, arena: &Arena, root: NodeId)
    requires tree { IsSomeTree arena.now.slots root }
    requires none { marks.old ≡ record { nodes = []; gaps = [] } }
    ensures { AreLandmarks arena.now.slots root marks.new }
{
    let Ok(()) = marks.insert(0, root, 0) else {
        return;
    };
    thicken(marks, arena, root, 0);
    marks.rank(0, 0, 0);
}

/// The landmarks of a tree: the root, and those in the gap after it.
pub fn landmarks_of(alloc: Global, arena: &Arena, root: NodeId) -> Landmarks
    requires { IsSomeTree arena.now.slots root }
    ensures { AreLandmarks arena.now.slots root result }
{
    let mut marks = Landmarks::new(alloc);
    fill(&mut marks, arena, root);
    marks
}
