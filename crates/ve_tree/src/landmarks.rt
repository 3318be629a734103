// Nodes whose positions are known, so that a look-up can begin near its offset.
ghost use Rattle.std.specs.Prelude.{◌≡◌, ◌≤◌, ◌<◌, ◌+◌, ◌^◌, ◌++◌, [], None, IfSome, OnOk, OnErr, suc, sum, length, take, drop};
ghost use Rattle.ve_tree.specs.Landmarks.{IsLandmark, IsLandmarkBefore, IsNumbered, HasSpace, IsShortened, HasOneMore};
ghost use Rattle.ve_tree.specs.Landmarks.{IsCut, EndBefore, Stay, IsClosedUp};

use crate::NodeId;
use std::alloc::Global;
use std::marker::Model;
use ve_base::Memory;
use ve_lengths::Lengths;

/// Appends until there is an element at a position.
fn make_place(ranks: &mut Vec<usize>, place: usize) -> Result<(), Memory>
    ensures { OnOk result (place < length ranks.new.items) }
{
    while ranks.len() <= place {
        ranks.push(0)?;
    }
    Ok(())
}

/// Notes where the nodes from one up to another stand, as far as there is room for their numbers.
fn rank(ranks: &mut [usize], nodes: &[NodeId], first: usize, end: usize) {
    for k in first..end {
        if let Some(n) = nodes.get(k)
            && let Some(place) = ranks.get_mut(n.0)
        {
            *place = k;
        }
    }
}

/// Takes from one of some lengths, if there is one with that number.
fn shorten(lens: &mut Lengths, k: usize, by: usize)
    requires { HasSpace lens.old.lens k by }
    ensures lens { IsShortened lens.old.lens lens.new.lens k by }
    ensures fits { sum lens.new.lens + by < 2 ^ 64 }
    ensures room { lens.new.room ≡ lens.old.room }
{
    let total = lens.total();
    prove!(total <= usize::MAX);
    if k < lens.len() {
        lens.shrink(k, by);
    }
}

/// How many of some lengths, from the first on, end before a position.
fn ends_before(lens: &Lengths, place: usize) -> usize
    ensures { EndBefore lens.now.lens place result }
{
    if place == 0 {
        return 0;
    }
    if lens.total() < place {
        return lens.len();
    }
    let (k, _past) = lens.find(place - 1);
    k
}

/// How many landmarks, from the first on, stay where they are when those from a position on go.
/// They are those that begin before it. The root, if it is the first one, is among them even at the
/// list's start.
fn staying(nodes: &[NodeId], gaps: &Lengths, root: NodeId, from: usize) -> usize
    requires { length nodes.now ≡ length gaps.now.lens }
    ensures { Stay nodes.now gaps.now.lens root from result }
{
    let low = ends_before(gaps, from);
    if low == 0 && nodes.len() > 0 && nodes[0] == root && gaps.get(0) == 0 {
        return 1;
    }
    low
}

/// Takes the nodes from one up to another out.
fn cut_out(nodes: &mut Vec<NodeId>, from: usize, to: usize)
    requires order { from ≤ to }
    requires within { to ≤ length nodes.old.items }
    ensures { nodes.new.items ≡ take from nodes.old.items ++ drop to nodes.old.items }
{
    if from == to {
        return;
    }
    let len = nodes.len();
    nodes[from..].rotate_left(to - from);
    nodes.truncate(len - (to - from));
}

/// Takes the lengths from one up to another out. The one after them ends where it did, but for so
/// many positions less and so many more.
fn close_up(lens: &mut Lengths, low: usize, high: usize, less: usize, more: usize)
    requires order { low ≤ high }
    requires within { high ≤ length lens.old.lens }
    requires long { high < length lens.old.lens
        → sum (take low lens.old.lens) + less ≤ sum (take (suc high) lens.old.lens) }
    requires fits { sum lens.old.lens + more < 2 ^ 64 }
    ensures { IsClosedUp lens.old.lens lens.new.lens low high less more }
{
    let gone = lens.start(high) - lens.start(low);
    lens.take_out(low, high);
    if low < lens.len() {
        lens.grow(low, gone + more);
        lens.shrink(low, less);
    }
}

/// Some nodes of a tree in the order of their starts, each with how far its start is from that of
/// the one before, seen as these two lists. Where they are dense, look-ups are short; no contract
/// asks for that.
#[derive(Drop)]
pub struct Landmarks {
    nodes: Vec<NodeId>,
    gaps: Lengths,
    // by a node's number where it may stand among them; to be looked at before it is believed
    ranks: Vec<usize>,
}

impl Model for Landmarks {
    ghost use Rattle.std.specs.Prelude.{◌≡◌, length};
    ghost use Rattle.ve_tree.specs.Landmarks.{LandmarkRow};

    ghost Value = { LandmarkRow };

    ghost view = { λ l. record { nodes = l.nodes.items; gaps = l.gaps.lens } };

    ghost invariant = { λ l. length l.nodes.items ≡ length l.gaps.lens };
}

impl Landmarks {
    /// No landmarks. It takes no memory.
    pub fn new(alloc: Global) -> Landmarks
        ensures { result ≡ record { nodes = []; gaps = [] } }
    {
        Landmarks {
            nodes: Vec::new(alloc),
            gaps: Lengths::new(alloc),
            ranks: Vec::new(alloc),
        }
    }

    /// Takes all landmarks out. Their memory stays, so that as many can be put in again.
    pub(crate) fn clear(&mut self)
        ensures { self.new ≡ record { nodes = []; gaps = [] } }
    {
        self.nodes.clear();
        self.gaps.take_out(0, self.gaps.len());
    }

    /// The last landmark that begins at an offset or before it, and where it begins.
    pub fn before(&self, o: usize) -> Option<(NodeId, usize)>
        ensures { IfSome result (λ mark. IsLandmarkBefore self.now o mark.0 mark.1) }
    {
        if o < self.gaps.total() {
            let (next, past) = self.gaps.find(o);
            if next == 0 {
                return None;
            }
            return Some((self.nodes[next - 1], o - past));
        }
        let len = self.nodes.len();
        if len == 0 {
            return None;
        }
        Some((self.nodes[len - 1], self.gaps.total()))
    }

    /// Where a node begins, if it is a landmark.
    pub fn start_of(&self, n: NodeId) -> Option<usize>
        ensures { IfSome result (λ from. IsLandmark self.now n from) }
    {
        if n.0 >= self.ranks.len() {
            return None;
        }
        let rank = self.ranks[n.0];
        if rank >= self.nodes.len() {
            return None;
        }
        if self.nodes[rank] != n {
            return None;
        }
        Some(self.gaps.start(rank + 1))
    }

    /// A landmark by its number in their order, and where it begins; none past the last.
    pub fn get(&self, k: usize) -> Option<(NodeId, usize)>
        ensures some { IfSome result (λ mark. IsNumbered self.now k mark.0 mark.1) }
        ensures none { result ≡ None → length self.now.gaps ≤ k }
        ensures small { IfSome result (λ mark. k < 2 ^ 63) }
    {
        if k >= self.nodes.len() {
            return None;
        }
        Some((self.nodes[k], self.gaps.start(k + 1)))
    }

    /// Puts in one more landmark, before the one with that number, or at the end. It begins so far
    /// after the start of the one before it, and the one after it begins where it did.
    pub fn insert(&mut self, k: usize, n: NodeId, gap: usize) -> Result<(), Memory>
        requires among { k ≤ length self.old.nodes }
        requires space { HasSpace self.old.gaps k gap }
        ensures ok { OnOk result (HasOneMore self.old self.new k n gap) }
        ensures small { OnOk result (k < 2 ^ 63) }
        ensures err { OnErr result (self.new ≡ self.old) }
    {
        self.gaps.reserve(1)?;
        make_place(&mut self.ranks, n.0)?;
        self.nodes.insert(k, n)?;
        shorten(&mut self.gaps, k, gap);
        self.gaps.put_in(k, gap);
        Ok(())
    }

    /// How many landmarks there are.
    pub(crate) fn len(&self) -> usize {
        self.nodes.len()
    }

    /// Notes where landmarks stand, from one on, where there were so many before some were taken
    /// out and put in, and so many stand behind these. Those behind are noted anew only where their
    /// numbers changed.
    pub(crate) fn rank(&mut self, first: usize, was: usize, behind: usize)
        ensures { self.new ≡ self.old }
    {
        let count = self.nodes.len();
        let end = if count == was {
            count.saturating_sub(behind)
        } else {
            count
        };
        rank(&mut self.ranks, &self.nodes, first, end);
    }

    /// Takes out the landmarks that begin between two positions, and moves those that begin later:
    /// back by the distance of the two, and on by `len` items. The root stays. What else begins at
    /// the list's start goes where the first position is there. It sees by itself that there is a
    /// gap for each node. Gives the number of the last one before the first position, from where
    /// the gap is to be filled again, and how many stand behind it.
    pub(crate) fn cut(&mut self, root: NodeId, from: usize, to: usize, len: usize) -> (usize, usize)
        requires order { from ≤ to }
        requires fits { length self.old.nodes ≡ length self.old.gaps
            → sum self.old.gaps + len < 2 ^ 64 }
        ensures { IsCut self.old self.new root from to len }
    {
        let low = staying(&self.nodes, &self.gaps, root, from);
        let high = low.max(ends_before(&self.gaps, to.max(1)));
        cut_out(&mut self.nodes, low, high);
        close_up(&mut self.gaps, low, high, to - from, len);
        (low.saturating_sub(1), self.nodes.len().saturating_sub(low))
    }
}
