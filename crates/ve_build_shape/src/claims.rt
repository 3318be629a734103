// Whether the brackets that are to go stand where they must.
ghost use Rattle.std.specs.Prelude.{◌≡◌, ◌≤◌, ◌<◌, ◌+◌, ◌==◌, true, None, length, flat_map};
ghost use Rattle.model_items.specs.Offsets as offsets;
ghost use Rattle.model_items.specs.Plain.{plain, plain_list};
ghost use Rattle.model_edit.specs.Brackets.{is_opening_of};
ghost use Rattle.model_edit.specs.Wrap.{opening_claims, closing_claims, node_claims, first_wrong};
ghost use Rattle.ve_offsets.specs.Docs.{IsDoc};
ghost use Rattle.ve_build_shape.specs.Nodes.{AreWithin, begins_kind, wrong_among};

use ve_edits::{partner, same_kind};
use ve_items::Item;
use ve_kinds::Kind;
use ve_offsets::Doc;

/// Whether the item opens a node of the kind.
fn opens(item: Item, kind: Kind) -> bool
    ensures { (values : _) → result ≡ is_opening_of kind (plain values item) }
{
    match item {
        Item::Char { .. } => false,
        Item::Closing { .. } => false,
        Item::Opening { kind: opened, .. } => same_kind(opened, kind),
    }
}

/// Whether a node of the kind begins at a position.
fn begins(doc: Doc<'_>, at: usize, kind: Kind) -> bool
    ensures within { result ≡ true → at < length doc.entry.list.now.items }
    ensures means { (values : _)
        → result ≡ begins_kind kind (plain_list values doc.entry.list.now.items) at }
{
    if at >= doc.list.len() {
        return false;
    }
    opens(doc.list.get(at), kind)
}

/// Just past the node that begins at a position.
pub fn end_of_node(doc: Doc<'_>, at: usize) -> usize
    requires doc { IsDoc doc }
    requires within { at < length doc.list.now.items }
    ensures within { result ≤ length doc.entry.list.now.items }
    ensures means { (values : _)
        → result ≡ offsets.end_of_node (plain_list values doc.entry.list.now.items) at }
{
    let other = partner(doc, at);
    let len = doc.list.len();
    prove!(other < len);
    other + 1
}

/// The first position, from one on, where no node of the next kind begins.
fn wrong_opening(doc: Doc<'_>, at: usize, kinds: &[Kind]) -> Option<usize>
    requires within { at ≤ length doc.list.now.items }
    ensures means { (values : _)
        → result
        ≡ first_wrong (opening_claims (plain_list values doc.entry.list.now.items) at kinds.now) }
    ensures room { result ≡ None → at + length kinds.now ≤ length doc.entry.list.now.items }
{
    let len = doc.list.len();
    for i in 0..kinds.len() {
        prove!(i <= len - at);
        let place = at + i;
        if !begins(doc, place, kinds[i]) {
            return Some(place);
        }
    }
    None
}

/// Whether the node that begins at a position ends with the item at another.
fn ends_with(doc: Doc<'_>, opening: usize, place: usize) -> bool
    requires doc { IsDoc doc }
    requires within { opening < length doc.list.now.items }
    ensures within { result ≡ true → place < length doc.entry.list.now.items }
    ensures means { (values : _)
        → result ≡ (offsets.partner (plain_list values doc.entry.list.now.items) opening == place) }
{
    partner(doc, opening) == place
}

/// The first position, from one on, where the next closing doesn't stand. So many nodes begin one
/// after the other at `first`, and their closings are to stand there, the innermost first.
fn wrong_closing(doc: Doc<'_>, first: usize, count: usize, at: usize) -> Option<usize>
    requires doc { IsDoc doc }
    requires openings { first + count ≤ length doc.list.now.items }
    requires within { at ≤ length doc.list.now.items }
    ensures { (values : _)
        → result ≡ first_wrong (
        closing_claims (plain_list values doc.entry.list.now.items) first count at) }
{
    let len = doc.list.len();
    let mut left = count;
    let mut place = at;
    while left > 0 {
        left -= 1;
        if !ends_with(doc, first + left, place) {
            return Some(place);
        }
        prove!(place < len);
        place += 1;
    }
    None
}

/// The first wrong position in the node that begins at a position: of these kinds are to be its
/// first brackets, and its last ones their closings.
fn wrong_in_node(doc: Doc<'_>, at: usize, kinds: &[Kind]) -> Option<usize>
    requires doc { IsDoc doc }
    requires within { at < length doc.list.now.items }
    ensures { (values : _)
        → result
        ≡ first_wrong (node_claims (plain_list values doc.entry.list.now.items) kinds.now at) }
{
    if let Some(place) = wrong_opening(doc, at, kinds) {
        return Some(place);
    }
    let count = kinds.len();
    let end = end_of_node(doc, at);
    let last = end.saturating_sub(count);
    wrong_closing(doc, at, count, last)
}

/// The first wrong position in the nodes that begin at some positions.
fn wrong_in_nodes(doc: Doc<'_>, nodes: &[usize], kinds: &[Kind]) -> Option<usize>
    requires doc { IsDoc doc }
    requires within { AreWithin doc.list.now.items nodes.now }
    ensures { (values : _)
        → result ≡ first_wrong (
        flat_map (node_claims (plain_list values doc.entry.list.now.items) kinds.now)
        nodes.now) }
{
    for i in 0..nodes.len() {
        if let Some(place) = wrong_in_node(doc, nodes[i], kinds) {
            return Some(place);
        }
    }
    None
}

/// The first position, in the list's order, where a bracket that is to go doesn't stand. They are
/// those of the outer kinds round the range, and those of the others at the ends of each node.
/// Where too few items stand before the range it is 0.
pub fn wrong_place(
    doc: Doc<'_>,
    from: usize,
    to: usize,
    nodes: &[usize],
    outer: &[Kind],
    each: &[Kind],
) -> Option<usize>
    requires doc { IsDoc doc }
    requires order { from ≤ to }
    requires within { to ≤ length doc.list.now.items }
    requires nodes { AreWithin doc.list.now.items nodes.now }
    ensures { (values : _)
        → result
        ≡ wrong_among (plain_list values doc.entry.list.now.items) from to outer.now each.now
        nodes.now }
{
    let count = outer.len();
    if from < count {
        return Some(0);
    }
    let first = from - count;
    if let Some(place) = wrong_opening(doc, first, outer) {
        return Some(place);
    }
    if let Some(place) = wrong_in_nodes(doc, nodes, each) {
        return Some(place);
    }
    wrong_closing(doc, first, count, to)
}
