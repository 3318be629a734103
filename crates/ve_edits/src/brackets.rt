// The other bracket of a node, and the node round an offset, by the tree.
ghost use Rattle.std.specs.Prelude.{◌≡◌, ◌≤◌, ◌<◌, [], ◌&&◌, not, nat_le, nat_lt, length};
ghost use Rattle.ve_kinds.specs.Table.{kind_same};
ghost use Rattle.model_items.specs.Plain.{plain_list};
ghost use Rattle.model_items.specs.Tree.{node_at};
ghost use Rattle.model_items.specs.Offsets as model;
ghost use Rattle.ve_edits.specs.Round.{IsOpeningRound};
ghost use Rattle.ve_offsets.specs.Docs.{IsDoc};
ghost use Rattle.ve_tree.specs.IsTree.{unvalued};

use ve_items::Item;
use ve_kinds::Kind;
use ve_offsets::Doc;

/// Whether two kinds are one.
pub fn same_kind(one: Kind, other: Kind) -> bool
    ensures { result ≡ kind_same one other }
{
    one == other
}

/// Where the innermost node round an offset begins, and just past where it ends; for the root 0 and
/// the length.
pub fn range_round(doc: Doc<'_>, o: usize) -> (usize, usize)
    requires doc { IsDoc doc }
    requires within { o ≤ length doc.list.now.items }
    ensures { let place = node_at (unvalued doc.entry.list.now.items) o in result
        ≡ (place.from, place.to) }
{
    doc.tree.range_of(doc.tree.node_at(o))
}

/// Where the innermost node that is open at an offset begins. From there on, the next call gives
/// the next one further out.
pub fn opening_round(doc: Doc<'_>, o: usize) -> usize
    requires doc { IsDoc doc }
    requires within { o ≤ length doc.list.now.items }
    requires open { model.opens_at (unvalued doc.list.now.items) o ≡ [] → ⊥ }
    ensures { (values : _) → IsOpeningRound values doc.entry.list.now.items o result }
{
    let (from, _) = range_round(doc, o);
    from
}

/// The position of the other bracket of the node that the item opens or closes; a character is its
/// own.
pub fn partner(doc: Doc<'_>, at: usize) -> usize
    requires doc { IsDoc doc }
    requires within { at < length doc.list.now.items }
    ensures { (values : _)
        → result ≡ model.partner (plain_list values doc.entry.list.now.items) at }
{
    match doc.list.get(at) {
        Item::Char { .. } => at,
        Item::Opening { .. } => {
            let len = doc.list.len();
            prove!(at < len);
            let (_, to) = range_round(doc, at + 1);
            to - 1
        }
        Item::Closing { .. } => {
            let (from, _) = range_round(doc, at);
            from
        }
    }
}

/// Whether a position is not in a range.
fn is_outside(place: usize, from: usize, to: usize) -> bool
    ensures { result ≡ not (nat_le from place && nat_lt place to) }
{
    if place < from {
        return true;
    }
    place >= to
}

/// Whether the partner of the item at a position is not in a range.
pub fn is_unmatched(doc: Doc<'_>, from: usize, to: usize, at: usize) -> bool
    requires doc { IsDoc doc }
    requires within { at < length doc.list.now.items }
    ensures { (values : _)
        → result ≡ model.is_unmatched (plain_list values doc.entry.list.now.items) from to at }
{
    is_outside(partner(doc, at), from, to)
}
