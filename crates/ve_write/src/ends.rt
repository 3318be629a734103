// The ends of siblings, and the rest after the node that they stand in.
ghost use Rattle.std.specs.Prelude.{List, true, ◌≡◌, ◌≤◌, ◌<◌, ◌+◌, ◌^◌, length, drop};
ghost use Rattle.ve_base.specs.declared.value.Value.{Value as Cited};
ghost use Rattle.model_items.specs.Plain.{CitesWhite};
ghost use Rattle.ve_write.specs.Siblings.{AllCite, Ends, is_end};
ghost use Rattle.ve_write.specs.After.{Follows};
ghost use Rattle.ve_write.specs.Passing.{Passes, IsClosed};

use model_items::Item;
use ve_base::ValueId;
use ve_items::Linear;

/// Whether siblings end at a position: a closing stands there, or the list ends.
pub fn ends_at(list: &Linear, at: usize) -> bool
    requires { at ≤ length list.now.items }
    ensures { result ≡ is_end (drop at list.now.items) }
{
    if at == list.len() {
        return true;
    }
    match list.get(at) {
        Item::Closing { .. } => true,
        Item::Char { .. } => false,
        Item::Opening { .. } => false,
    }
}

/// How many items of a piece were passed, and how many nodes are open there. Where not all were, a
/// closing follows that closes none of these nodes.
#[derive(Clone, Copy, Debug)]
struct Passed {
    count: usize,
    depth: usize,
}

/// Passes the items of a piece, where so many nodes are open before it, up to the closing of their
/// parent.
fn pass(items: &[Item], depth: usize) -> Passed
    requires { depth + length items.now < 2 ^ 64 }
    ensures inside { Passes items.now depth result }
    ensures closed { result.count < length items.now → IsClosed items.now result }
    ensures within { result.count ≤ length items.now }
    ensures shallow { result.depth ≤ depth + result.count }
{
    let mut depth = depth;
    let mut count = 0;
    while count < items.len() {
        match items[count] {
            Item::Char { .. } => {}
            Item::Opening { .. } => depth += 1,
            Item::Closing { .. } => {
                if depth == 0 {
                    return Passed { count, depth };
                }
                depth -= 1;
            }
        }
        count += 1;
    }
    Passed { count, depth }
}

/// The end of the siblings that begin at a position: where their parent closes, or the list's end.
/// It goes over borrowed pieces.
pub fn siblings_end(list: &Linear, from: usize) -> usize
    requires { from ≤ length list.now.items }
    ensures end { Ends list.now.items from result }
    ensures closed { is_end (drop result list.now.items) ≡ true }
    ensures more { from ≤ result }
    ensures within { result ≤ length list.now.items }
{
    let len = list.len();
    let mut depth = 0;
    let mut at = from;
    while at < len {
        let piece = list.piece(at, len);
        let passed = pass(piece, depth);
        at += passed.count;
        if passed.count < piece.len() {
            return at;
        }
        depth = passed.depth;
    }
    at
}

/// The end of a node's siblings: the whitespace before its closing, and the position after it.
#[derive(Clone, Copy, Debug)]
pub struct After {
    pub pre: Option<ValueId>,
    pub at: usize,
}

/// The end of the siblings that end at a position. Where the list ends there, nothing follows.
pub fn after_siblings(list: &Linear, end: usize) -> After
    requires within { end ≤ length list.now.items }
    requires ends { is_end (drop end list.now.items) ≡ true }
    ensures more { end ≤ result.at }
    ensures within { result.at ≤ length list.now.items }
    ensures follows { Follows list.now.items end result }
    ensures cites { (values : List Cited)
        → AllCite values list.now.items
        → CitesWhite values result.pre }
{
    if end == list.len() {
        return After { pre: None, at: end };
    }
    match list.get(end) {
        Item::Closing { pre, .. } => After { pre, at: end + 1 },
        Item::Char { .. } => unreachable!(),
        Item::Opening { .. } => unreachable!(),
    }
}
