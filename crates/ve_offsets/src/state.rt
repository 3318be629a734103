// The open kinds at an offset, found by the tree's links.
ghost use Rattle.std.specs.Prelude.{◌≡◌, ◌≤◌, ◌<◌, IsOk, Ok, length};
ghost use Rattle.model_items.specs.Law as law;
ghost use Rattle.ve_offsets.specs.Docs.{IsDoc};
ghost use Rattle.ve_offsets.specs.States.{IsStateAt, IsStateRound, IsRoundSome};
ghost use Rattle.ve_tree.specs.IsTree.{unvalued};

use crate::Doc;
use ve_base::MAX_OPEN_KINDS;
use ve_items::Item;
use ve_kinds::Kind;
use ve_lawful::State;
use ve_tree::{NodeId, NodeWhat};

/// Opens a node of a kind, where it may be opened.
fn enter(state: &mut State, kind: Kind)
    requires { IsOk (law.state_opened state.old kind) }
    ensures { law.state_opened state.old kind ≡ Ok state.new }
{
    let opening = Item::Opening {
        kind,
        head: None,
        marks: None,
        pre: None,
        origin: None,
        generated: false,
    };
    match state.step(opening) {
        Ok(()) => {}
        Err(_) => unreachable!(),
    }
}

/// The state in which a list ends: nothing is open, and the internal list was closed.
fn finished() -> State
    ensures { result ≡ law.finish }
{
    let mut state = State::root();
    enter(&mut state, Kind::InternalList);
    let closing = Item::Closing {
        kind: Kind::InternalList,
        pre: None,
    };
    match state.step(closing) {
        Ok(()) => state,
        Err(_) => unreachable!(),
    }
}

/// Enters the nodes round a node from the outermost in, and then the node itself; of the root
/// nothing. There are at most so many of them.
fn enter_round(state: &mut State, doc: Doc<'_>, n: NodeId, levels: usize)
    requires doc { IsDoc doc }
    requires start { state.old ≡ law.start }
    requires round { IsRoundSome doc.tree.now.arena.slots doc.tree.now.root
        (unvalued doc.list.now.items) n levels }
    ensures { IsStateRound doc.entry.tree.now.arena.slots doc.entry.tree.now.root
        doc.entry.list.now.items n state.new }
{
    if n.0 == doc.tree.root.0 {
        return;
    }
    let node = doc.tree.arena.node(n);
    let Some(parent) = node.parent else {
        unreachable!()
    };
    let NodeWhat::Node(kind) = node.what else {
        unreachable!()
    };
    enter_round(state, doc, parent, levels - 1);
    enter(state, kind);
}

/// The state before the list's end: the kinds of the nodes round the offset, entered from the root
/// down.
fn state_within(doc: Doc<'_>, o: usize) -> State
    requires doc { IsDoc doc }
    requires within { o < length doc.list.now.items }
    ensures { IsStateAt doc.entry.list.now.items o result }
{
    let mut state = State::root();
    enter_round(&mut state, doc, doc.tree.node_at(o), MAX_OPEN_KINDS);
    state
}

/// The open kinds at an offset, and whether the internal list was opened before it: the law's state
/// after the items before the offset. It goes up from the innermost node round the offset, and
/// reads no item.
pub fn state_at(doc: Doc<'_>, o: usize) -> State
    requires doc { IsDoc doc }
    requires within { o ≤ length doc.list.now.items }
    ensures { IsStateAt doc.entry.list.now.items o result }
{
    if o == doc.list.len() {
        return finished();
    }
    state_within(doc, o)
}
