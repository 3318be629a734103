// Where something may be put: the nodes that are open at an offset, and how many of them pieces
// have to leave.
ghost use Rattle.std.specs.Prelude.{◌≡◌, ◌≤◌, true, false, None, IfSome, length};
ghost use Rattle.model_items.specs.Law.{top};
ghost use Rattle.model_items.specs.Plain.{plain_list};
ghost use Rattle.model_edit.specs.Insert as model;
ghost use Rattle.ve_offsets.specs.Docs.{IsDoc};
ghost use Rattle.ve_build_insert.specs.Placed.{framed, ArePlaced, IsOpenAt};

use crate::pieces::{is_mixed, may_hold_pieces, wants_paragraph};
use ve_edits::is_internal;
use ve_items::Item;
use ve_kinds::{Kind, is_leaf};
use ve_offsets::{Doc, State, state_at};

/// Where pieces are to stand: whether in a paragraph of their own, and how many of the open nodes
/// they leave.
#[derive(Clone, Copy)]
pub struct Place {
    pub paragraph: bool,
    pub levels: usize,
}

/// The innermost open kind, or the root.
pub fn innermost(state: &State) -> Kind
    ensures { result ≡ top state.now.stack }
{
    if state.depth() == 0 {
        return Kind::Root;
    }
    state.kind(0)
}

/// The open kinds at an offset, unless nothing can be put there: it is the list's end or past it,
/// or inside a leaf.
pub fn open_at(doc: Doc<'_>, at: usize) -> Option<State>
    requires doc { IsDoc doc }
    ensures none { result ≡ None
        → (values : _)
        → model.is_bad_offset (plain_list values doc.entry.list.now.items) at ≡ true }
    ensures some { IfSome result (IsOpenAt doc.entry.list.now.items at) }
{
    if at >= doc.list.len() {
        return None;
    }
    let state = state_at(doc, at);
    if is_leaf(innermost(&state)) {
        return None;
    }
    Some(state)
}

/// Whether nothing can be put at an offset.
pub fn is_bad_offset(doc: Doc<'_>, at: usize) -> bool
    requires doc { IsDoc doc }
    ensures { (values : _)
        → result ≡ model.is_bad_offset (plain_list values doc.entry.list.now.items) at }
{
    match open_at(doc, at) {
        Some(_) => false,
        None => true,
    }
}

/// How far out the innermost kind stands that may hold the pieces, or the paragraph that they are
/// to stand in, the root past the outermost. No internal list or item is left.
fn levels_up(state: &State, pieces: &[Item], paragraph: bool) -> Option<usize>
    ensures means { (values : _)
        → result
        ≡ model.levels_up (framed paragraph (plain_list values pieces.now)) state.now.stack }
    ensures within { IfSome result (λ levels. levels ≤ length state.now.stack) }
{
    let depth = state.depth();
    for level in 0..depth {
        let kind = state.kind(level);
        if may_hold_pieces(kind, pieces, paragraph) {
            return Some(level);
        }
        if is_internal(kind) {
            return None;
        }
    }
    if may_hold_pieces(Kind::Root, pieces, paragraph) {
        return Some(depth);
    }
    None
}

/// Where pieces are to stand where these kinds are open; none where no open kind may hold them, or
/// where they are content and blocks side by side.
pub fn place_of(state: &State, pieces: &[Item]) -> Option<Place>
    ensures means { ArePlaced state.now.stack pieces.now result }
    ensures within { IfSome result (λ place. place.levels ≤ length state.now.stack) }
{
    if is_mixed(pieces) {
        return None;
    }
    let paragraph = wants_paragraph(innermost(state), pieces);
    let Some(levels) = levels_up(state, pieces, paragraph) else {
        return None;
    };
    Some(Place { paragraph, levels })
}
