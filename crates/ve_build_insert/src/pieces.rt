// Sorts of pieces: content, blocks, or both side by side, and what may hold them.
ghost use Rattle.std.specs.Prelude.{◌≡◌, ◌+◌, ◌≤◌, ◌<◌, ◌^◌, ◌&&◌, not, IfOk};
ghost use Rattle.std.specs.List.{list_all};
ghost use Rattle.ve_kinds.specs.Table as table;
ghost use Rattle.model_items.specs.Plain.{plain, plain_list};
ghost use Rattle.model_edit.specs.Insert as model;
ghost use Rattle.ve_build_insert.specs.Placed.{item_answer, depth_after, framed, passes_outer, CitesAsPieces, IsPlaced};

use std::alloc::Global;
use ve_base::Memory;
use ve_edits::is_content_item;
use ve_items::{Item, Items};
use ve_kinds::{Kind, is_content_branch, may_hold};

/// A test of each piece that stands in no other.
#[derive(Clone, Copy)]
pub enum Question {
    IsContent,
    IsBlock,
    IsHeldBy(Kind),
}

/// Whether a node of the kind may hold the item, or the node that it opens.
fn may_hold_item(parent: Kind, item: Item) -> bool
    ensures { (values : _) → result ≡ model.may_hold_item parent (plain values item) }
{
    match item {
        Item::Char { .. } => is_content_branch(parent),
        Item::Opening { kind, .. } => may_hold(parent, kind),
        Item::Closing { .. } => false,
    }
}

fn is_so(question: Question, item: Item) -> bool
    ensures { (values : _) → result ≡ item_answer question (plain values item) }
{
    match question {
        Question::IsContent => is_content_item(item),
        Question::IsBlock => !is_content_item(item),
        Question::IsHeldBy(parent) => may_hold_item(parent, item),
    }
}

/// Whether the item answers the question, where it stands in no other piece; closings aren't asked.
fn passes(question: Question, depth: usize, item: Item) -> bool
    ensures { (values : _) → result ≡ passes_outer question depth (plain values item) }
{
    if depth > 0 {
        return true;
    }
    match item {
        Item::Closing { .. } => true,
        Item::Char { .. } | Item::Opening { .. } => is_so(question, item),
    }
}

/// How many pieces are open after an item.
fn opened(depth: usize, item: Item) -> usize
    requires { depth + 1 < 2 ^ 64 }
    ensures { (values : _) → result ≡ depth_after depth (plain values item) }
{
    match item {
        Item::Char { .. } => depth,
        Item::Opening { .. } => depth + 1,
        Item::Closing { .. } => depth.saturating_sub(1),
    }
}

/// Whether each piece that stands in no other is so. `round` says in how many others the first one
/// stands.
fn all_outer(pieces: &[Item], round: usize, question: Question) -> bool
    requires { round ≤ 1 }
    ensures { (values : _)
        → result
        ≡ list_all (item_answer question) (model.outer_items round (plain_list values pieces.now)) }
{
    let mut depth = round;
    for item in pieces {
        if !passes(question, depth, *item) {
            return false;
        }
        depth = opened(depth, *item);
    }
    true
}

/// Whether content and blocks stand side by side.
pub fn is_mixed(pieces: &[Item]) -> bool
    ensures { (values : _) → result ≡ model.is_mixed (plain_list values pieces.now) }
{
    let content = all_outer(pieces, 0, Question::IsContent);
    let blocks = all_outer(pieces, 0, Question::IsBlock);
    !blocks && !content
}

/// Whether the pieces are content that a node of the kind doesn't hold.
pub fn wants_paragraph(parent: Kind, pieces: &[Item]) -> bool
    ensures { (values : _)
        → result
        ≡ (model.is_content_pieces (plain_list values pieces.now)
        && not (table.is_content_branch parent)) }
{
    if is_content_branch(parent) {
        return false;
    }
    all_outer(pieces, 0, Question::IsContent)
}

/// Whether a node of the kind may hold the pieces, or the paragraph that they are to stand in.
pub fn may_hold_pieces(parent: Kind, pieces: &[Item], paragraph: bool) -> bool
    ensures { (values : _)
        → result ≡ model.may_hold_pieces parent (framed paragraph (plain_list values pieces.now)) }
{
    if !paragraph {
        return all_outer(pieces, 0, Question::IsHeldBy(parent));
    }
    if !may_hold(parent, Kind::P) {
        return false;
    }
    all_outer(pieces, 1, Question::IsHeldBy(parent))
}

/// The pieces, in a paragraph where they are to stand in one.
pub fn in_paragraph(alloc: Global, paragraph: bool, pieces: &[Item]) -> Result<Items, Memory>
    ensures means { IfOk result (IsPlaced paragraph pieces.now) }
    ensures cites { IfOk result (CitesAsPieces pieces.now) }
{
    let mut placed = Items::new(alloc);
    if !paragraph {
        placed.extend(pieces)?;
        return Ok(placed);
    }
    placed.push(Item::Opening {
        kind: Kind::P,
        generated: false,
        head: None,
        marks: None,
        pre: None,
        origin: None,
    })?;
    placed.extend(pieces)?;
    placed.push(Item::Closing {
        kind: Kind::P,
        pre: None,
    })?;
    Ok(placed)
}
