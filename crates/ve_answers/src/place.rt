// The innermost node round an offset, and the nearest content offset.
ghost use Rattle.std.specs.Prelude.{◌≡◌, ◌≤◌, length};
ghost use Rattle.model_items.specs.Tree.{class_at, node_at};
ghost use Rattle.model_world.specs.Answers.{content_near};
ghost use Rattle.ve_answers.specs.Replies.{near_reply, node_reply};
ghost use Rattle.ve_offsets.specs.Docs.{page_items, IsDoc};
ghost use Rattle.ve_json.specs.Answers.{reply_of, AnswerCites};
ghost use Rattle.ve_tree.specs.IsTree.{unvalued};

use model_edit::Dir;
use model_items::OffsetClass;
use model_world::Refusal;
use ve_json::Answer;
use ve_offsets::{Doc, content_ahead, content_back, is_content, is_inside_leaf};

/// The class of an offset.
fn class_at(doc: Doc<'_>, at: usize) -> OffsetClass
    requires doc { IsDoc doc }
    requires within { at ≤ length doc.list.now.items }
    ensures { result ≡ class_at (unvalued doc.entry.list.now.items) at }
{
    if is_content(doc, at) {
        return OffsetClass::Content;
    }
    if is_inside_leaf(doc, at) {
        OffsetClass::Inside
    } else {
        OffsetClass::Structural
    }
}

/// The innermost node round an offset of the list, and the offset's class.
fn node_within<'a>(doc: Doc<'a>, at: usize) -> Answer<'a>
    requires doc { IsDoc doc }
    requires within { at ≤ length doc.list.now.items }
    ensures { let place = node_at (unvalued doc.entry.list.now.items) at in
        result ≡ Answer.At place.kind place.from place.to (class_at (unvalued doc.entry.list.now.items) at) }
{
    let node = doc.tree.node_at(at);
    let (from, to) = doc.tree.range_of(node);
    Answer::At {
        kind: doc.tree.kind_of(node),
        from,
        to,
        class: class_at(doc, at),
    }
}

/// To `at`: the innermost node round an offset with its range, and the offset's class; or it is
/// past the list's end. The tree tells it.
pub fn node<'a>(doc: Doc<'a>, at: usize) -> Answer<'a>
    requires doc { IsDoc doc }
    ensures reply { reply_of result ≡ node_reply (page_items doc.entry) at }
    ensures cites { AnswerCites result }
{
    if doc.list.len() < at {
        return Answer::No(Refusal::BadOffset { at });
    }
    node_within(doc, at)
}

/// The nearest content offset at an offset of the list, or beyond it on one side.
fn content_near(doc: Doc<'_>, at: usize, dir: Dir) -> Option<usize>
    requires doc { IsDoc doc }
    requires within { at ≤ length doc.list.now.items }
    ensures { result ≡ content_near (unvalued doc.entry.list.now.items) at dir }
{
    match dir {
        Dir::Back => content_back(doc, at),
        Dir::Ahead => content_ahead(doc, at),
    }
}

/// To `near`: the nearest content offset at an offset, or beyond it on one side; or there is none, or the offset is past the
/// list's end.
pub fn near<'a>(doc: Doc<'a>, at: usize, dir: Dir) -> Answer<'a>
    requires doc { IsDoc doc }
    ensures reply { reply_of result ≡ near_reply (page_items doc.entry) at dir }
    ensures cites { AnswerCites result }
{
    if doc.list.len() < at {
        return Answer::No(Refusal::BadOffset { at });
    }
    match content_near(doc, at, dir) {
        Some(offset) => Answer::Offset(offset),
        None => Answer::No(Refusal::Edge { at }),
    }
}
