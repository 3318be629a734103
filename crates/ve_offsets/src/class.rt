// The class of an offset, by the item before it.
ghost use Rattle.std.specs.Prelude.{◌≡◌, ◌≤◌, ◌↔◌, IsTrue, length};
ghost use Rattle.model_items.specs.Tree as model;
ghost use Rattle.ve_offsets.specs.Classes as classes;
ghost use Rattle.ve_offsets.specs.Classes.{IsContent, IsInsideLeaf, IsStructural};
ghost use Rattle.ve_tree.specs.IsTree.{unvalued};
ghost use Rattle.ve_offsets.specs.Docs.{IsDoc};

use crate::Doc;
use model_items::OffsetClass;
use ve_items::Item;
use ve_kinds::{Kind, is_content_branch, is_inline_leaf, is_leaf};

/// The class of the offsets that lie in a node of a kind, and in none of its children.
fn class_in(kind: Kind) -> OffsetClass
    ensures { result ≡ model.class_in kind }
{
    if is_content_branch(kind) {
        OffsetClass::Content
    } else if is_leaf(kind) {
        OffsetClass::Inside
    } else {
        OffsetClass::Structural
    }
}

/// The class of the offset after an item. After a closing it lies in what holds the closed node,
/// which is a content branch for an inline leaf alone.
pub fn class_after(item: Item) -> OffsetClass
    ensures { result ≡ classes.class_after item }
{
    match item {
        Item::Char { .. } => OffsetClass::Content,
        Item::Opening { kind, .. } => class_in(kind),
        Item::Closing { kind, .. } => {
            if is_inline_leaf(kind) {
                OffsetClass::Content
            } else {
                OffsetClass::Structural
            }
        }
    }
}

/// The class of an offset, which the item before it decides.
fn class_at(doc: Doc<'_>, o: usize) -> OffsetClass
    requires doc { IsDoc doc }
    requires within { o ≤ length doc.list.now.items }
    ensures { result ≡ model.class_at (unvalued doc.entry.list.now.items) o }
{
    if o == 0 {
        return OffsetClass::Structural;
    }
    class_after(doc.list.get(o - 1))
}

/// Whether characters may stand at an offset: the innermost node round it is a content branch.
pub fn is_content(doc: Doc<'_>, o: usize) -> bool
    requires doc { IsDoc doc }
    requires within { o ≤ length doc.list.now.items }
    ensures { IsTrue result ↔ IsContent doc.entry.list.now.items o }
{
    class_at(doc, o) == OffsetClass::Content
}

/// Whether an offset is inside a leaf, where nothing may stand.
pub fn is_inside_leaf(doc: Doc<'_>, o: usize) -> bool
    requires doc { IsDoc doc }
    requires within { o ≤ length doc.list.now.items }
    ensures { IsTrue result ↔ IsInsideLeaf doc.entry.list.now.items o }
{
    class_at(doc, o) == OffsetClass::Inside
}

/// Whether nodes alone may stand at an offset: it is neither content nor inside a leaf.
pub fn is_structural(doc: Doc<'_>, o: usize) -> bool
    requires doc { IsDoc doc }
    requires within { o ≤ length doc.list.now.items }
    ensures { IsTrue result ↔ IsStructural doc.entry.list.now.items o }
{
    class_at(doc, o) == OffsetClass::Structural
}
