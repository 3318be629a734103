// The nearest content offset, on both sides or on one.
ghost use Rattle.std.specs.Prelude.{◌≡◌, ◌≤◌, ◌↔◌, IsTrue, IfSome, IfNone, length};
ghost use Rattle.std.specs.Prelude.{nat_le, find, reverse};
ghost use Rattle.model_items.specs.Law.{Lawful};
ghost use Rattle.model_items.specs.Offsets as model;
ghost use Rattle.model_items.specs.Tree as tree;
ghost use Rattle.ve_tree.specs.IsTree.{unvalued};
ghost use Rattle.ve_offsets.specs.Docs.{IsDoc};
ghost use Rattle.ve_offsets.specs.Classes.{IsContent};
ghost use Rattle.ve_offsets.specs.Nearest.{IsNearestContent, HasNoContent, IsContentBefore, IsContentAfter};
ghost use Rattle.ve_offsets.specs.Nearest.{IsLastContent, IsFirstContent, HasNoneUpTo, HasNoneFrom};

use crate::Doc;
use crate::class::class_after;
use crate::reader::OffsetReader;
use model_items::OffsetClass;

/// The class of an offset, by the item before it.
fn class_in_list(items: &mut OffsetReader<'_>, o: usize) -> OffsetClass
    requires lawful { Lawful (unvalued items.old) }
    requires within { o ≤ length items.old }
    ensures class { result ≡ tree.class_at (unvalued items.old) o }
    ensures list { items.new ≡ items.old }
{
    if o == 0 {
        return OffsetClass::Structural;
    }
    class_after(items.get(o - 1))
}

/// Whether an offset is content.
fn is_content_in(items: &mut OffsetReader<'_>, o: usize) -> bool
    requires lawful { Lawful (unvalued items.old) }
    requires within { o ≤ length items.old }
    ensures content { IsTrue result ↔ IsContent items.old o }
    ensures list { items.new ≡ items.old }
{
    class_in_list(items, o) == OffsetClass::Content
}

/// Whether the offset `away` items before this one is content.
fn is_content_before(items: &mut OffsetReader<'_>, o: usize, away: usize) -> bool
    requires lawful { Lawful (unvalued items.old) }
    requires within { o ≤ length items.old }
    ensures content { IsTrue result ↔ IsContentBefore items.old o away }
    ensures list { items.new ≡ items.old }
{
    if o < away {
        return false;
    }
    is_content_in(items, o - away)
}

/// Whether the offset `away` items after this one is content.
fn is_content_after(items: &mut OffsetReader<'_>, o: usize, away: usize) -> bool
    requires lawful { Lawful (unvalued items.old) }
    requires within { o ≤ length items.old }
    ensures content { IsTrue result ↔ IsContentAfter items.old o away }
    ensures list { items.new ≡ items.old }
{
    if items.len() - o < away {
        return false;
    }
    is_content_in(items, o + away)
}

/// The content offset nearest to an offset, found by going out from it to both sides.
fn search(doc: Doc<'_>, o: usize) -> Option<usize>
    requires doc { IsDoc doc }
    requires within { o ≤ length doc.list.now.items }
    ensures nearest { IfSome result (λ p. IsNearestContent doc.entry.list.now.items o p) }
    ensures none { IfNone result (HasNoContent doc.entry.list.now.items) }
{
    let len = doc.list.len();
    let mut before = OffsetReader::new(doc.list);
    let mut after = OffsetReader::new(doc.list);
    let mut away = 0;
    loop {
        if is_content_before(&mut before, o, away) {
            return Some(o - away);
        }
        if is_content_after(&mut after, o, away) {
            return Some(o + away);
        }
        if away == len {
            return None;
        }
        away += 1;
    }
}

/// The content offset nearest to an offset, the lower one of two at the same distance, and none
/// where the list has none.
pub fn nearest_content(doc: Doc<'_>, o: usize) -> Option<usize>
    requires doc { IsDoc doc }
    requires within { o ≤ length doc.list.now.items }
    ensures { result ≡ model.nearest_content (unvalued doc.entry.list.now.items) o }
{
    search(doc, o)
}

/// The content offset nearest to an offset among it and those before.
fn search_back(doc: Doc<'_>, o: usize) -> Option<usize>
    requires doc { IsDoc doc }
    requires within { o ≤ length doc.list.now.items }
    ensures last { IfSome result (λ p. IsLastContent doc.entry.list.now.items o p) }
    ensures none { IfNone result (HasNoneUpTo doc.entry.list.now.items o) }
{
    let mut items = OffsetReader::new(doc.list);
    let mut at = o;
    loop {
        if is_content_in(&mut items, at) {
            return Some(at);
        }
        if at == 0 {
            return None;
        }
        at -= 1;
    }
}

/// The content offset nearest to an offset among it and those after.
fn search_ahead(doc: Doc<'_>, o: usize) -> Option<usize>
    requires doc { IsDoc doc }
    requires within { o ≤ length doc.list.now.items }
    ensures first { IfSome result (λ p. IsFirstContent doc.entry.list.now.items o p) }
    ensures none { IfNone result (HasNoneFrom doc.entry.list.now.items o) }
{
    let end = doc.list.len();
    let mut items = OffsetReader::new(doc.list);
    let mut at = o;
    loop {
        if is_content_in(&mut items, at) {
            return Some(at);
        }
        if at == end {
            return None;
        }
        at += 1;
    }
}

/// The last content offset that is at most an offset. It looks at the items between the two alone.
pub fn content_back(doc: Doc<'_>, o: usize) -> Option<usize>
    requires doc { IsDoc doc }
    requires within { o ≤ length doc.list.now.items }
    ensures { result
        ≡ find (λ p. nat_le p o)
        (reverse (model.content_offsets (unvalued doc.entry.list.now.items))) }
{
    search_back(doc, o)
}

/// The first content offset that is at least an offset. It looks at the items between the two alone.
pub fn content_ahead(doc: Doc<'_>, o: usize) -> Option<usize>
    requires doc { IsDoc doc }
    requires within { o ≤ length doc.list.now.items }
    ensures { result
        ≡ find (λ p. nat_le o p) (model.content_offsets (unvalued doc.entry.list.now.items)) }
{
    search_ahead(doc, o)
}
