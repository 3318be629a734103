// Blocks.
ghost use Rattle.std.specs.Prelude.{◌≡◌, ◌≤◌, ◌<◌, ◌++◌, ◌&&◌, not, true, false, Bool, ℕ, Option, Some, OnOk, IfOk, IfSome, IfNone, length, drop, slice_get, IsUtf8};
ghost use Rattle.ve_base.specs.declared.value.ValueId.{ValueId};
ghost use Rattle.ve_kinds.specs.Table.{is_content_branch};
ghost use Rattle.ve_kinds.specs.declared.kind.Kind.{Kind};
ghost use Rattle.model_items.specs.declared.item.Item.TheVariants as item;
ghost use Rattle.model_items.specs.Plain.{value_at, head_in, plain_list, CitesHead};
ghost use Rattle.model_page.specs.Editable.{all_refer, head_refers};
ghost use Rattle.ve_write.specs.Siblings.{is_end, AllCite, Ends, SameOuter};
ghost use Rattle.ve_write.specs.Bare.{IsBareAt};
ghost use Rattle.ve_write.specs.Begun.{holds_blocks, nests, single};
ghost use Rattle.ve_write.specs.Told.{blocks_at, known_of, text_of, GoesOn, IsAfresh, IsAppended, IsKnownOf, LendsFirst, StandsBefore};

use crate::content::put_content;
use crate::first_page::{Page, put_cited_leaf, put_white};
use crate::kept::{compared_at, is_known_at, original_at};
use crate::tags::{Element, put_closing, put_opening};
use crate::{after_siblings, ends_at, is_bare, siblings_end};
use model_items::Item;
use std::alloc::Global;
use ve_base::{Bytes, Memory, ValueId};
use ve_items::Linear;
use ve_kinds::{Kind, is_content_branch, is_leaf};
use ve_node_text::put_letter;
use ve_origin::Known;

/// Whether nodes of the kind hold blocks that are written. The internal list isn't written, since
/// bodies are written where references carry them.
fn holds_blocks(kind: Kind) -> bool
    ensures { result ≡ holds_blocks kind }
{
    kind != Kind::InternalList && !is_leaf(kind) && !is_content_branch(kind)
}

/// The element that holds blocks, if one begins at a position.
fn nest_at(list: &Linear, at: usize) -> Option<Element>
    requires { at < length list.now.items }
    ensures kind { IfSome result (λ element. holds_blocks element.kind ≡ true) }
    ensures item { IfSome result (λ element. (generated : Bool) × (marks : Option ValueId) × (origin : Option ℕ)
        × (slice_get list.now.items at ≡ Some (item.Opening element.kind generated element.head marks element.pre origin))) }
    ensures none { IfNone result (nests (drop at list.now.items) ≡ false) }
{
    match list.get(at) {
        Item::Opening {
            kind,
            head,
            pre,
            ..
        } => {
            if !holds_blocks(kind) {
                return None;
            }
            Some(Element { kind, head, pre })
        }
        Item::Char { .. } => None,
        Item::Closing { .. } => None,
    }
}

/// Where writing goes on among blocks, and whether the sibling before is bare.
#[derive(Clone, Copy, Debug)]
struct Step {
    at: usize,
    bare: bool,
}

/// Whether a paragraph that was made for its text is to have tags. It had none in the page that was
/// read, so it is written afresh.
fn needs_tags(generated: bool, bare: bool) -> bool
    ensures { result ≡ (generated && not bare) }
{
    generated && !bare
}

/// Whether the node that opens at a position is written without its tags: only one that was made
/// for text is, as `generated` says.
fn is_bare_at(
    alloc: Global,
    page: Page<'_, '_>,
    at: usize,
    generated: bool,
    before: bool,
) -> Result<bool, Memory>
    requires cites { AllCite page.store.now page.list.now.items }
    requires within { at < length page.list.now.items }
    requires item { (kind : Kind) × (head : Option ValueId) × (marks : Option ValueId) × (pre : Option ValueId) × (origin : Option ℕ)
        × (slice_get page.list.now.items at ≡ Some (item.Opening kind generated head marks pre origin)) }
    ensures { IfOk result (IsBareAt page.entry.store.now page.entry.list.now.items before at) }
{
    if !generated {
        return Ok(false);
    }
    is_bare(alloc, page.list, page.store, at, before)
}

/// Appends the block at a position by the bytes that it was, if it is kept, with the whitespace
/// before it. `item` is the item at the position.
fn put_kept(
    alloc: Global,
    out: &mut Bytes,
    page: Page<'_, '_>,
    at: usize,
    item: Item,
    before: bool,
    known: Known,
) -> Result<Option<Step>, Memory>
    requires cites { AllCite page.store.now page.list.now.items }
    requires lent { LendsFirst page }
    requires before { StandsBefore page at }
    requires within { at < length page.list.now.items }
    requires item { slice_get page.list.now.items at ≡ Some item }
    requires known { IsKnownOf page known }
    ensures more { IfOk result (λ kept. IfSome kept (λ step. at < step.at)) }
    ensures within { IfOk result (λ kept.
        IfSome kept (λ step. step.at ≤ length page.entry.list.now.items)) }
    ensures outer { IfOk result (λ kept.
        IfSome kept (λ step. SameOuter page.entry.list.now.items at step.at)) }
    ensures text { IfOk result (λ kept. IfSome kept (λ step. GoesOn (known_of page.entry) out.old out.new
        (λ w v. blocks_at w v page.entry.list.now.items before at) (λ w v. blocks_at w v page.entry.list.now.items step.bare step.at))) }
    ensures utf8 { OnOk result (IsUtf8 out.old → IsUtf8 out.new) }
    ensures none { IfOk result (λ kept. IfNone kept (out.new ≡ out.old)) }
    ensures afresh { IfOk result (λ kept. IfNone kept (IsAfresh (known_of page.entry) before at)) }
{
    // a list's length fits, and so does each position in it
    let _len = page.list.len();
    let Item::Opening {
        generated,
        pre,
        origin,
        ..
    } = item
    else {
        return Ok(None);
    };
    let Some(original) = original_at(page, at, origin, known) else {
        return Ok(None);
    };
    let bare = is_bare_at(alloc, page, at, generated, before)?;
    if needs_tags(generated, bare) {
        return Ok(None);
    }
    put_white(out, page.store, pre)?;
    out.push(original.text.as_bytes())?;
    Ok(Some(Step {
        at: at + original.count,
        bare,
    }))
}

/// Appends the siblings that stand from a position on and are kept, by the bytes that they were, as
/// far as a borrowed piece goes and their items are known to be as they were first read. So each
/// takes one step, and none is looked up.
fn put_run(
    alloc: Global,
    out: &mut Bytes,
    page: Page<'_, '_>,
    from: Step,
    known: Known,
) -> Result<Step, Memory>
    requires cites { AllCite page.store.now page.list.now.items }
    requires lent { LendsFirst page }
    requires before { is_end (drop from.at page.list.now.items) ≡ false
        → StandsBefore page from.at }
    requires within { from.at ≤ length page.list.now.items }
    requires known { IsKnownOf page known }
    ensures more { IfOk result (λ step. from.at ≤ step.at) }
    ensures within { IfOk result (λ step. step.at ≤ length page.entry.list.now.items) }
    ensures outer { IfOk result (λ step. SameOuter page.entry.list.now.items from.at step.at) }
    ensures text { IfOk result (λ step. GoesOn (known_of page.entry) out.old out.new
        (λ w v. blocks_at w v page.entry.list.now.items from.bare from.at) (λ w v. blocks_at w v page.entry.list.now.items step.bare step.at)) }
    ensures utf8 { OnOk result (IsUtf8 out.old → IsUtf8 out.new) }
{
    let len = page.list.len();
    if from.at == len {
        return Ok(from);
    }
    let piece = page.list.piece(from.at, len);
    let mut run = from;
    'sibling: while run.at - from.at < piece.len() {
        let item = piece[run.at - from.at];
        if !is_known_at(page, run.at, item, known) {
            return Ok(run);
        }
        match put_kept(alloc, out, page, run.at, item, run.bare, known)? {
            Some(step) => run = step,
            None => return Ok(run),
        }
    }
    Ok(run)
}

/// Appends a block leaf that cites this head, and nothing for the internal list.
fn put_single(
    alloc: Global,
    out: &mut Bytes,
    page: Page<'_, '_>,
    at: usize,
    head: Option<ValueId>,
    kind: Kind,
) -> Result<(), Memory>
    requires cites { CitesHead page.store.now head }
    requires refers { head_refers kind (head_in (value_at page.store.now head)) ≡ true }
    ensures text { OnOk result (
        out.new
        ≡ out.old
        ++ single (head_in (value_at page.entry.store.now head))
        (text_of page.entry.texts.now at) kind) }
    ensures utf8 { OnOk result (IsUtf8 out.old → IsUtf8 out.new) }
{
    if kind == Kind::InternalList {
        return Ok(());
    }
    put_cited_leaf(alloc, out, page, at, head, kind)
}

/// Appends the content branch at a position afresh, without its tags where it is bare; `before`
/// says whether the sibling before it is bare.
fn put_branch(
    alloc: Global,
    out: &mut Bytes,
    page: Page<'_, '_>,
    at: usize,
    before: bool,
    element: Element,
) -> Result<Step, Memory>
    requires cites { AllCite page.store.now page.list.now.items }
    requires refers { all_refer (plain_list page.store.now page.list.now.items) ≡ true }
    requires lent { LendsFirst page }
    requires before { StandsBefore page at }
    requires afresh { IsAfresh (known_of page) before at }
    requires within { at < length page.list.now.items }
    requires branch { is_content_branch element.kind ≡ true }
    requires item { (generated : Bool) × (marks : Option ValueId) × (origin : Option ℕ)
        × (slice_get page.list.now.items at ≡ Some (item.Opening element.kind generated element.head marks element.pre origin)) }
    ensures more { IfOk result (λ step. at < step.at) }
    ensures within { IfOk result (λ step. step.at ≤ length page.entry.list.now.items) }
    ensures outer { IfOk result (λ step. SameOuter page.entry.list.now.items at step.at) }
    ensures text { IfOk result (λ step. GoesOn (known_of page.entry) out.old out.new
        (λ w v. blocks_at w v page.entry.list.now.items before at) (λ w v. blocks_at w v page.entry.list.now.items step.bare step.at)) }
    ensures utf8 { OnOk result (IsUtf8 out.old → IsUtf8 out.new) }
{
    // a list's length fits, and so does each position in it
    let _len = page.list.len();
    let bare = is_bare(alloc, page.list, page.store, at, before)?;
    put_opening(alloc, out, page.store, element, bare)?;
    let end = put_content(alloc, out, page, at + 1)?;
    let after = after_siblings(page.list, end);
    put_closing(alloc, out, page.store, element.kind, after.pre, bare)?;
    Ok(Step { at: after.at, bare })
}

/// Appends the block at a position afresh, one that holds no blocks; `before` says whether the
/// sibling before it is bare.
fn put_block(
    alloc: Global,
    out: &mut Bytes,
    page: Page<'_, '_>,
    at: usize,
    before: bool,
) -> Result<Step, Memory>
    requires cites { AllCite page.store.now page.list.now.items }
    requires refers { all_refer (plain_list page.store.now page.list.now.items) ≡ true }
    requires lent { LendsFirst page }
    requires before { StandsBefore page at }
    requires afresh { IsAfresh (known_of page) before at }
    requires within { at < length page.list.now.items }
    requires open { is_end (drop at page.list.now.items) ≡ false }
    requires nests { nests (drop at page.list.now.items) ≡ false }
    ensures more { IfOk result (λ step. at < step.at) }
    ensures within { IfOk result (λ step. step.at ≤ length page.entry.list.now.items) }
    ensures outer { IfOk result (λ step. SameOuter page.entry.list.now.items at step.at) }
    ensures text { IfOk result (λ step. GoesOn (known_of page.entry) out.old out.new
        (λ w v. blocks_at w v page.entry.list.now.items before at) (λ w v. blocks_at w v page.entry.list.now.items step.bare step.at)) }
    ensures utf8 { OnOk result (IsUtf8 out.old → IsUtf8 out.new) }
{
    // a list's length fits, and so does each position in it
    let _len = page.list.len();
    match page.list.get(at) {
        Item::Char { ch, .. } => {
            put_letter(out, ch)?;
            Ok(Step {
                at: at + 1,
                bare: false,
            })
        }
        Item::Opening {
            kind,
            head,
            pre,
            ..
        } => {
            if is_content_branch(kind) {
                return put_branch(alloc, out, page, at, before, Element { kind, head, pre });
            }
            put_white(out, page.store, pre)?;
            put_single(alloc, out, page, at, head, kind)?;
            let end = siblings_end(page.list, at + 1);
            Ok(Step {
                at: after_siblings(page.list, end).at,
                bare: false,
            })
        }
        Item::Closing { .. } => unreachable!(),
    }
}

/// Appends the blocks that begin at a position of the list, and says where they end: where their
/// parent closes, or the list ends. A reference carries the body whose text is borrowed for its
/// position, and is written without one where none is.
/// A node that isn't kept was compared up to its first difference: nodes in it aren't compared
/// again up to there.
pub fn put_blocks(
    alloc: Global,
    out: &mut Bytes,
    page: Page<'_, '_>,
    from: usize,
    known: Known,
) -> Result<usize, Memory>
    requires cites { AllCite page.store.now page.list.now.items }
    requires refers { all_refer (plain_list page.store.now page.list.now.items) ≡ true }
    requires lent { LendsFirst page }
    requires before { StandsBefore page from }
    requires within { from ≤ length page.list.now.items }
    requires known { IsKnownOf page known }
    ensures more { IfOk result (λ end. from ≤ end) }
    ensures within { IfOk result (λ end. end ≤ length page.entry.list.now.items) }
    ensures closed { IfOk result (λ end. is_end (drop end page.entry.list.now.items) ≡ true) }
    ensures ends { IfOk result (λ end. Ends page.entry.list.now.items from end) }
    ensures text { OnOk result (IsAppended (known_of page.entry) out.old out.new
        (λ w v. blocks_at w v page.entry.list.now.items false from)) }
    ensures utf8 { OnOk result (IsUtf8 out.old → IsUtf8 out.new) }
{
    // a list's length fits, and so does each position in it
    let _len = page.list.len();
    let mut at = from;
    let mut before = false;
    'sibling: while !ends_at(page.list, at) {
        let item = page.list.get(at);
        let found = compared_at(page, at, item, known);
        if let Some(step) = put_kept(alloc, out, page, at, item, before, found)? {
            let next = put_run(alloc, out, page, step, known)?;
            at = next.at;
            before = next.bare;
        } else if let Some(element) = nest_at(page.list, at) {
            put_opening(alloc, out, page.store, element, false)?;
            let end = put_blocks(alloc, out, page, at + 1, found)?;
            let after = after_siblings(page.list, end);
            put_closing(alloc, out, page.store, element.kind, after.pre, false)?;
            at = after.at;
            before = false;
        } else {
            let step = put_block(alloc, out, page, at, before)?;
            at = step.at;
            before = step.bare;
        }
    }
    Ok(at)
}
