// Paragraphs that are written without their tags.
ghost use Rattle.std.specs.Prelude.{◌≡◌, ◌≤◌, ◌<◌, ◌&&◌, List, length, IfOk};
ghost use Rattle.ve_base.specs.declared.value.Value.{Value as Cited};
ghost use Rattle.model_items.specs.Plain.{value_at, head_in, white_in, CitesHead, CitesWhite};
ghost use Rattle.model_page_write.specs.Written.{is_empty};
ghost use Rattle.ve_kinds.specs.Table.{kind_same};
ghost use Rattle.ve_kinds.specs.declared.kind.Kind.TheVariants as kinds;
ghost use Rattle.ve_write.specs.Siblings.{AllCite};
ghost use Rattle.ve_write.specs.Bare.{IsBareAt, IsTightAt};

use crate::run::is_run;
use crate::{after_siblings, siblings_end};
use model_items::Item;
use std::alloc::Global;
use ve_base::{Head, Memory, ValueId};
use ve_items::Linear;
use ve_kinds::Kind;
use ve_node_text::head_of;
use ve_store::Store;

/// Whether an opening is that of a paragraph without attributes that was made for text, with no
/// whitespace before it.
fn is_plain_paragraph(
    alloc: Global,
    store: &Store,
    kind: Kind,
    generated: bool,
    head: Option<ValueId>,
    pre: Option<ValueId>,
) -> bool
    requires head { CitesHead store.now head }
    requires pre { CitesWhite store.now pre }
    ensures { result
        ≡ (kind_same kind kinds.P
        && generated
        && is_empty (head_in (value_at store.now head)).attrs
        && is_empty (white_in (value_at store.now pre))) }
{
    let none = Head::empty(alloc);
    kind == Kind::P && generated && head_of(store, head, &none).attrs.is_empty() && pre.is_none()
}

/// Whether no whitespace stands at a position among siblings: before the next one, or before their
/// parent's closing.
fn is_tight(list: &Linear, at: usize) -> bool
    requires { at ≤ length list.now.items }
    ensures { (values : List Cited)
        → AllCite values list.now.items
        → IsTightAt values list.now.items at result }
{
    if at == list.len() {
        return true;
    }
    match list.get(at) {
        Item::Char { .. } => true,
        Item::Opening { pre, .. } => pre.is_none(),
        Item::Closing { pre, .. } => pre.is_none(),
    }
}

/// Whether the node at a position is written without its tags; `before` says whether the sibling
/// before it is.
pub fn is_bare(
    alloc: Global,
    list: &Linear,
    store: &Store,
    at: usize,
    before: bool,
) -> Result<bool, Memory>
    requires cites { AllCite store.now list.now.items }
    requires within { at < length list.now.items }
    ensures { IfOk result (IsBareAt store.now list.now.items before at) }
{
    // a list's length fits, and so does each position in it
    let _len = list.len();
    match list.get(at) {
        Item::Char { .. } => Ok(false),
        Item::Closing { .. } => Ok(false),
        Item::Opening {
            kind,
            generated,
            head,
            pre,
            ..
        } => {
            if before {
                return Ok(false);
            }
            if !is_plain_paragraph(alloc, store, kind, generated, head, pre) {
                return Ok(false);
            }
            let end = siblings_end(list, at + 1);
            if !is_tight(list, after_siblings(list, end).at) {
                return Ok(false);
            }
            is_run(alloc, list, store, at + 1)
        }
    }
}
