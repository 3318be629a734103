// Paragraphs that are to be read as a run.
ghost use Rattle.std.specs.Prelude.{◌≡◌, ◌≤◌, ◌<◌, ◌||◌, List, not, false, length, drop, IfOk, IfSome};
ghost use Rattle.ve_base.specs.declared.value.Value.{Value as Cited};
ghost use Rattle.model_items.specs.Plain.{value_at, head_in, marks_in, CitesHead, CitesMarks};
ghost use Rattle.model_page.specs.Elements.{is_white_char};
ghost use Rattle.model_page_write.specs.Written.{is_empty};
ghost use Rattle.ve_write.specs.Siblings.{AllCite, is_end};
ghost use Rattle.ve_write.specs.Bare.{stays_of, IsPassed, IsRunAt};

use crate::inline::reads_inline;
use crate::{after_siblings, ends_at, siblings_end};
use model_items::Item;
use std::alloc::Global;
use ve_base::{Head, Memory, ValueId};
use ve_items::Linear;
use ve_kinds::Kind;
use ve_node_text::head_of;
use ve_store::Store;

fn is_white(ch: char) -> bool
    ensures { result ≡ is_white_char ch }
{
    ch == '\t' || ch == '\n' || ch == '\u{c}' || ch == ' '
}

/// Whether a character is more than whitespace: the tags of its marks are.
fn is_content(ch: char, marks: Option<ValueId>) -> bool
    ensures { (values : List Cited)
        → CitesMarks values marks
        → result ≡ (not (is_white_char ch) || not (is_empty (marks_in (value_at values marks)))) }
{
    !is_white(ch) || marks.is_some()
}

/// Whether an inline leaf is read as a part of a run again: a source that is kept and has no marks
/// has to be inline.
fn stays_inline(
    alloc: Global,
    store: &Store,
    kind: Kind,
    head: Option<ValueId>,
    marks: Option<ValueId>,
) -> Result<bool, Memory>
    requires head { CitesHead store.now head }
    requires marks { CitesMarks store.now marks }
    ensures { IfOk result (λ b.
        b
        ≡ stays_of kind (marks_in (value_at store.now marks))
        (head_in (value_at store.now head)).raw) }
{
    if kind != Kind::TransInline && kind != Kind::AlienInline {
        return Ok(true);
    }
    if marks.is_some() {
        return Ok(true);
    }
    let none = Head::empty(alloc);
    reads_inline(alloc, head_of(store, head, &none).raw.as_str())
}

/// The state of a run after an item: where it goes on, and whether some content was seen. `None`
/// where a leaf doesn't stay in the run.
#[derive(Clone, Copy, Debug)]
struct Step {
    at: usize,
    seen: bool,
}

fn either(one: bool, other: bool) -> bool
    ensures { result ≡ (one || other) }
{
    one || other
}

/// Passes a character or a leaf.
fn pass_one(
    alloc: Global,
    list: &Linear,
    store: &Store,
    at: usize,
    seen: bool,
) -> Result<Option<Step>, Memory>
    requires cites { AllCite store.now list.now.items }
    requires within { at ≤ length list.now.items }
    requires open { is_end (drop at list.now.items) ≡ false }
    ensures more { IfOk result (λ step. IfSome step (λ s. at < s.at)) }
    ensures within { IfOk result (λ step. IfSome step (λ s. s.at ≤ length list.now.items)) }
    ensures passed { IfOk result (λ step. IsPassed store.now list.now.items at seen step) }
{
    // a list's length fits, and so does each position in it
    let _len = list.len();
    match list.get(at) {
        Item::Char { ch, marks } => {
            let content = is_content(ch, marks);
            Ok(Some(Step {
                at: at + 1,
                seen: either(seen, content),
            }))
        }
        Item::Opening {
            kind,
            head,
            marks,
            ..
        } => {
            if !stays_inline(alloc, store, kind, head, marks)? {
                return Ok(None);
            }
            let end = siblings_end(list, at + 1);
            Ok(Some(Step {
                at: after_siblings(list, end).at,
                seen: true,
            }))
        }
        Item::Closing { .. } => unreachable!(),
    }
}

/// Whether the siblings from a position on hold some content, and their leaves stay in a run.
pub fn is_run(alloc: Global, list: &Linear, store: &Store, from: usize) -> Result<bool, Memory>
    requires cites { AllCite store.now list.now.items }
    requires within { from ≤ length list.now.items }
    ensures { IfOk result (IsRunAt store.now list.now.items from) }
{
    let mut at = from;
    let mut seen = false;
    while !ends_at(list, at) {
        match pass_one(alloc, list, store, at, seen)? {
            Some(step) => {
                at = step.at;
                seen = step.seen;
            }
            None => return Ok(false),
        }
    }
    Ok(seen)
}
