// The items of a list as JSON: brackets, and runs of characters with equal marks.
ghost use Rattle.std.specs.Prelude.{◌≡◌, ◌++◌, ◌<◌, ◌≤◌, length, slice_range, All, IfOk, OnOk};
ghost use Rattle.serde_json.specs.Written.{compact_text};
ghost use Rattle.model_items.specs.Plain.{marks_in, plain, plain_list, value_at, CitesMarks, CitesWell};
ghost use Rattle.model_items.specs.Same.{marks_same};
ghost use Rattle.ve_base.specs.Empty.{empty_head};
ghost use Rattle.model_world.specs.Shown.{items_shown, run_shown};
ghost use Rattle.ve_json.specs.Runs.{AddsFirst, bracket_json, char_with, plain_before, IsMarkedRun};

use crate::brackets::{OpeningParts, push_closing, push_opening};
use crate::json_list::{push_comma, push_list};
use crate::quoted::push_quoted;
use crate::spelling::Spelling;
use std::alloc::Global;
use ve_base::{Head, Mark, Memory, Text, ValueId};
use ve_items::{Item, Linear};
use ve_node_text::{head_of, marks_of, white_of};
use ve_store::{Store, same_mark};

/// Characters of one list of marks, and the position past them.
#[derive(Drop)]
pub struct MarkedRun {
    pub text: Text,
    pub end: usize,
}

/// Whether two lists of marks are equal.
fn equal_marks(one: &[Mark], other: &[Mark]) -> bool
    ensures { result ≡ marks_same one.now other.now }
{
    if one.len() != other.len() {
        return false;
    }
    for i in 0..one.len() {
        if !same_mark(&one[i], &other[i]) {
            return false;
        }
    }
    true
}

/// Whether the marks that two items cite are equal. Of one position no value is read.
#[tactic(auto, using(crate::proofs::RunLemmas::marks_itself))]
fn same_marks(store: &Store, one: Option<ValueId>, other: Option<ValueId>) -> bool
    requires one { CitesMarks store.now one }
    requires other { CitesMarks store.now other }
    ensures { result
        ≡ marks_same (marks_in (value_at store.now one)) (marks_in (value_at store.now other)) }
{
    if let (Some(first), Some(second)) = (one, other) {
        if first.0 == second.0 {
            return true;
        }
    }
    equal_marks(marks_of(store, one), marks_of(store, other))
}

/// The character that an item is, where it has the marks that are cited.
fn char_of(store: &Store, item: Item, cited: Option<ValueId>) -> Option<char>
    requires item { CitesWell store.now item }
    requires marks { CitesMarks store.now cited }
    ensures { result ≡ char_with (marks_in (value_at store.now cited)) (plain store.now item) }
{
    match item {
        Item::Char { ch, marks } => {
            if !same_marks(store, marks, cited) {
                return None;
            }
            Some(ch)
        }
        Item::Opening { .. } | Item::Closing { .. } => None,
    }
}

/// The characters with the marks that are cited, from the range's start on.
fn run_at(
    alloc: Global,
    list: &Linear,
    store: &Store,
    range: (usize, usize),
    cited: Option<ValueId>,
) -> Result<MarkedRun, Memory>
    requires cites { All (CitesWell store.now) list.now.items }
    requires marks { CitesMarks store.now cited }
    requires order { range.0 ≤ range.1 }
    requires within { range.1 ≤ length list.now.items }
    ensures { IfOk result (λ run.
        IsMarkedRun (plain_before range.1 store.now list.now.items)
        (marks_in (value_at store.now cited)) range.0 run.end run.text) }
{
    let (at, to) = range;
    let mut text = Text::new(alloc);
    for end in at..to {
        let Some(ch) = char_of(store, list.get(end), cited) else {
            return Ok(MarkedRun { text, end });
        };
        text.push(ch)?;
    }
    Ok(MarkedRun { text, end: to })
}

/// Appends a run: its text, with its marks where there are some.
fn push_run(alloc: Global, text: &Text, marks: &[Mark], out: &mut Spelling) -> Result<(), Memory>
    ensures ok { OnOk result (
        out.new.text ≡ out.old.text ++ compact_text (run_shown marks.now text.now)) }
    ensures before { out.new.before ≡ out.old.before }
{
    if marks.is_empty() {
        return push_quoted(text.as_str(), out);
    }
    out.push_byte(b'[')?;
    push_quoted(text.as_str(), out)?;
    out.push_byte(b',')?;
    push_list(alloc, marks, out)?;
    out.push_byte(b']')
}

/// Appends a bracket; nothing of a character.
fn push_bracket(
    alloc: Global,
    store: &Store,
    item: Item,
    none: &Head,
    out: &mut Spelling,
) -> Result<(), Memory>
    requires cites { CitesWell store.now item }
    requires none { none.now ≡ empty_head }
    ensures ok { OnOk result (out.new.text ≡ out.old.text ++ bracket_json (plain store.now item)) }
    ensures before { out.new.before ≡ out.old.before }
{
    match item {
        Item::Char { .. } => Ok(()),
        Item::Opening {
            kind,
            head,
            marks,
            pre,
            origin,
            generated,
        } => {
            let opening = OpeningParts {
                kind,
                head: head_of(store, head, none),
                marks: marks_of(store, marks),
                pre: white_of(store, pre),
                origin,
                generated,
            };
            push_opening(alloc, opening, out)
        }
        Item::Closing { kind, pre } => push_closing(kind, white_of(store, pre), out),
    }
}

/// Appends the run or the item that is shown first of the items of a range, and gives the position
/// past it.
fn push_first(
    alloc: Global,
    list: &Linear,
    store: &Store,
    range: (usize, usize),
    none: &Head,
    out: &mut Spelling,
) -> Result<usize, Memory>
    requires cites { All (CitesWell store.now) list.now.items }
    requires some { range.0 < range.1 }
    requires within { range.1 ≤ length list.now.items }
    requires none { none.now ≡ empty_head }
    ensures ok { IfOk result (λ end.
        AddsFirst (plain_before range.1 store.now list.now.items) range.0 end out.old.text
        out.new.text) }
    ensures before { out.new.before ≡ out.old.before }
{
    let at = range.0;
    let len = list.len();
    prove!(at < len);
    let item = list.get(at);
    match item {
        Item::Char { marks, .. } => {
            let run = run_at(alloc, list, store, range, marks)?;
            push_run(alloc, &run.text, marks_of(store, marks), out)?;
            Ok(run.end)
        }
        Item::Opening { .. } => {
            push_bracket(alloc, store, item, none, out)?;
            Ok(at + 1)
        }
        Item::Closing { .. } => {
            push_bracket(alloc, store, item, none, out)?;
            Ok(at + 1)
        }
    }
}

/// Appends the items of a list from one position up to another.
pub fn push_items(
    alloc: Global,
    list: &Linear,
    store: &Store,
    range: (usize, usize),
    out: &mut Spelling,
) -> Result<(), Memory>
    requires cites { All (CitesWell store.now) list.now.items }
    requires order { range.0 ≤ range.1 }
    requires within { range.1 ≤ length list.now.items }
    ensures ok { OnOk result (
        out.new.text
        ≡ out.old.text
        ++ compact_text (
        items_shown (
        slice_range (plain_list store.now list.now.items) range.0 range.1))) }
    ensures before { out.new.before ≡ out.old.before }
{
    let (from, to) = range;
    let none = Head::empty(alloc);
    out.push_byte(b'[')?;
    let mut at = from;
    'items: while at < to {
        push_comma(from < at, out)?;
        at = push_first(alloc, list, store, (at, to), &none, out)?;
    }
    out.push_byte(b']')
}
