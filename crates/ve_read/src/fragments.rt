// A fragment of a page, from its text.
ghost use Rattle.std.specs.Prelude.{◌≡◌, [], None, length, All, IfErr, IfOk, OnOk, Option};
ghost use Rattle.std.specs.Str.{chars};
ghost use Rattle.model_change.specs.Store.{cited, fill};
ghost use Rattle.model_items.specs.Plain.{plain_list, CitesWell};
ghost use Rattle.model_page.specs.Fit.{around_in};
ghost use Rattle.model_page.specs.Limits.{marked_at};
ghost use Rattle.model_spelling.specs.Faults.{ForestFault, fault_of};
ghost use Rattle.ve_html_tree.specs.Seen.{IsFirstFault};
ghost use Rattle.ve_store.specs.Following.{Grows, together};
ghost use Rattle.ve_read.specs.Forests.{AreNodesOf, parts_in};
ghost use Rattle.ve_read.specs.Fragments.{IsMisspelled, IsReadIn, OverMarks, RefusesFragment, fragment_in, is_blank_in, limit_in, paragraph_of, pieces_of};

use crate::anew::cited_anew;
use crate::forests::read_whole;
use std::alloc::Global;
use thiserror::Error;
use ve_base::Memory;
use ve_classify::{context_kind, is_white, read_stands};
use ve_html_tree::{Forest, HtmlFault, read};
use ve_items::{Item, Items};
use ve_kinds::{Kind, is_flow};
use ve_lawful::State;
use ve_reader::{Purpose, ReadParts, ReadStop, Reader};
use ve_store::{NewValues, Store};

/// Why a fragment isn't read: its first refusal, in the order in which they stand here, or want of memory. Bytes are those of its text.
#[derive(Clone, Copy, Debug, PartialEq, Eq, Error)]
pub enum FragmentFault {
    /// No forest spells it. Want of memory never stands here.
    #[error("{0}")]
    Html(HtmlFault),
    /// An annotation would stand inside of `MAX_MARKS` marks already.
    #[error("byte {at} has too many marks")]
    TooManyMarks { at: usize },
    /// There is no memory for it.
    #[error("out of memory")]
    Memory,
}

impl From<Memory> for FragmentFault {
    ghost use Rattle.std.specs.Prelude.{◌≡◌};
    ghost use Rattle.ve_read.specs.declared.fragments.FragmentFault.TheVariants.{Memory as OutOfMemory};

    ghost from_gives = { λ _ e. e ≡ OutOfMemory };

    fn from(_: Memory) -> Self {
        FragmentFault::Memory
    }
}

/// A fault of the spelling.
fn spelling_fault(fault: HtmlFault) -> FragmentFault
    ensures { (first : Option ForestFault) → IsFirstFault fault first → IsMisspelled result first }
{
    match fault {
        HtmlFault::Scan(_)
        | HtmlFault::Mismatched { .. }
        | HtmlFault::Unclosed { .. }
        | HtmlFault::Stray { .. }
        | HtmlFault::TooDeep { .. } => FragmentFault::Html(fault),
        HtmlFault::Memory => FragmentFault::Memory,
    }
}

/// The forest of the text of a fragment.
fn forest_of<'a>(alloc: Global, text: &'a str) -> Result<Forest<'a>, FragmentFault>
    ensures found { IfOk result (AreNodesOf text.now) }
    ensures fault { IfErr result (λ e. IsMisspelled e (fault_of text.now)) }
{
    match read(alloc, text) {
        Ok(forest) => Ok(forest),
        Err(fault) => Err(spelling_fault(fault)),
    }
}

/// A paragraph of the characters of a text, which cites nothing.
fn paragraph_of(alloc: Global, text: &str) -> Result<Items, Memory>
    ensures items { IfOk result (λ items.
        (values : _) → plain_list values items ≡ paragraph_of (chars text.now)) }
    ensures cites { IfOk result (λ items. (values : _) → All (CitesWell values) items) }
{
    let mut items = Items::new(alloc);
    items.push(Item::Opening {
        kind: Kind::P,
        generated: false,
        head: None,
        marks: None,
        pre: None,
        origin: None,
    })?;
    for ch in text.chars() {
        items.push(Item::Char { ch, marks: None })?;
    }
    items.push(Item::Closing {
        kind: Kind::P,
        pre: None,
    })?;
    Ok(items)
}

/// The items of a text as the inside of a node of the kind, over values of its own.
fn read_in(
    alloc: Global,
    text: &str,
    forest: &Forest<'_>,
    kind: Kind,
) -> Result<ReadParts, FragmentFault>
    requires nodes { AreNodesOf text.now forest.now }
    ensures items { IfOk result (λ parts.
        plain_list parts.values parts.list.items ≡ pieces_of kind text.now) }
    ensures values { IfOk result (λ parts.
        parts.values ≡ fill [] (cited (pieces_of kind text.now))) }
    ensures cites { IfOk result (λ parts. All (CitesWell parts.values) parts.list.items) }
    ensures limit { OverMarks result (marked_at (around_in kind) (parts_in text.now) 0) }
{
    let mut reader = Reader::new(alloc, Purpose::Fragment);
    match read_whole(alloc, text, forest, &mut reader, kind) {
        Ok(_) => {}
        Err(ReadStop::TooManyMarks { at }) => return Err(FragmentFault::TooManyMarks { at }),
        Err(ReadStop::TooDeep { .. }) => unreachable!(),
        Err(ReadStop::Memory) => return Err(FragmentFault::Memory),
    }
    let parts = reader.into_parts()?;
    Ok(parts)
}

/// Whether a text is whitespace alone where blocks may stand.
fn is_blank(kind: Kind, text: &str) -> bool
    ensures { result ≡ is_blank_in kind text.now }
{
    is_flow(kind) && is_white(text)
}

/// The items of a text in the open kind that it fits, citing a store and what follows it.
fn items_in(
    alloc: Global,
    text: &str,
    forest: &Forest<'_>,
    kind: Kind,
    store: &Store,
    new: &mut NewValues,
) -> Result<Items, FragmentFault>
    requires nodes { AreNodesOf text.now forest.now }
    requires follows { new.old.after ≡ length store.now }
    ensures read { IfOk result (
        IsReadIn kind text.now (together store.now new.old) (together store.now new.new)) }
    ensures limit { OverMarks result (marked_at (around_in kind) (parts_in text.now) 0) }
    ensures grows { Grows new.old new.new }
{
    if is_blank(kind, text) {
        let paragraph = paragraph_of(alloc, text)?;
        return Ok(paragraph);
    }
    let parts = read_in(alloc, text, forest, kind)?;
    let items = cited_anew(alloc, &parts.list, &parts.values, store, new)?;
    Ok(items)
}

/// Reads a fragment that is to stand where the kinds of the state are open: its items, citing a
/// store and the values that follow it. New values are taken there, in the order in which the items
/// cite them. The fragment is read in the innermost open kind that it fits, and whitespace alone is
/// a paragraph where blocks may stand. No item has an origin, and none is generated.
///
/// `Html` comes exactly where no forest spells the text; then `TooManyMarks` where an annotation
/// would stand inside of more than `MAX_MARKS` marks. How deep the items are isn't judged. After an
/// `Err` further values may follow the store.
pub fn fragment(
    alloc: Global,
    text: &str,
    state: &State,
    store: &Store,
    new: &mut NewValues,
) -> Result<Items, FragmentFault>
    requires follows { new.old.after ≡ length store.now }
    ensures spelled { OnOk result (fault_of text.now ≡ None) }
    ensures within { OnOk result (limit_in state.now.stack text.now ≡ None) }
    ensures items { IfOk result (λ items.
        plain_list (together store.now new.new) items ≡ fragment_in state.now.stack text.now) }
    ensures cites { IfOk result (All (CitesWell (together store.now new.new))) }
    ensures values { OnOk result (
        together store.now new.new
        ≡ fill (together store.now new.old) (cited (fragment_in state.now.stack text.now))) }
    ensures grows { Grows new.old new.new }
    ensures refused { IfErr result (λ fault. RefusesFragment fault state.now.stack text.now) }
{
    let forest = forest_of(alloc, text)?;
    read_stands();
    let kind = context_kind(text, &forest, state);
    items_in(alloc, text, &forest, kind, store, new)
}
