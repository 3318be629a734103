// Answers to a script's lines.
ghost use Rattle.std.specs.Prelude.{All, ◌≡◌, ◌≤◌, ◌++◌, ◌∷◌, [], length, slice_range, OnErr, OnOk};
ghost use Rattle.model_items.specs.Plain.{plain_list, CitesWell};
ghost use Rattle.model_world.specs.Shown.{items_shown, json_text};
ghost use Rattle.model_world.specs.Spelled as model;
ghost use Rattle.model_world.specs.Spelled.{with_numbers};
ghost use Rattle.model_world.specs.declared.reply.Reply.TheVariants as reply;
ghost use Rattle.ve_json.specs.Answers.{reply_of, AnswerCites};
ghost use Rattle.ve_json.specs.ReplyWords.{number_list};

use crate::item_replies::push_items;
use crate::json_list::push_list;
use crate::quoted::push_quoted;
use crate::refusals::refusal_words;
use crate::reply_words::{Numbers, Words, push_words};
use crate::spelling::Spelling;
use crate::tree_rows::push_tree;
use model_edit::GridCell;
use model_items::OffsetClass;
use model_page::{RefRow, RefTable};
use model_site::Patch;
use model_world::{GridCells, PatchList, Refusal, TreeWord, TreeWords, class_name, kind_name};
use std::alloc::Global;
use std::mem::replace;
use ve_base::{Bytes, Memory, Text};
use ve_items::Linear;
use ve_kinds::Kind;
use ve_store::Store;

/// The answer to a line: `model_world`'s reply, but that the items of a page are borrowed.
#[derive(Drop)]
pub enum Answer<'a> {
    /// How many items the list has now.
    Length(usize),
    /// The page, written out.
    Page(Text),
    /// The items of a list from one position up to another. They cite values of the store.
    Items {
        list: &'a Linear,
        store: &'a Store,
        from: usize,
        to: usize,
    },
    /// The root and all in it.
    Tree(TreeWords),
    /// The innermost node, its range, and the offset's class.
    At {
        kind: Kind,
        from: usize,
        to: usize,
        class: OffsetClass,
    },
    /// A content offset.
    Offset(usize),
    /// How many items the list has, and what changed in it.
    Told {
        count: usize,
        patches: PatchList,
    },
    /// The table of references.
    Refs(RefTable),
    /// Where the selection stands.
    Caret {
        anchor: usize,
        focus: usize,
    },
    /// How many entries were sent.
    Sent(usize),
    /// How many of the submission's entries were accepted, of how many, and the ranges in conflict,
    /// the committed one first.
    Served {
        accepted: usize,
        total: usize,
        clash: Option<((usize, usize), (usize, usize))>,
    },
    /// How many entries of others were taken, and how many of the site's own were dropped.
    TookForeign {
        entries: usize,
        dropped: usize,
    },
    /// How many entries were accepted.
    TookAck {
        accepted: usize,
    },
    /// How many rows and columns there are, and the cells.
    Grid {
        rows: usize,
        columns: usize,
        cells: GridCells,
    },
    /// It was refused, and changed nothing.
    No(Refusal),
    /// A batch was refused at the change `at`, counted from 0, and changed nothing.
    NoBatch {
        at: usize,
        refusal: Refusal,
    },
}

/// Appends a word and its numbers.
fn push_count(
    alloc: Global,
    word: &'static str,
    numbers: Numbers,
    out: &mut Spelling,
) -> Result<(), Memory>
    ensures ok { OnOk result (
        out.new.text ≡ out.old.text ++ with_numbers word.now (number_list numbers)) }
    ensures before { out.new.before ≡ out.old.before }
{
    let words = Words {
        first: "",
        second: word,
        numbers,
    };
    push_words(alloc, words, out)
}

/// Appends a page as a string.
fn push_page(page: &Text, out: &mut Spelling) -> Result<(), Memory>
    ensures ok { OnOk result (out.new.text ≡ out.old.text ++ model.ok_json (json_text page.now)) }
    ensures before { out.new.before ≡ out.old.before }
{
    out.push(b"ok ")?;
    push_quoted(page.as_str(), out)
}

/// Appends the items of a list from one position up to another.
fn push_data(
    alloc: Global,
    list: &Linear,
    store: &Store,
    range: (usize, usize),
    out: &mut Spelling,
) -> Result<(), Memory>
    requires cites { All (CitesWell store.now) list.now.items }
    requires order { range.0 ≤ range.1 }
    requires within { range.1 ≤ length list.now.items }
    ensures ok { OnOk result (
        out.new.text
        ≡ out.old.text
        ++ model.ok_json (
        items_shown (
        slice_range (plain_list store.now list.now.items) range.0 range.1))) }
    ensures before { out.new.before ≡ out.old.before }
{
    out.push(b"ok ")?;
    push_items(alloc, list, store, range, out)
}

/// Appends the node round an offset and the offset's class.
fn push_at(
    alloc: Global,
    kind: Kind,
    range: (usize, usize),
    class: OffsetClass,
    out: &mut Spelling,
) -> Result<(), Memory>
    ensures ok { OnOk result (
        out.new.text ≡ out.old.text ++ model.reply_text (reply.At kind range.0 range.1 class)) }
    ensures before { out.new.before ≡ out.old.before }
{
    let words = Words {
        first: "ok ",
        second: kind_name(kind),
        numbers: Numbers::Two(range.0, range.1),
    };
    push_words(alloc, words, out)?;
    out.push_byte(b' ')?;
    out.push(class_name(class).as_bytes())
}

/// Appends which ranges are in conflict, where some are.
fn push_clash(
    alloc: Global,
    clash: Option<((usize, usize), (usize, usize))>,
    out: &mut Spelling,
) -> Result<(), Memory>
    ensures ok { OnOk result (out.new.text ≡ out.old.text ++ model.clash_text clash) }
    ensures before { out.new.before ≡ out.old.before }
{
    let Some((committed, submitted)) = clash else {
        return Ok(());
    };
    let ranges = Numbers::Four(committed.0, committed.1, submitted.0, submitted.1);
    push_count(alloc, " conflict", ranges, out)
}

/// Appends how much of a submission was accepted.
fn push_served(
    alloc: Global,
    accepted: usize,
    total: usize,
    clash: Option<((usize, usize), (usize, usize))>,
    out: &mut Spelling,
) -> Result<(), Memory>
    ensures ok { OnOk result (
        out.new.text ≡ out.old.text ++ model.reply_text (reply.Served accepted total clash)) }
    ensures before { out.new.before ≡ out.old.before }
{
    push_count(alloc, "ok", Numbers::One(accepted), out)?;
    push_count(alloc, " of", Numbers::One(total), out)?;
    push_clash(alloc, clash, out)
}

/// Appends how many entries were taken and dropped.
fn push_took(
    alloc: Global,
    entries: usize,
    dropped: usize,
    out: &mut Spelling,
) -> Result<(), Memory>
    ensures ok { OnOk result (
        out.new.text ≡ out.old.text ++ model.reply_text (reply.TookForeign entries dropped)) }
    ensures before { out.new.before ≡ out.old.before }
{
    push_count(alloc, "ok foreign", Numbers::One(entries), out)?;
    push_count(alloc, " dropped", Numbers::One(dropped), out)
}

/// Appends the numbers of a grid and its cells.
fn push_grid(
    alloc: Global,
    rows: usize,
    columns: usize,
    cells: &[GridCell],
    out: &mut Spelling,
) -> Result<(), Memory>
    ensures ok { OnOk result (
        out.new.text ≡ out.old.text ++ model.reply_text (reply.Grid rows columns cells.now)) }
    ensures before { out.new.before ≡ out.old.before }
{
    push_count(alloc, "ok", Numbers::Two(rows, columns), out)?;
    out.push_byte(b' ')?;
    push_list(alloc, cells, out)
}

/// Appends the length of a list and what changed in it.
fn push_told(
    alloc: Global,
    count: usize,
    patches: &[Patch],
    out: &mut Spelling,
) -> Result<(), Memory>
    ensures ok { OnOk result (
        out.new.text ≡ out.old.text ++ model.reply_text (reply.Told count patches.now)) }
    ensures before { out.new.before ≡ out.old.before }
{
    push_count(alloc, "ok", Numbers::One(count), out)?;
    out.push_byte(b' ')?;
    push_list(alloc, patches, out)
}

/// Appends a refusal.
fn push_refusal(alloc: Global, refusal: Refusal, out: &mut Spelling) -> Result<(), Memory>
    ensures ok { OnOk result (out.new.text ≡ out.old.text ++ model.reply_text (reply.No refusal)) }
    ensures before { out.new.before ≡ out.old.before }
{
    out.push(b"no ")?;
    push_words(alloc, refusal_words(refusal), out)
}

/// Appends the refusal of a batch.
fn push_batch_refusal(
    alloc: Global,
    at: usize,
    refusal: Refusal,
    out: &mut Spelling,
) -> Result<(), Memory>
    ensures ok { OnOk result (
        out.new.text ≡ out.old.text ++ model.reply_text (reply.NoBatch at refusal)) }
    ensures before { out.new.before ≡ out.old.before }
{
    push_count(alloc, "no batch", Numbers::One(at), out)?;
    out.push_byte(b' ')?;
    push_words(alloc, refusal_words(refusal), out)
}

/// Appends `ok` and references.
fn push_rows(alloc: Global, rows: &[RefRow], out: &mut Spelling) -> Result<(), Memory>
    ensures ok { OnOk result (
        out.new.text ≡ out.old.text ++ model.reply_text (reply.Refs rows.now)) }
    ensures before { out.new.before ≡ out.old.before }
{
    out.push(b"ok ")?;
    push_list(alloc, rows, out)
}

/// Appends `ok` and the words of a tree.
fn push_words_of_tree(alloc: Global, words: &[TreeWord], out: &mut Spelling) -> Result<(), Memory>
    ensures ok { OnOk result (
        out.new.text ≡ out.old.text ++ model.reply_text (reply.Tree words.now)) }
    ensures before { out.new.before ≡ out.old.before }
{
    out.push(b"ok")?;
    push_tree(alloc, words, out)
}

/// Appends the text of an answer. An `Err` may leave a part appended.
fn push_answer(alloc: Global, answer: &Answer<'_>, out: &mut Spelling) -> Result<(), Memory>
    requires { AnswerCites answer.now }
    ensures ok { OnOk result (
        out.new.text ≡ out.old.text ++ model.reply_text (reply_of answer.now)) }
    ensures before { out.new.before ≡ out.old.before }
{
    match answer {
        Answer::Length(count) => push_count(alloc, "ok", Numbers::One(*count), out),
        Answer::Page(page) => push_page(page, out),
        Answer::Items {
            list,
            store,
            from,
            to,
        } => push_data(alloc, list, store, (*from, *to), out),
        Answer::Tree(words) => push_words_of_tree(alloc, words.as_slice(), out),
        Answer::At {
            kind,
            from,
            to,
            class,
        } => push_at(alloc, *kind, (*from, *to), *class, out),
        Answer::Offset(at) => push_count(alloc, "ok", Numbers::One(*at), out),
        Answer::Told { count, patches } => push_told(alloc, *count, patches.as_slice(), out),
        Answer::Refs(rows) => push_rows(alloc, rows.as_slice(), out),
        Answer::Caret { anchor, focus } => {
            push_count(alloc, "ok", Numbers::Two(*anchor, *focus), out)
        }
        Answer::Sent(entries) => push_count(alloc, "ok", Numbers::One(*entries), out),
        Answer::Served {
            accepted,
            total,
            clash,
        } => { push_served(alloc, *accepted, *total, *clash, out) }
        Answer::TookForeign { entries, dropped } => push_took(alloc, *entries, *dropped, out),
        Answer::TookAck { accepted } => {
            push_count(alloc, "ok ack", Numbers::One(*accepted), out)
        }
        Answer::Grid {
            rows,
            columns,
            cells,
        } => { push_grid(alloc, *rows, *columns, cells.as_slice(), out) }
        Answer::No(refusal) => push_refusal(alloc, *refusal, out),
        Answer::NoBatch { at, refusal } => push_batch_refusal(alloc, *at, *refusal, out),
    }
}

/// Appends the answer and a newline. An `Err` may leave a part appended.
fn push_line(alloc: Global, answer: &Answer<'_>, out: &mut Spelling) -> Result<(), Memory>
    requires { AnswerCites answer.now }
    ensures ok { OnOk result (
        out.new.text ≡ out.old.text ++ (model.reply_text (reply_of answer.now) ++ 10 ∷ [])) }
    ensures before { out.new.before ≡ out.old.before }
{
    push_answer(alloc, answer, out)?;
    out.push_byte(b'\n')
}

/// Appends the text of an answer and a newline. An `Err` changes nothing.
pub fn reply_text(alloc: Global, answer: &Answer<'_>, out: &mut Bytes) -> Result<(), Memory>
    requires { AnswerCites answer.now }
    ensures ok { OnOk result (
        out.new ≡ out.old ++ (model.reply_text (reply_of answer.now) ++ 10 ∷ [])) }
    ensures err { OnErr result (out.new ≡ out.old) }
{
    let mut spelling = Spelling::after(replace(out, Bytes::new(alloc)));
    let pushed = push_line(alloc, answer, &mut spelling);
    *out = if pushed.is_ok() {
        spelling.finish()
    } else {
        spelling.abandon()
    };
    pushed
}
