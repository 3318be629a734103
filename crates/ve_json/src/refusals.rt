// The words of a refusal.
ghost use Rattle.std.specs.Prelude.{◌≡◌, ◌∷◌, []};
ghost use Rattle.model_world.specs.Spelled.{refusal_text, with_numbers};
ghost use Rattle.model_world.specs.declared.refusal.Refusal.TheVariants as a_refusal;
ghost use Rattle.ve_json.specs.ReplyWords.{words_text};

use crate::reply_words::{Numbers, Words};
use model_world::{Field, HtmlWord, Refusal, field_name, html_word};

/// A word with no number.
fn bare(second: &'static str) -> Words
    ensures { words_text result ≡ with_numbers second.now [] }
{
    Words {
        first: "",
        second,
        numbers: Numbers::NoNumber,
    }
}

/// A word with a number.
fn one(second: &'static str, number: usize) -> Words
    ensures { words_text result ≡ with_numbers second.now (number ∷ []) }
{
    Words {
        first: "",
        second,
        numbers: Numbers::One(number),
    }
}

/// A word with two numbers.
fn two(second: &'static str, number: usize, next: usize) -> Words
    ensures { words_text result ≡ with_numbers second.now (number ∷ next ∷ []) }
{
    Words {
        first: "",
        second,
        numbers: Numbers::Two(number, next),
    }
}

/// A word with four numbers, those of two ranges.
fn four(second: &'static str, range: (usize, usize), next: (usize, usize)) -> Words
    ensures { words_text result
        ≡ with_numbers second.now (range.0 ∷ range.1 ∷ next.0 ∷ next.1 ∷ []) }
{
    Words {
        first: "",
        second,
        numbers: Numbers::Four(range.0, range.1, next.0, next.1),
    }
}

/// The words of a refusal for a bad member.
fn bad_member(field: Field) -> Words
    ensures { words_text result ≡ refusal_text (a_refusal.BadCommand field) }
{
    Words {
        first: "bad_command ",
        second: field_name(field),
        numbers: Numbers::NoNumber,
    }
}

/// The words of a refusal for a page's text.
fn bad_text(word: HtmlWord, at: usize) -> Words
    ensures { words_text result ≡ refusal_text (a_refusal.Html word at) }
{
    Words {
        first: "html ",
        second: html_word(word),
        numbers: Numbers::One(at),
    }
}

/// A refusal's word with its numbers: a row for each.
pub fn refusal_words(refusal: Refusal) -> Words
    ensures { words_text result ≡ refusal_text refusal }
{
    match refusal {
        Refusal::LineTooLong { len } => one("line_too_long", len),
        Refusal::BadJson => bare("bad_json"),
        Refusal::BadCommand { field } => bad_member(field),
        Refusal::NotOpen => bare("not_open"),
        Refusal::BadSite { sites } => one("bad_site", sites),
        Refusal::PageTooLong { len } => one("page_too_long", len),
        Refusal::Html { word, at } => bad_text(word, at),
        Refusal::TooDeep { at } => one("too_deep", at),
        Refusal::TooManyMarks { at } => one("too_many_marks", at),
        Refusal::TooManyItems { count } => one("too_many_items", count),
        Refusal::StoreFull => bare("store_full"),
        Refusal::BadRange { from, to } => two("bad_range", from, to),
        Refusal::BadOffset { at } => one("bad_offset", at),
        Refusal::NotContent { at } => one("not_content", at),
        Refusal::Edge { at } => one("edge", at),
        Refusal::NoPlace { at } => one("place", at),
        Refusal::BadDepth { depth } => one("bad_depth", depth),
        Refusal::BadMark => bare("bad_mark"),
        Refusal::NotWrapped { at } => one("not_wrapped", at),
        Refusal::NotBranch { at } => one("not_branch", at),
        Refusal::NotOpening { at } => one("not_opening", at),
        Refusal::BadAttr { at } => one("bad_attr", at),
        Refusal::BadOrigin { origin } => one("bad_origin", origin),
        Refusal::BadLength { has, needs } => two("bad_length", has, needs),
        Refusal::Unlawful { at } => one("unlawful", at),
        Refusal::NothingToUndo => bare("nothing_to_undo"),
        Refusal::AlreadyShared { sent } => one("already_shared", sent),
        Refusal::NothingToRedo => bare("nothing_to_redo"),
        Refusal::InFlight { entries } => one("in_flight", entries),
        Refusal::NothingToSend => bare("nothing_to_send"),
        Refusal::NothingQueued => bare("nothing_queued"),
        Refusal::NotTable { at } => one("not_table", at),
        Refusal::Crooked { at } => one("crooked", at),
        Refusal::BadRow { row, rows } => two("bad_row", row, rows),
        Refusal::BadColumn { column, columns } => two("bad_column", column, columns),
        Refusal::TooWide { columns } => one("too_wide", columns),
        Refusal::Ragged { row } => one("ragged", row),
        Refusal::Spanned { at } => one("spanned", at),
        Refusal::SpanFull { at } => one("span_full", at),
        Refusal::NotListItem { at } => one("not_list_item", at),
        Refusal::NoSibling { at } => one("no_sibling", at),
        Refusal::NotNested { at } => one("not_nested", at),
        Refusal::BadEntry { entry, seen } => two("bad_entry", entry, seen),
        Refusal::TakenBack { entry, by } => two("taken_back", entry, by),
        Refusal::RevokeConflict { later, reversal } => four("revoke_conflict", later, reversal),
    }
}
