//! Tokens that begin with `<`. `tag` is the position of that byte.

ghost use Rattle.std.specs.Prelude.{◌≡◌, ◌≤◌, ◌<◌, ◌+◌, ◌-◌, length, drop, slice_range, slice_index, true, IfOk};
ghost use Rattle.model_spelling.specs.Grammar.{is_barred, begins_with, is_letter, End, Comment, comment_close};
ghost use Rattle.model_spelling.specs.Reading.{fault, byte_fault, attrs_from, start_at, end_at, is_doctype, comment_at, markup_at};
ghost use Rattle.ve_html_scan.specs.Parts.{Finds, start_view, after_name, AreSpelled};

use crate::attr_names::AttrNames;
use crate::attrs::{attrs_end, tag_end};
use crate::fault::{fault_at, refusal};
use crate::names::is_plaintext_name;
use crate::runs::{Close, closing_at, is_tag_letter, name_end, rest};
use model_spelling::{ScanFault, ScanWhat};
use ve_kinds::is_void_name;

/// Where the name of an end tag ends.
#[tactic(auto, using(crate::proofs::TagSteps::end_steps))]
pub fn end_tag(bytes: &[u8], tag: usize) -> Result<usize, ScanFault>
    requires { tag + 2 ≤ length bytes.now }
    ensures read { Finds (λ to. (End (slice_range bytes.now (tag + 2) to), to + 1)) result
        (end_at tag (drop (tag + 2) bytes.now)) }
    ensures bound { IfOk result (λ to. (tag + 2 ≤ to) × (to < length bytes.now)) }
    ensures close { IfOk result (λ to. slice_index bytes.now to ≡ 62) }
    ensures letter { IfOk result (λ to. slice_index bytes.now (tag + 2) < 128) }
{
    let from = tag + 2;
    if from == bytes.len() {
        return Err(fault_at(tag, ScanWhat::UnclosedTag));
    }
    if !is_tag_letter(bytes[from]) {
        return Err(refusal(from, bytes[from], fault_at(tag, ScanWhat::BadTag)));
    }
    let to = name_end(bytes, from);
    if to == bytes.len() {
        return Err(fault_at(tag, ScanWhat::UnclosedTag));
    }
    if bytes[to] != b'>' {
        return Err(refusal(to, bytes[to], fault_at(tag, ScanWhat::BadTag)));
    }
    if is_plaintext_name(&bytes[from..to]) {
        return Err(fault_at(tag, ScanWhat::BadTag));
    }
    Ok(to)
}

#[tactic(auto, unfolding(model_spelling::specs::Reading::is_doctype, model_spelling::specs::Grammar::name_same))]
fn is_doctype_word(text: &[u8]) -> bool
    ensures { result ≡ is_doctype text.now }
{
    text.len() >= 7 && text[..7].eq_ignore_ascii_case(b"doctype")
}

/// Where the text of a comment ends.
#[tactic(auto, using(crate::proofs::TagSteps::comment_steps))]
fn comment(bytes: &[u8], tag: usize) -> Result<usize, ScanFault>
    requires { tag + 4 ≤ length bytes.now }
    ensures read { Finds (λ to. (Comment (slice_range bytes.now (tag + 4) to), to + 3)) result
        (comment_at tag (drop (tag + 4) bytes.now)) }
    ensures bound { IfOk result (λ to. (tag + 4 ≤ to) × (to + 3 ≤ length bytes.now)) }
    ensures close { IfOk result (λ to. begins_with comment_close (drop to bytes.now) ≡ true) }
{
    closing_at(
        bytes,
        tag + 4,
        Close::Comment,
        fault_at(tag, ScanWhat::UnclosedComment),
    )
}

/// Where the text of the comment that begins with `<!` ends.
#[tactic(auto, using(crate::proofs::TagSteps::markup_steps))]
pub fn markup(bytes: &[u8], tag: usize) -> Result<usize, ScanFault>
    requires { tag + 2 ≤ length bytes.now }
    ensures read { Finds (λ to. (Comment (slice_range bytes.now (tag + 4) to), to + 3)) result
        (markup_at tag (drop (tag + 2) bytes.now)) }
    ensures bound { IfOk result (λ to. (tag + 4 ≤ to) × (to + 3 ≤ length bytes.now)) }
    ensures dash { IfOk result (λ to. slice_index bytes.now (tag + 3) ≡ 45) }
    ensures close { IfOk result (λ to. begins_with comment_close (drop to bytes.now) ≡ true) }
{
    if tag + 2 == bytes.len() {
        return Err(fault_at(tag, ScanWhat::UnclosedComment));
    }
    if bytes[tag + 2] != b'-' {
        let what = if is_doctype_word(rest(bytes, tag + 2)) {
            ScanWhat::Doctype
        } else {
            ScanWhat::BadTag
        };
        return Err(refusal(tag + 2, bytes[tag + 2], fault_at(tag, what)));
    }
    if tag + 3 == bytes.len() {
        return Err(fault_at(tag, ScanWhat::UnclosedComment));
    }
    if bytes[tag + 3] != b'-' {
        return Err(refusal(tag + 3, bytes[tag + 3], fault_at(tag, ScanWhat::BadTag)));
    }
    comment(bytes, tag)
}

/// Where the parts of a start tag end: its name, and the whole tag, with or without a `/`.
#[derive(Clone, Copy)]
pub struct StartPlaces {
    pub name_to: usize,
    pub slash: bool,
    pub to: usize,
}

#[tactic(auto, using(crate::proofs::TagSteps::start_steps))]
pub fn start_tag<'a>(
    bytes: &'a [u8],
    tag: usize,
    names: &mut AttrNames<'a>,
) -> Result<StartPlaces, ScanFault>
    requires { tag + 1 ≤ length bytes.now }
    ensures read { Finds (start_view bytes.now tag) result (
        start_at tag (drop (tag + 1) bytes.now)) }
    ensures bound { IfOk result (λ p.
        (tag + 1 ≤ p.name_to) × (p.name_to < p.to) × (p.to ≤ length bytes.now)) }
    ensures first { IfOk result (λ p. slice_index bytes.now p.name_to < 128) }
    ensures close { IfOk result (λ p. slice_index bytes.now (p.to - 1) ≡ 62) }
    ensures spelled { IfOk result (λ p. AreSpelled (attrs_from tag p.name_to bytes.now)) }
    ensures source { IfOk result (λ p.
        slice_range bytes.now p.name_to p.to ≡ after_name bytes.now tag p) }
{
    let from = tag + 1;
    let name_to = name_end(bytes, from);
    if name_to == bytes.len() {
        return Err(fault_at(tag, ScanWhat::UnclosedTag));
    }
    let name = &bytes[from..name_to];
    if is_plaintext_name(name) {
        return Err(refusal(name_to, bytes[name_to], fault_at(tag, ScanWhat::BadTag)));
    }
    let close = attrs_end(bytes, tag, name_to, names)?;
    let (slash, to) = tag_end(bytes, tag, is_void_name(name), close)?;
    Ok(StartPlaces { name_to, slash, to })
}
