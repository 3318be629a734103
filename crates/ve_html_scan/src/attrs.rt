//! Attributes of a start tag. `tag` is the position of its `<`.

ghost use Rattle.std.specs.Prelude.{◌≡◌, ◌≤◌, ◌<◌, ◌+◌, ◌-◌, ◌++◌, ◌==◌, ◌||◌, ℕ, List, [], not, length, drop, slice_range, slice_index, IfOk};
ghost use Rattle.std.specs.List.{flat_map, prefix_len};
ghost use Rattle.ve_base.specs.Limits.{max_attributes};
ghost use Rattle.model_spelling.specs.Grammar.{is_name_byte, attr_text};
ghost use Rattle.model_spelling.specs.Reading.{fault, byte_fault, head_at, value_end, attrs_at, attrs_from, tag_close};
ghost use Rattle.ve_html_scan.specs.Parts.{Finds, head_view, AreSpelled, IsQuote, close_text};

use crate::attr_names::AttrNames;
use crate::fault::{fault_at, refusal};
use crate::runs::{characters_end, name_end};
use model_spelling::{ScanFault, ScanWhat};

/// Where the name ends of the attribute that begins after the space at `place`.
#[tactic(auto, using(crate::proofs::AttrSteps::head_steps))]
fn attr_name(bytes: &[u8], tag: usize, place: usize) -> Result<usize, ScanFault>
    requires { place < length bytes.now }
    ensures read { Finds (head_view bytes.now place) result (
        head_at tag place (drop (place + 1) bytes.now)) }
    ensures bound { IfOk result (λ to. (place + 1 < to) × (to + 1 < length bytes.now)) }
    ensures end { IfOk result (λ to.
        to ≡ place + 1 + prefix_len is_name_byte (drop (place + 1) bytes.now)) }
    ensures equals { IfOk result (λ to. slice_index bytes.now to ≡ 61) }
    ensures mark { IfOk result (λ to. IsQuote (slice_index bytes.now (to + 1))) }
{
    let from = place + 1;
    let bad = fault_at(place, ScanWhat::BadAttribute);
    let cut = fault_at(tag, ScanWhat::UnclosedTag);
    let to = name_end(bytes, from);
    if to == bytes.len() {
        return Err(cut);
    }
    if to == from {
        return Err(refusal(to, bytes[to], bad));
    }
    if bytes[to] != b'=' {
        return Err(refusal(to, bytes[to], bad));
    }
    if to + 1 == bytes.len() {
        return Err(cut);
    }
    if bytes[to + 1] == b'"' {
        return Ok(to);
    }
    if bytes[to + 1] != b'\'' {
        return Err(refusal(to + 1, bytes[to + 1], bad));
    }
    Ok(to)
}

/// Where the value ends that begins at that position, just after its quote.
fn attr_value(bytes: &[u8], tag: usize, from: usize) -> Result<usize, ScanFault>
    requires bound { from ≤ length bytes.now }
    requires quote { 0 < from }
    ensures read { result
        ≡ value_end tag (slice_index bytes.now (from - 1)) from (drop from bytes.now) }
    ensures bound { IfOk result (λ to. (from ≤ to) × (to < length bytes.now)) }
    ensures close { IfOk result (λ to.
        slice_index bytes.now to ≡ slice_index bytes.now (from - 1)) }
{
    let unclosed = fault_at(tag, ScanWhat::UnclosedTag);
    characters_end(bytes, from, bytes[from - 1], Some(unclosed))
}

/// The end of a start tag: whether there is a `/`, and the position after the `>`.
#[tactic(auto, using(crate::proofs::AttrSteps::close_steps))]
pub fn tag_end(bytes: &[u8], tag: usize, void: bool, at: usize) -> Result<(bool, usize), ScanFault>
    requires { at ≤ length bytes.now }
    ensures read { result ≡ tag_close tag void at (drop at bytes.now) }
    ensures bound { IfOk result (λ x. (at < x.1) × (x.1 ≤ length bytes.now)) }
    ensures first { IfOk result (λ x. slice_index bytes.now at < 128) }
    ensures close { IfOk result (λ x. slice_index bytes.now (x.1 - 1) ≡ 62) }
    ensures text { IfOk result (λ x. drop at bytes.now ≡ close_text x.0 ++ drop x.1 bytes.now) }
{
    let bad = fault_at(at, ScanWhat::BadAttribute);
    let cut = fault_at(tag, ScanWhat::UnclosedTag);
    if at == bytes.len() {
        return Err(cut);
    }
    if bytes[at] == b'>' {
        return Ok((false, at + 1));
    }
    if bytes[at] != b'/' || !void {
        return Err(refusal(at, bytes[at], bad));
    }
    if at + 1 == bytes.len() {
        return Err(cut);
    }
    if bytes[at + 1] != b'>' {
        return Err(refusal(at + 1, bytes[at + 1], bad));
    }
    Ok((true, at + 2))
}

/// `"` or `'`.
pub fn is_quote(b: u8) -> bool
    ensures { result ≡ (b == 34 || b == 39) }
{
    b == b'"' || b == b'\''
}

/// Where the attributes end that begin at that position, just after the tag's name. `names` is room
/// for their names.
pub fn attrs_end<'a>(
    bytes: &'a [u8],
    tag: usize,
    from: usize,
    names: &mut AttrNames<'a>,
) -> Result<usize, ScanFault>
    requires { from ≤ length bytes.now }
    ensures read { Finds (λ to. (attrs_from tag from bytes.now, to)) result (
        attrs_at max_attributes tag [] from (drop from bytes.now)) }
    ensures bound { IfOk result (λ to. (from ≤ to) × (to ≤ length bytes.now)) }
    ensures first { IfOk result (λ to. from < to → slice_index bytes.now from < 128) }
    ensures spelled { IfOk result (λ to. AreSpelled (attrs_from tag from bytes.now)) }
    ensures text { IfOk result (λ to.
        drop from bytes.now
        ≡ flat_map attr_text (attrs_from tag from bytes.now) ++ drop to bytes.now) }
{
    names.clear();
    let mut at = from;
    while at < bytes.len() && bytes[at] == b' ' {
        let name_to = attr_name(bytes, tag, at)?;
        if names.is_full() {
            return Err(fault_at(at + 1, ScanWhat::TooManyAttributes));
        }
        if !names.insert(&bytes[at + 1..name_to]) {
            return Err(fault_at(at + 1, ScanWhat::DuplicateAttribute));
        }
        at = attr_value(bytes, tag, name_to + 2)? + 1;
    }
    Ok(at)
}
