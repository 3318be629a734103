//! How far names, characters and raw text go. Each function reads from a position in the bytes of a
//! text.

ghost use Rattle.std.specs.Prelude.{◌≡◌, ◌≤◌, ◌<◌, ◌+◌, length, drop, slice_index, nat_eq, not, ◌==◌, true, IsTrue, IsSome, IfOk};
ghost use Rattle.std.specs.List.{prefix_len, common_prefix_len};
ghost use Rattle.model_spelling.specs.Grammar.{is_barred, begins_with, is_letter, is_name_byte, references, starts_reference};
ghost use Rattle.model_spelling.specs.Reading.{fault, longest_prefix, reference_fault, run_end, verbatim_end};
ghost use Rattle.ve_html_scan.specs.Parts.{closing_text};

use crate::fault::{fault_at, refusal};
use model_spelling::{ScanFault, ScanWhat};

/// U+0000 and U+000D stand in no token.
#[tactic(auto, unfolding(model_spelling::specs::Grammar::is_barred))]
pub fn is_barred_byte(b: u8) -> bool
    ensures { result ≡ is_barred b }
{
    b == 0 || b == b'\r'
}

#[tactic(auto, unfolding(model_spelling::specs::Grammar::is_letter))]
pub fn is_tag_letter(b: u8) -> bool
    ensures { result ≡ is_letter b }
{
    b.is_ascii_alphabetic()
}

pub fn is_byte_of_name(b: u8) -> bool
    ensures { result ≡ is_name_byte b }
{
    b.is_ascii_alphanumeric() || b == b'-' || b == b'_' || b == b'.' || b == b':'
}

/// Where the name that begins at that position ends.
pub fn name_end(bytes: &[u8], from: usize) -> usize
    requires { from ≤ length bytes.now }
    ensures end { result ≡ from + prefix_len is_name_byte (drop from bytes.now) }
    ensures bound { result ≤ length bytes.now }
{
    let mut at = from;
    while at < bytes.len() && is_byte_of_name(bytes[at]) {
        at += 1;
    }
    at
}

/// Where the first such byte from that position on stands; else the end.
pub fn next_place_of(bytes: &[u8], from: usize, byte: u8) -> usize
    requires { from ≤ length bytes.now }
    ensures end { result ≡ from + prefix_len (λ b. not (b == byte)) (drop from bytes.now) }
    ensures bound { (from ≤ result) × (result ≤ length bytes.now) }
    ensures found { result < length bytes.now → slice_index bytes.now result ≡ byte }
{
    let mut at = from;
    while at < bytes.len() && bytes[at] != byte {
        at += 1;
    }
    at
}

/// The bytes from that position on.
pub fn rest(bytes: &[u8], from: usize) -> &[u8]
    requires { from ≤ length bytes.now }
    ensures value { result.now ≡ drop from bytes.now }
    ensures len { length result.now + from ≡ length bytes.now }
{
    bytes.split_at(from).1
}

/// Whether the text begins with that prefix.
#[tactic(auto, unfolding(model_spelling::specs::Grammar::begins_with))]
pub fn begins(text: &[u8], prefix: &[u8]) -> bool
    ensures value { result ≡ begins_with prefix.now text.now }
    ensures bound { IsTrue result → length prefix.now ≤ length text.now }
{
    text.starts_with(prefix)
}

#[tactic(auto, using(crate::proofs::Steps::common_ends))]
fn common_len(reference: &[u8], text: &[u8]) -> usize
    ensures len { result ≡ common_prefix_len nat_eq reference.now text.now }
    ensures bound { result ≤ length text.now }
{
    let mut n = 0;
    while n < reference.len() && n < text.len() && reference[n] == text[n] {
        n += 1;
    }
    n
}

fn longest_reference_prefix(text: &[u8]) -> usize
    ensures len { result ≡ longest_prefix references text.now }
    ensures bound { result ≤ length text.now }
{
    let amp = common_len(b"&amp;", text);
    let less = common_len(b"&lt;", text);
    let greater = common_len(b"&gt;", text);
    let space = common_len(b"&nbsp;", text);
    let quote = common_len(b"&quot;", text);
    let apostrophe = common_len(b"&apos;", text);
    amp.max(less)
        .max(greater)
        .max(space)
        .max(quote)
        .max(apostrophe)
}

#[tactic(auto, unfolding(model_spelling::specs::Grammar::starts_reference))]
fn begins_reference(text: &[u8]) -> bool
    ensures { result ≡ starts_reference text.now }
{
    begins(text, b"&amp;")
        || begins(text, b"&lt;")
        || begins(text, b"&gt;")
        || begins(text, b"&nbsp;")
        || begins(text, b"&quot;")
        || begins(text, b"&apos;")
}

/// The fault of the `&` at that position, which starts no reference. `unclosed` is the fault of a
/// text that ends inside of one, where it isn't the `&`'s own.
#[tactic(auto, using(crate::proofs::Steps::reference_steps))]
fn reference_refusal(bytes: &[u8], at: usize, unclosed: Option<ScanFault>) -> ScanFault
    requires { at ≤ length bytes.now }
    ensures { result ≡ reference_fault unclosed at (drop at bytes.now) }
{
    let bad = fault_at(at, ScanWhat::BadReference);
    let after = at + longest_reference_prefix(rest(bytes, at));
    if after < bytes.len() {
        return refusal(after, bytes[after], bad);
    }
    match unclosed {
        None => bad,
        Some(fault) => fault,
    }
}

/// Where the characters from here on end: at the byte `stop`, or at the end where that is no fault.
#[tactic(auto, using(crate::proofs::Steps::run_steps))]
pub fn characters_end(
    bytes: &[u8],
    from: usize,
    stop: u8,
    unclosed: Option<ScanFault>,
) -> Result<usize, ScanFault>
    requires { from ≤ length bytes.now }
    ensures read { result ≡ run_end unclosed stop from (drop from bytes.now) }
    ensures bound { IfOk result (λ to. (from ≤ to) × (to ≤ length bytes.now)) }
    ensures stop { IfOk result (λ to. to < length bytes.now → slice_index bytes.now to ≡ stop) }
    ensures end { IfOk result (λ to. IsSome unclosed → to < length bytes.now) }
{
    let mut at = from;
    while at < bytes.len() {
        let b = bytes[at];
        if b == stop {
            return Ok(at);
        }
        if is_barred_byte(b) {
            return Err(fault_at(at, ScanWhat::BadChar));
        }
        if b == b'&' && !begins_reference(rest(bytes, at)) {
            return Err(reference_refusal(bytes, at, unclosed));
        }
        at += 1;
    }
    match unclosed {
        None => Ok(at),
        Some(fault) => Err(fault),
    }
}

/// The end of a comment, or of the raw text of the element of that name.
#[derive(Clone, Copy)]
pub enum Close<'a> {
    Comment,
    Raw(&'a [u8]),
}

/// Whether the closing stands at that position.
#[tactic(auto, using(crate::proofs::Steps::close_steps))]
fn closes(bytes: &[u8], at: usize, close: Close<'_>) -> bool
    requires { at ≤ length bytes.now }
    ensures value { result ≡ begins_with (closing_text close.entry) (drop at bytes.now) }
    ensures bound { IsTrue result → at + length (closing_text close.entry) ≤ length bytes.now }
{
    match close {
        Close::Comment => begins(rest(bytes, at), b"-->"),
        Close::Raw(name) => {
            let text = rest(bytes, at);
            if !begins(text, b"</") {
                return false;
            }
            let text = rest(text, 2);
            if !begins(text, name) {
                return false;
            }
            begins(rest(text, name.len()), b">")
        }
    }
}

/// Where the first closing from here on stands.
#[tactic(auto, using(crate::proofs::Steps::verbatim_steps))]
pub fn closing_at(
    bytes: &[u8],
    from: usize,
    close: Close<'_>,
    unclosed: ScanFault,
) -> Result<usize, ScanFault>
    requires { from ≤ length bytes.now }
    ensures read { result
        ≡ verbatim_end (closing_text close.entry) unclosed from (drop from bytes.now) }
    ensures bound { IfOk result (λ to.
        (from ≤ to) × (to + length (closing_text close.entry) ≤ length bytes.now)) }
    ensures found { IfOk result (λ to.
        begins_with (closing_text close.entry) (drop to bytes.now) ≡ true) }
{
    let mut at = from;
    while at < bytes.len() {
        if closes(bytes, at, close) {
            return Ok(at);
        }
        if is_barred_byte(bytes[at]) {
            return Err(fault_at(at, ScanWhat::BadChar));
        }
        at += 1;
    }
    Err(unclosed)
}
