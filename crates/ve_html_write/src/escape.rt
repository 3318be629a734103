//! Which characters are written as references, in texts and in values.

ghost use Rattle.std.specs.Prelude.{◌≡◌, ◌≤◌, ◌<◌, ◌+◌, ◌++◌, ◌∷◌, [], length, slice_index, slice_range, IfSome, IfNone, OnErr, OnOk, IsUtf8};
ghost use Rattle.model_spelling.specs.Written.{escaped};
ghost use Rattle.ve_html_write.specs.Tags.{IsPartlyAppended, IsSpelledAs};

use ve_base::{Bytes, Memory};

/// A reference, and the length in bytes of the character that it stands for.
#[derive(Clone, Copy)]
struct Reference {
    spelled: &'static [u8],
    len: usize,
}

/// The reference for the character that begins at that byte; `None` where the byte is written as it
/// is.
#[tactic(auto, using(crate::proofs::Escaping::reference_steps))]
fn reference_at(bytes: &[u8], at: usize, in_value: bool) -> Option<Reference>
    requires { at < length bytes.now }
    ensures some { IfSome result (λ r.
        IsSpelledAs in_value bytes.now at (at + r.len) r.spelled.now) }
    ensures more { IfSome result (λ r. 0 < r.len) }
    ensures bound { IfSome result (λ r. at + r.len ≤ length bytes.now) }
    ensures none { IfNone result (
        IsSpelledAs in_value bytes.now at (at + 1) (slice_index bytes.now at ∷ [])) }
{
    let (spelled, len): (&'static [u8], usize) = match bytes[at] {
        b'&' => (b"&amp;", 1),
        b'<' => (b"&lt;", 1),
        b'>' => (b"&gt;", 1),
        b'"' => {
            if !in_value {
                return None;
            }
            (b"&quot;", 1)
        }
        0xc2 => {
            if at + 1 == bytes.len() || bytes[at + 1] != 0xa0 {
                return None;
            }
            (b"&nbsp;", 2)
        }
        _ => return None,
    };
    Some(Reference { spelled, len })
}

/// Where the next character with a reference begins, from that byte on; else the end.
#[tactic(auto, using(crate::proofs::Escaping::run_begun, crate::proofs::Escaping::run_more))]
fn run_end(bytes: &[u8], from: usize, in_value: bool) -> usize
    requires { from ≤ length bytes.now }
    ensures run { IsSpelledAs in_value bytes.now from result (slice_range bytes.now from result) }
    ensures more { from ≤ result }
    ensures bound { result ≤ length bytes.now }
{
    let mut at = from;
    while at < bytes.len() && reference_at(bytes, at, in_value).is_none() {
        at += 1;
    }
    at
}

/// How what stands at a position is written, and where it ends.
#[derive(Clone, Copy)]
struct Piece<'a> {
    spelled: &'a [u8],
    to: usize,
}

/// The reference at that position, or the bytes up to the next one, which are written as they are.
#[tactic(auto, using(crate::proofs::Escaping::run_from))]
fn piece_at(bytes: &[u8], at: usize, in_value: bool) -> Piece<'_>
    requires { at < length bytes.now }
    ensures piece { IsSpelledAs in_value bytes.now at result.to result.spelled.now }
    ensures more { at < result.to }
    ensures bound { result.to ≤ length bytes.now }
{
    if let Some(reference) = reference_at(bytes, at, in_value) {
        return Piece {
            spelled: reference.spelled,
            to: at + reference.len,
        };
    }
    let to = run_end(bytes, at + 1, in_value);
    Piece {
        spelled: &bytes[at..to],
        to,
    }
}

/// Appends the characters of a text, or of a value, as they are written. An `Err` leaves a prefix
/// of them appended.
#[tactic(auto, using(crate::proofs::Escaping::piece_written))]
pub fn push_escaped(out: &mut Bytes, bytes: &[u8], in_value: bool) -> Result<(), Memory>
    ensures ok { OnOk result (out.new ≡ out.old ++ escaped in_value bytes.now) }
    ensures err { OnErr result (IsPartlyAppended out.old out.new (escaped in_value bytes.now)) }
    ensures utf8 { OnOk result (IsUtf8 bytes.now → IsUtf8 out.old → IsUtf8 out.new) }
{
    let mut at = 0;
    while at < bytes.len() {
        let piece = piece_at(bytes, at, in_value);
        out.push(piece.spelled)?;
        at = piece.to;
    }
    Ok(())
}
