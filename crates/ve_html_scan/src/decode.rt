//! Decoding of an escaped text or value.

ghost use Rattle.std.specs.Prelude.{◌≡◌, ◌≤◌, ◌<◌, ◌-◌, ◌++◌, ◌∷◌, [], length, drop, slice_index, IsCharBoundary, IsUtf8, IfOk, IfSome, IfNone, bytes_eq, encode_utf8_all};
ghost use Rattle.std.specs.Str.{chars};
ghost use Rattle.model_spelling.specs.Written as written;

use crate::runs::{begins, next_place_of, rest};
use std::alloc::Global;
use std::marker::Model;
use ve_base::{Memory, Text};

/// The reference that a text begins with: how long it is, and what it stands for.
#[derive(Clone, Copy)]
struct Reference {
    meaning: &'static str,
    len: usize,
}

/// The reference that a text begins with, or the `&` itself where it begins no reference.
#[tactic(auto, using(crate::proofs::Decoding::prefix_steps))]
fn first_reference(text: &[u8]) -> Reference
    requires { slice_index text.now 0 ≡ 38 }
    ensures decoded { written.decoded text.now
        ≡ result.meaning.now ++ written.decoded (drop result.len text.now) }
    ensures some { 0 < result.len }
    ensures inside { result.len ≤ length text.now }
    ensures ascii { slice_index text.now (result.len - 1) < 128 }
    ensures utf8 { IsUtf8 result.meaning.now }
{
    if begins(text, b"&amp;") {
        return Reference {
            meaning: "&",
            len: 5,
        };
    }
    if begins(text, b"&lt;") {
        return Reference {
            meaning: "<",
            len: 4,
        };
    }
    if begins(text, b"&gt;") {
        return Reference {
            meaning: ">",
            len: 4,
        };
    }
    if begins(text, b"&nbsp;") {
        return Reference {
            meaning: "\u{a0}",
            len: 6,
        };
    }
    if begins(text, b"&quot;") {
        return Reference {
            meaning: "\"",
            len: 6,
        };
    }
    if begins(text, b"&apos;") {
        return Reference {
            meaning: "'",
            len: 6,
        };
    }
    Reference {
        meaning: "&",
        len: 1,
    }
}

/// One decoded piece of a text, and the position where its spelling ends.
#[derive(Clone, Copy)]
struct Piece<'a> {
    text: &'a str,
    to: usize,
}

/// The reference at that position, or the text up to the next `&`.
fn piece_at<'a>(spelled: &'a str, at: usize) -> Piece<'a>
    requires inside { at < length spelled.now }
    requires boundary { IsCharBoundary spelled.now at }
    ensures decoded { written.decoded (drop at spelled.now)
        ≡ result.text.now ++ written.decoded (drop result.to spelled.now) }
    ensures boundary { IsCharBoundary spelled.now result.to }
    ensures more { at < result.to }
    ensures bound { result.to ≤ length spelled.now }
    ensures utf8 { IsUtf8 result.text.now }
{
    let bytes = spelled.as_bytes();
    if bytes[at] == b'&' {
        let first = first_reference(rest(bytes, at));
        return Piece {
            text: first.meaning,
            to: at + first.len,
        };
    }
    let to = next_place_of(bytes, at, b'&');
    Piece {
        text: &spelled[at..to],
        to,
    }
}

/// A text or value of a page with its six references replaced by their characters. An `&` that
/// starts none of them stays.
pub fn decoded(alloc: Global, spelled: &str) -> Result<Text, Memory>
    ensures chars { IfOk result (λ text. text ≡ chars (written.decoded spelled.now)) }
    ensures bytes { IfOk result (λ text. encode_utf8_all text ≡ written.decoded spelled.now) }
{
    let mut text = Text::new(alloc);
    let mut at = 0;
    while at < spelled.len() {
        let piece = piece_at(spelled, at);
        text.push_str(piece.text)?;
        at = piece.to;
    }
    Ok(text)
}

/// The decoding of an escaped text or value, byte by byte: the bytes that are still to come.
#[derive(Drop)]
struct Decoding<'a> {
    spelled: &'a str,
    at: usize,
    piece: &'a str,
    used: usize,
}

impl<'a> Model for Decoding<'a> {
    ghost use Rattle.std.specs.Prelude.{ℕ, List, ◌≤◌, ◌++◌, drop, length, IsCharBoundary};
    ghost use Rattle.model_spelling.specs.Written.{decoded};

    ghost Value = { List ℕ };

    ghost view = { λ d. drop d.used d.piece.now ++ decoded (drop d.at d.spelled.now) };

    ghost invariant = { λ d. (d.used ≤ length d.piece.now) × (d.at ≤ length d.spelled.now) × IsCharBoundary d.spelled.now d.at };
}

impl<'a> Decoding<'a> {
    fn new(spelled: &'a str) -> Decoding<'a>
        ensures { result ≡ written.decoded spelled.now }
    {
        Decoding {
            spelled,
            at: 0,
            piece: "",
            used: 0,
        }
    }

    /// The next byte.
    fn next(&mut self) -> Option<u8>
        ensures some { IfSome result (λ b. self.old ≡ b ∷ self.new) }
        ensures none { IfNone result (self.old ≡ []) }
    {
        'piece: while self.used == self.piece.len() {
            if self.at == self.spelled.len() {
                return None;
            }
            let piece = piece_at(self.spelled, self.at);
            self.piece = piece.text;
            self.at = piece.to;
            self.used = 0;
        }
        let b = self.piece.as_bytes()[self.used];
        self.used += 1;
        Some(b)
    }
}

/// Whether two escaped texts or values decode to the same. It takes no memory.
pub fn decoded_same(one: &str, other: &str) -> bool
    ensures { result ≡ bytes_eq (written.decoded one.now) (written.decoded other.now) }
{
    let mut left = Decoding::new(one);
    let mut right = Decoding::new(other);
    'bytes: loop {
        match (left.next(), right.next()) {
            (Some(a), Some(b)) => {
                if a != b {
                    return false;
                }
            }
            (None, None) => return true,
            (Some(_), None) | (None, Some(_)) => return false,
        }
    }
}
