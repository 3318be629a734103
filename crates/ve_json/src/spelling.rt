// A text that is being written into a buffer.
ghost use Rattle.std.specs.Prelude.{◌≡◌, ◌++◌, [], ◌∷◌, OnErr, OnOk};

use std::marker::Model;
use ve_base::{Bytes, Memory};

/// A text that is being written, after the former content of its buffer. Where memory is short, the
/// text can be taken away again.
#[derive(Drop)]
pub struct Spelling {
    buffer: Bytes,
    // how many bytes stood there before
    start: usize,
}

impl Model for Spelling {
    ghost use Rattle.std.specs.Prelude.{◌≤◌, length, take, drop};
    ghost use Rattle.ve_json.specs.Spelling.{Spelled};

    ghost Value = { Spelled };

    ghost view = { λ s. record { before = take s.start s.buffer; text = drop s.start s.buffer } };

    ghost invariant = { λ s. s.start ≤ length s.buffer };
}

impl Spelling {
    /// No text yet, after the content of a buffer.
    pub fn after(buffer: Bytes) -> Spelling
        ensures before { result.before ≡ buffer }
        ensures text { result.text ≡ [] }
    {
        let start = buffer.as_slice().len();
        Spelling { buffer, start }
    }

    /// Appends a piece of the text. An `Err` changes nothing.
    pub fn push(&mut self, piece: &[u8]) -> Result<(), Memory>
        ensures ok { OnOk result (self.new.text ≡ self.old.text ++ piece.now) }
        ensures err { OnErr result (self.new.text ≡ self.old.text) }
        ensures before { self.new.before ≡ self.old.before }
    {
        self.buffer.push(piece)
    }

    /// Appends one byte of the text. An `Err` changes nothing.
    pub fn push_byte(&mut self, byte: u8) -> Result<(), Memory>
        ensures ok { OnOk result (self.new.text ≡ self.old.text ++ byte ∷ []) }
        ensures err { OnErr result (self.new.text ≡ self.old.text) }
        ensures before { self.new.before ≡ self.old.before }
    {
        self.push(&[byte])
    }

    /// The buffer with the text.
    pub fn finish(self) -> Bytes
        ensures { result ≡ self.before ++ self.text }
    {
        self.buffer
    }

    /// The buffer without the text.
    pub fn abandon(self) -> Bytes
        ensures { result ≡ self.before }
    {
        let mut buffer = self.buffer;
        buffer.truncate(self.start);
        buffer
    }
}
