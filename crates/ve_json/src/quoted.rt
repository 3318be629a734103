// A text as a JSON string, as `serde_json` writes it, straight into a buffer.
ghost use Rattle.std.specs.Prelude.{◌≡◌, ◌++◌, ◌∷◌, [], ◌<◌, OnErr, OnOk, MatchOption, ℕ, length, take};
ghost use Rattle.std.specs.Char.{digit_char};
ghost use Rattle.json.specs.Print.{escape_letter, escape_byte, escape, quoted};
ghost use Rattle.ve_json.specs.Pieces.{is_escaped, IsUnescaped};

use crate::spelling::Spelling;
use ve_base::Memory;

/// The letter of a byte's short escape, or 0 where it has none.
fn escape_letter(byte: u8) -> u8
    ensures { result ≡ escape_letter byte }
{
    if byte == b'"' || byte == b'\\' {
        byte
    } else if byte == 8 {
        b'b'
    } else if byte == 12 {
        b'f'
    } else if byte == b'\n' {
        b'n'
    } else if byte == b'\r' {
        b'r'
    } else if byte == b'\t' {
        b't'
    } else {
        0
    }
}

/// A hexadecimal digit.
fn hex_digit(value: u8) -> u8
    requires { value < 16 }
    ensures { result ≡ digit_char value }
{
    if value < 10 { b'0' + value } else { 87 + value }
}

/// Appends the bytes of a JSON string that stand for a byte. An `Err` changes nothing.
fn push_escaped(byte: u8, out: &mut Spelling) -> Result<(), Memory>
    ensures ok { OnOk result (out.new.text ≡ out.old.text ++ escape_byte byte) }
    ensures err { OnErr result (out.new.text ≡ out.old.text) }
    ensures before { out.new.before ≡ out.old.before }
{
    let letter = escape_letter(byte);
    if 0 < letter {
        out.push(&[b'\\', letter])
    } else if byte < 32 {
        out.push(&[
            b'\\',
            b'u',
            b'0',
            b'0',
            hex_digit(byte / 16),
            hex_digit(byte % 16),
        ])
    } else {
        out.push_byte(byte)
    }
}

/// Whether a byte doesn't stand for itself in a JSON string.
fn is_escaped(byte: u8) -> bool
    ensures { result ≡ is_escaped byte }
{
    byte < 32 || byte == b'"' || byte == b'\\'
}

/// The bytes before the first that doesn't stand for itself, that byte, and those after it.
fn split_escaped(bytes: &[u8]) -> Option<(&[u8], u8, &[u8])>
    ensures { MatchOption result (IsUnescaped bytes.now)
        (λ parts. IsUnescaped parts.0.now × (bytes.now ≡ parts.0.now ++ parts.1 ∷ parts.2.now)) }
{
    for (at, byte) in bytes.iter().enumerate() {
        if is_escaped(*byte) {
            return Some((&bytes[..at], *byte, &bytes[at + 1..]));
        }
    }
    None
}

/// Appends the bytes of a JSON string that stand for these: those that stand for themselves piece
/// by piece.
fn push_all_escaped(bytes: &[u8], out: &mut Spelling) -> Result<(), Memory>
    ensures ok { OnOk result (out.new.text ≡ out.old.text ++ escape bytes.now) }
    ensures before { out.new.before ≡ out.old.before }
{
    let mut rest = bytes;
    'escapes: while let Some((plain, byte, more)) = split_escaped(rest) {
        out.push(plain)?;
        push_escaped(byte, out)?;
        rest = more;
    }
    out.push(rest)
}

/// Appends a text as a JSON string. An `Err` may leave a part appended.
pub fn push_quoted(text: &str, out: &mut Spelling) -> Result<(), Memory>
    ensures ok { OnOk result (out.new.text ≡ out.old.text ++ quoted text.now) }
    ensures before { out.new.before ≡ out.old.before }
{
    out.push_byte(b'"')?;
    push_all_escaped(text.as_bytes(), out)?;
    out.push_byte(b'"')
}
