//! Characters between tags.

ghost use Rattle.std.specs.Prelude.{◌≡◌, ◌++◌, false, OnOk, OnErr, IsUtf8};
ghost use Rattle.model_spelling.specs.Written.{escaped};

use crate::escape::push_escaped;
use std::alloc::Global;
use ve_base::{Bytes, Memory};

/// Appends the characters of a text, where `&`, U+00A0, `<` and `>` are written as references. An
/// `Err` changes nothing.
pub fn put_text(alloc: Global, out: &mut Bytes, text: &str) -> Result<(), Memory>
    ensures ok { OnOk result (out.new ≡ out.old ++ escaped false text.now) }
    ensures err { OnErr result (out.new ≡ out.old) }
    ensures utf8 { OnOk result (IsUtf8 out.old → IsUtf8 out.new) }
{
    let mut piece = Bytes::new(alloc);
    push_escaped(&mut piece, text.as_bytes(), false)?;
    out.push(piece.as_slice())
}
