//! Tags.

ghost use Rattle.std.specs.Prelude.{◌≡◌, ◌++◌, IfOk, OnOk, OnErr, IsUtf8};
ghost use Rattle.model_spelling.specs.Grammar.{attr_text, end_text};
ghost use Rattle.model_spelling.specs.Written.{canon_attr, start_tag};

use crate::escape::push_escaped;
use std::alloc::Global;
use ve_base::{Attrs, Bytes, Memory};

/// Appends a space, the name, and the value in double quotes. After an `Err` a part may have been
/// appended.
pub fn push_attr(out: &mut Bytes, name: &str, value: &str) -> Result<(), Memory>
    ensures ok { OnOk result (out.new ≡ out.old ++ attr_text (canon_attr (name.now, value.now))) }
    ensures utf8 { OnOk result (IsUtf8 out.old → IsUtf8 out.new) }
{
    out.push(b" ")?;
    out.push(name.as_bytes())?;
    out.push(b"=\"")?;
    push_escaped(out, value.as_bytes(), true)?;
    out.push(b"\"")
}

fn start_bytes(alloc: Global, tag: &str, attrs: &Attrs) -> Result<Bytes, Memory>
    ensures ok { IfOk result (λ bytes. bytes ≡ start_tag tag.now attrs.now) }
    ensures utf8 { IfOk result IsUtf8 }
{
    let mut bytes = Bytes::new(alloc);
    bytes.push(b"<")?;
    bytes.push(tag.as_bytes())?;
    for attr in attrs.as_slice() {
        push_attr(&mut bytes, attr.name.as_str(), attr.value.as_str())?;
    }
    bytes.push(b">")?;
    Ok(bytes)
}

fn end_bytes(alloc: Global, tag: &str) -> Result<Bytes, Memory>
    ensures ok { IfOk result (λ bytes. bytes ≡ end_text tag.now) }
    ensures utf8 { IfOk result IsUtf8 }
{
    let mut bytes = Bytes::new(alloc);
    bytes.push(b"</")?;
    bytes.push(tag.as_bytes())?;
    bytes.push(b">")?;
    Ok(bytes)
}

/// Appends a start tag: the name, and the attributes in their order, whose values have `&`, U+00A0,
/// `<`, `>` and `"` as references. A void element has no `/`. An `Err` changes nothing.
pub fn put_start(alloc: Global, out: &mut Bytes, tag: &str, attrs: &Attrs) -> Result<(), Memory>
    ensures ok { OnOk result (out.new ≡ out.old ++ start_tag tag.now attrs.now) }
    ensures err { OnErr result (out.new ≡ out.old) }
    ensures utf8 { OnOk result (IsUtf8 out.old → IsUtf8 out.new) }
{
    let bytes = start_bytes(alloc, tag, attrs)?;
    out.push(bytes.as_slice())
}

/// Appends an end tag. An `Err` changes nothing.
pub fn put_end(alloc: Global, out: &mut Bytes, tag: &str) -> Result<(), Memory>
    ensures ok { OnOk result (out.new ≡ out.old ++ end_text tag.now) }
    ensures err { OnErr result (out.new ≡ out.old) }
    ensures utf8 { OnOk result (IsUtf8 out.old → IsUtf8 out.new) }
{
    let bytes = end_bytes(alloc, tag)?;
    out.push(bytes.as_slice())
}
