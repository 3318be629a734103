// References: their tags, with the composed `data-mw` in the place of their own.
ghost use Rattle.std.specs.Prelude.{◌≡◌, ◌++◌, true, OnOk, option_map, bytes_eq, codes, encode_utf8_all, IsUtf8};
ghost use Rattle.model_spelling.specs.Grammar.{attr_text};
ghost use Rattle.model_spelling.specs.Written.{attr_bytes, canon_attr};
ghost use Rattle.model_page.specs.Editable.{is_editable_ref};
ghost use Rattle.model_page_write.specs.Written.{with_mw};
ghost use Rattle.ve_node_text.specs.Leaves.{CanCompose, ref_of, ref_start};

use std::alloc::Global;
use ve_base::{Attr, Bytes, Head, Memory};
use ve_html_write::{push_attr, put_end};
use ve_internal::compose;

fn is_data_mw(attr: &Attr) -> bool
    ensures { result ≡ bytes_eq (encode_utf8_all attr.now.name) (codes "data-mw") }
{
    attr.name.as_str() == "data-mw"
}

/// Appends an attribute of a reference whose body has this text, if it carries one: the composed
/// `data-mw` in the place of its own.
fn push_attr_of(
    alloc: Global,
    out: &mut Bytes,
    attr: &Attr,
    body: Option<&str>,
) -> Result<(), Memory>
    requires { CanCompose attr.now }
    ensures text { OnOk result (
        out.new
        ≡ out.old
        ++ attr_text (
        canon_attr (
        with_mw (attr_bytes attr.now) (option_map (λ b. b.now) body.entry)))) }
    ensures utf8 { OnOk result (IsUtf8 out.old → IsUtf8 out.new) }
{
    if is_data_mw(attr) {
        let composed = compose(alloc, attr.value.as_str(), body)?;
        push_attr(out, attr.name.as_str(), composed.as_str())?;
        return Ok(());
    }
    push_attr(out, attr.name.as_str(), attr.value.as_str())
}

/// Appends the start tag of a reference.
fn push_start_of(
    alloc: Global,
    out: &mut Bytes,
    head: &Head,
    body: Option<&str>,
) -> Result<(), Memory>
    requires { is_editable_ref head.now ≡ true }
    ensures text { OnOk result (
        out.new ≡ out.old ++ ref_start head.now (option_map (λ b. b.now) body.entry)) }
    ensures utf8 { OnOk result (IsUtf8 out.old → IsUtf8 out.new) }
{
    out.push(b"<")?;
    out.push(head.tag.as_str().as_bytes())?;
    for attr in head.attrs.as_slice() {
        push_attr_of(alloc, out, attr, body)?;
    }
    out.push(b">")?;
    Ok(())
}

/// Appends a reference, where `body` is the text of the body that it carries, if it carries one.
pub fn put_reference(
    alloc: Global,
    out: &mut Bytes,
    head: &Head,
    body: Option<&str>,
) -> Result<(), Memory>
    requires { is_editable_ref head.now ≡ true }
    ensures text { OnOk result (
        out.new ≡ out.old ++ ref_of head.now (option_map (λ b. b.now) body.entry)) }
    ensures utf8 { OnOk result (IsUtf8 out.old → IsUtf8 out.new) }
{
    push_start_of(alloc, out, head, body)?;
    out.push(head.raw.as_str().as_bytes())?;
    put_end(alloc, out, head.tag.as_str())
}
