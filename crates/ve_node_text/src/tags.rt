// The tags of an element.
ghost use Rattle.std.specs.Prelude.{◌≡◌, ◌++◌, OnOk, encode_utf8_all, IsUtf8};
ghost use Rattle.model_page.specs.Tags.{tag_of};
ghost use Rattle.model_page_write.specs.Written.{end_tag};
ghost use Rattle.model_spelling.specs.Written.{start_tag};

use std::alloc::Global;
use ve_base::{Attrs, Bytes, Memory};
use ve_html_write::{put_end, put_start};
use ve_kinds::{Kind, tag_of_kind};

/// The tag that a kind is written with, empty where it has none.
fn tag_for(kind: Kind) -> &'static str
    ensures { result.now ≡ encode_utf8_all (tag_of kind) }
{
    match tag_of_kind(kind) {
        Some(tag) => tag,
        None => "",
    }
}

/// Appends the start tag of a kind.
pub fn put_start_tag(
    alloc: Global,
    out: &mut Bytes,
    kind: Kind,
    attrs: &Attrs,
) -> Result<(), Memory>
    ensures text { OnOk result (
        out.new ≡ out.old ++ start_tag (encode_utf8_all (tag_of kind)) attrs.now) }
    ensures utf8 { OnOk result (IsUtf8 out.old → IsUtf8 out.new) }
{
    put_start(alloc, out, tag_for(kind), attrs)
}

/// Appends the end tag of a kind.
pub fn put_end_tag(alloc: Global, out: &mut Bytes, kind: Kind) -> Result<(), Memory>
    ensures text { OnOk result (out.new ≡ out.old ++ end_tag (tag_of kind)) }
    ensures utf8 { OnOk result (IsUtf8 out.old → IsUtf8 out.new) }
{
    put_end(alloc, out, tag_for(kind))
}
