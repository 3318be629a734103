// The tags of blocks, with the whitespace before them.
ghost use Rattle.std.specs.Prelude.{◌≡◌, ◌++◌, [], OnOk, if◌then◌else◌, encode_utf8_all, IsUtf8};
ghost use Rattle.model_items.specs.Plain.{value_at, head_in, white_in, CitesHead, CitesWhite};
ghost use Rattle.model_page.specs.Tags.{tag_of};
ghost use Rattle.model_page_write.specs.Written.{end_tag};
ghost use Rattle.model_spelling.specs.Written.{start_tag};

use crate::first_page::put_white;
use std::alloc::Global;
use ve_base::{Bytes, Head, Memory, ValueId};
use ve_kinds::Kind;
use ve_node_text::{head_of, put_end_tag, put_start_tag};
use ve_store::Store;

/// The text of the opening of a block.
#[derive(Clone, Copy, Debug)]
pub struct Element {
    pub kind: Kind,
    pub head: Option<ValueId>,
    pub pre: Option<ValueId>,
}

/// Appends the whitespace before an element, and its start tag unless it is bare.
pub fn put_opening(
    alloc: Global,
    out: &mut Bytes,
    store: &Store,
    element: Element,
    bare: bool,
) -> Result<(), Memory>
    requires head { CitesHead store.now element.head }
    requires white { CitesWhite store.now element.pre }
    ensures text { OnOk result (out.new ≡ (out.old ++ encode_utf8_all (white_in (value_at store.now element.pre)))
        ++ (if bare then [] else start_tag (encode_utf8_all (tag_of element.kind)) (head_in (value_at store.now element.head)).attrs)) }
    ensures utf8 { OnOk result (IsUtf8 out.old → IsUtf8 out.new) }
{
    put_white(out, store, element.pre)?;
    if bare {
        return Ok(());
    }
    let none = Head::empty(alloc);
    put_start_tag(
        alloc,
        out,
        element.kind,
        &head_of(store, element.head, &none).attrs,
    )
}

/// Appends the whitespace before the closing of an element, and its end tag, unless it is bare.
pub fn put_closing(
    alloc: Global,
    out: &mut Bytes,
    store: &Store,
    kind: Kind,
    pre: Option<ValueId>,
    bare: bool,
) -> Result<(), Memory>
    requires { CitesWhite store.now pre }
    ensures text { OnOk result (
        out.new
        ≡ out.old
        ++ (if bare then [] else encode_utf8_all (white_in (value_at store.now pre))
        ++ end_tag (tag_of kind))) }
    ensures utf8 { OnOk result (IsUtf8 out.old → IsUtf8 out.new) }
{
    if bare {
        return Ok(());
    }
    put_white(out, store, pre)?;
    put_end_tag(alloc, out, kind)
}
