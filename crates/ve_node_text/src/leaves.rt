// Leaves.
ghost use Rattle.std.specs.Prelude.{◌≡◌, ◌++◌, true, OnOk, option_map, IsUtf8};
ghost use Rattle.model_page.specs.Editable.{head_refers};
ghost use Rattle.ve_node_text.specs.Leaves.{leaf_of};

use crate::reference::put_reference;
use crate::tags::put_start_tag;
use std::alloc::Global;
use ve_base::{Bytes, Head, Memory};
use ve_kinds::Kind;

/// Appends a leaf, where `body` is the text of the body that it carries, if it is a reference that
/// carries one. An alien or a generated leaf is its source.
pub fn put_leaf(
    alloc: Global,
    out: &mut Bytes,
    kind: Kind,
    head: &Head,
    body: Option<&str>,
) -> Result<(), Memory>
    requires { head_refers kind head.now ≡ true }
    ensures text { OnOk result (
        out.new ≡ out.old ++ leaf_of head.now (option_map (λ b. b.now) body.entry) kind) }
    ensures utf8 { OnOk result (IsUtf8 out.old → IsUtf8 out.new) }
{
    match kind {
        Kind::Br | Kind::Img => put_start_tag(alloc, out, kind, &head.attrs),
        Kind::Ref => put_reference(alloc, out, head, body),
        _ => out.push(head.raw.as_str().as_bytes()),
    }
}
