// The borrowed page of writing, and those of its items that are written by themselves: whitespace
// and leaves.
ghost use Rattle.std.specs.Prelude.{◌≡◌, ◌++◌, true, OnOk, option_map, encode_utf8_all, IsUtf8};
ghost use Rattle.model_items.specs.Plain.{value_at, head_in, white_in, CitesHead, CitesWhite};
ghost use Rattle.model_page.specs.Editable.{head_refers};
ghost use Rattle.ve_node_text.specs.Leaves.{leaf_of};
ghost use Rattle.ve_write.specs.Told.{text_of};

use indexmap::IndexMap;
use model_page::RefTable;
use std::alloc::Global;
use ve_base::{Bytes, Head, Memory, Text, ValueId};
use ve_items::Linear;
use ve_kinds::Kind;
use ve_node_text::{head_of, put_leaf, white_of};
use ve_origin::Origins;
use ve_store::Store;

/// The page that was first read.
#[derive(Clone, Copy)]
pub struct First<'a> {
    pub origins: &'a Origins<'a>,
}

/// The page to write: a list and its values, and the table of its references. With them come the
/// texts of the bodies that its references carry, by the positions of the references. Where the
/// page that was first read is borrowed, too, nodes that are kept are copied; else the table may be
/// empty.
#[derive(Clone, Copy)]
pub struct Page<'a, 'b> {
    pub list: &'a Linear,
    pub store: &'a Store,
    pub texts: &'a IndexMap<usize, Text>,
    pub refs: &'a RefTable,
    pub first: Option<First<'b>>,
}

/// The text of the body that the reference at a position carries, if it carries one.
fn text_at<'a>(texts: &'a IndexMap<usize, Text>, at: usize) -> Option<&'a str>
    ensures { option_map (λ text. text.now) result ≡ text_of texts.now at }
{
    match texts.get(&at) {
        Some(text) => Some(text.as_str()),
        None => None,
    }
}

/// Appends the whitespace that an item cites.
pub fn put_white(out: &mut Bytes, store: &Store, id: Option<ValueId>) -> Result<(), Memory>
    requires { CitesWhite store.now id }
    ensures text { OnOk result (
        out.new ≡ out.old ++ encode_utf8_all (white_in (value_at store.now id))) }
    ensures utf8 { OnOk result (IsUtf8 out.old → IsUtf8 out.new) }
{
    out.push(white_of(store, id).as_bytes())
}

/// Appends the leaf at a position, which cites this head.
pub fn put_cited_leaf(
    alloc: Global,
    out: &mut Bytes,
    page: Page<'_, '_>,
    at: usize,
    head: Option<ValueId>,
    kind: Kind,
) -> Result<(), Memory>
    requires cites { CitesHead page.store.now head }
    requires refers { head_refers kind (head_in (value_at page.store.now head)) ≡ true }
    ensures text { OnOk result (
        out.new
        ≡ out.old
        ++ leaf_of (head_in (value_at page.entry.store.now head))
        (text_of page.entry.texts.now at) kind) }
    ensures utf8 { OnOk result (IsUtf8 out.old → IsUtf8 out.new) }
{
    let none = Head::empty(alloc);
    put_leaf(
        alloc,
        out,
        kind,
        head_of(page.store, head, &none),
        text_at(page.texts, at),
    )
}
