// A text and a leaf as items of a draft. After an `Err` some of the items may have come in.
ghost use Rattle.std.specs.Prelude.{◌≡◌, [], map, OnOk};
ghost use Rattle.std.specs.Str.{chars};
ghost use Rattle.model_items.specs.declared.plain_item.PlainItem.TheVariants as plain;
ghost use Rattle.ve_reader.specs.Leaves.{leaf_items, text_items, with_items};

use crate::{ItemDraft, Opening};
use std::alloc::Global;
use ve_base::{Head, Memory};
use ve_html_scan::decoded;
use ve_kinds::Kind;

fn push_chars(draft: &mut ItemDraft, text: &str) -> Result<(), Memory>
    ensures { OnOk result (
        draft.new
        ≡ with_items (map (λ c. plain.Char c draft.old.marks) (chars text.now)) draft.old) }
{
    for ch in text.chars() {
        draft.push_char(ch)?;
    }
    Ok(())
}

/// The characters of a text of the page, with the marks around.
pub fn push_text(alloc: Global, draft: &mut ItemDraft, spelled: &str) -> Result<(), Memory>
    ensures { OnOk result (
        draft.new ≡ with_items (text_items draft.old.marks spelled.now) draft.old) }
{
    let text = decoded(alloc, spelled)?;
    push_chars(draft, text.as_str())
}

/// An inline leaf, with the marks around.
pub fn push_leaf(
    draft: &mut ItemDraft,
    kind: Kind,
    head: Head,
    origin: Option<u32>,
) -> Result<(), Memory>
    ensures { OnOk result (
        draft.new ≡ with_items (leaf_items kind head draft.old.marks [] origin) draft.old) }
{
    draft.open_leaf(Opening {
        kind,
        head,
        origin,
        generated: false,
    })?;
    draft.close(kind, "")
}

/// A leaf that stands as a block, after whitespace.
pub fn push_block_leaf(
    draft: &mut ItemDraft,
    kind: Kind,
    head: Head,
    origin: Option<u32>,
    white: &str,
) -> Result<(), Memory>
    ensures { OnOk result (
        draft.new ≡ with_items (leaf_items kind head [] (chars white.now) origin) draft.old) }
{
    let opening = Opening {
        kind,
        head,
        origin,
        generated: false,
    };
    draft.open(opening, white)?;
    draft.close(kind, "")
}
