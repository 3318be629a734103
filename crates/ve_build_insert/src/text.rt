// The insertion of text.
ghost use Rattle.std.specs.Prelude.{◌≡◌, ◌<◌, false, Ok, IfOk, IfErr, All, length};
ghost use Rattle.std.specs.Str.{chars};
ghost use Rattle.model_items.specs.Plain.{CitesWell};
ghost use Rattle.model_edit.specs.Insert as model;
ghost use Rattle.ve_offsets.specs.Docs.{IsDoc, page_items};
ghost use Rattle.ve_store.specs.Following.{Grows, together};
ghost use Rattle.ve_tx.specs.Cites.{TxCites};
ghost use Rattle.ve_tx.specs.Operation.{by_value};
ghost use Rattle.ve_edits.specs.Filled.{BringsInserted};
ghost use Rattle.ve_edits.specs.Refused.{IsRefusal};
ghost use Rattle.ve_build_insert.specs.Typed.{plain_text_meant, text_meant, AreLetters, AreMarksBefore, LettersCite, MarksAreCited};

use crate::inserts::insertion;
use crate::place::is_bad_offset;
use model_edit::BuildFault;
use std::alloc::Global;
use ve_base::{Memory, ValueId};
use ve_edits::partner;
use ve_items::{Item, Items};
use ve_kinds::is_inline_leaf;
use ve_offsets::Doc;
use ve_store::NewValues;
use ve_tx::Transaction;

/// The marks that the item at a position cites.
fn marks_at(doc: Doc<'_>, at: usize) -> Option<ValueId>
    requires { at < length doc.list.now.items }
    ensures { MarksAreCited doc.entry.list.now.items at result }
{
    match doc.list.get(at) {
        Item::Char { marks, .. } => marks,
        Item::Opening { marks, .. } => marks,
        Item::Closing { .. } => None,
    }
}

/// The marks cited by the character or the inline leaf that ends at an offset.
fn marks_before(doc: Doc<'_>, at: usize) -> Option<ValueId>
    requires doc { IsDoc doc }
    ensures { AreMarksBefore doc.entry.list.now.items at result }
{
    if at == 0 || doc.list.len() < at {
        return None;
    }
    match doc.list.get(at - 1) {
        Item::Char { marks, .. } => marks,
        Item::Opening { .. } => None,
        Item::Closing { kind, .. } => {
            if !is_inline_leaf(kind) {
                return None;
            }
            marks_at(doc, partner(doc, at - 1))
        }
    }
}

/// The characters of a text, with these marks.
fn letters(alloc: Global, marks: Option<ValueId>, text: &str) -> Result<Items, Memory>
    ensures means { IfOk result (AreLetters marks (chars text.now)) }
    ensures cites { IfOk result (LettersCite marks) }
{
    let mut all = Items::new(alloc);
    for ch in text.chars() {
        all.push(Item::Char { ch, marks })?;
    }
    Ok(all)
}

/// The transaction that puts a text at an offset, with the marks of its left neighbour: of the
/// character that ends there, or of the inline leaf that does. It is refused as `insertion` is.
/// Want of memory never comes in the place of `BadOffset`.
pub fn text_insertion(
    alloc: Global,
    doc: Doc<'_>,
    at: usize,
    text: &str,
    new: &mut NewValues,
) -> Result<Transaction, BuildFault>
    requires doc { IsDoc doc }
    requires cites { All (CitesWell doc.store.now) doc.list.now.items }
    requires follows { new.old.after ≡ length doc.store.now }
    ensures means { IfOk result (λ tx.
        text_meant doc.entry at text.now
        ≡ Ok (by_value (together doc.entry.store.now new.new) tx)) }
    ensures cites { IfOk result (TxCites (together doc.entry.store.now new.new)) }
    ensures values { IfOk result (BringsInserted doc.entry.store.now new.old new.new) }
    ensures grows { Grows new.old new.new }
    ensures refused { IfErr result (λ fault. IsRefusal fault (text_meant doc.entry at text.now)) }
    ensures memory { IfErr result (λ fault.
        fault ≡ BuildFault.Memory → model.is_bad_offset (page_items doc.entry) at ≡ false) }
{
    if is_bad_offset(doc, at) {
        return Err(BuildFault::BadOffset { at });
    }
    let Ok(pieces) = letters(alloc, marks_before(doc, at), text) else {
        return Err(BuildFault::Memory);
    };
    insertion(alloc, doc, at, pieces.as_slice(), new)
}

/// The transaction that puts a text without marks at an offset. It is refused as `insertion` is.
/// Want of memory never comes in the place of `BadOffset`.
pub fn plain_text_insertion(
    alloc: Global,
    doc: Doc<'_>,
    at: usize,
    text: &str,
    new: &mut NewValues,
) -> Result<Transaction, BuildFault>
    requires doc { IsDoc doc }
    requires cites { All (CitesWell doc.store.now) doc.list.now.items }
    requires follows { new.old.after ≡ length doc.store.now }
    ensures means { IfOk result (λ tx.
        plain_text_meant doc.entry at text.now
        ≡ Ok (by_value (together doc.entry.store.now new.new) tx)) }
    ensures cites { IfOk result (TxCites (together doc.entry.store.now new.new)) }
    ensures values { IfOk result (BringsInserted doc.entry.store.now new.old new.new) }
    ensures grows { Grows new.old new.new }
    ensures refused { IfErr result (λ fault.
        IsRefusal fault (plain_text_meant doc.entry at text.now)) }
    ensures memory { IfErr result (λ fault.
        fault ≡ BuildFault.Memory → model.is_bad_offset (page_items doc.entry) at ≡ false) }
{
    if is_bad_offset(doc, at) {
        return Err(BuildFault::BadOffset { at });
    }
    let Ok(pieces) = letters(alloc, None, text) else {
        return Err(BuildFault::Memory);
    };
    insertion(alloc, doc, at, pieces.as_slice(), new)
}
