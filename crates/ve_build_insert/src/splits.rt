// The split of open nodes.
ghost use Rattle.std.specs.Prelude.{◌≡◌, ◌≤◌, false, Ok, IsOk, IfOk, IfErr, All, length};
ghost use Rattle.model_items.specs.Plain.{CitesWell};
ghost use Rattle.model_edit.specs.Insert as model;
ghost use Rattle.ve_offsets.specs.Docs.{IsDoc, page_items};
ghost use Rattle.ve_store.specs.Following.{Grows, together};
ghost use Rattle.ve_tx.specs.Cites.{TxCites};
ghost use Rattle.ve_tx.specs.Operation.{by_value};
ghost use Rattle.ve_edits.specs.Filled.{BringsInserted};
ghost use Rattle.ve_edits.specs.Refused.{IsRefusal};

use crate::place::{innermost, open_at};
use crate::reopen::put;
use model_edit::BuildFault;
use std::alloc::Global;
use ve_base::Memory;
use ve_edits::is_internal;
use ve_kinds::is_content_branch;
use ve_offsets::{Doc, State};
use ve_store::NewValues;
use ve_tx::Transaction;

/// Whether so many of the open nodes cannot be split: none or too many, or one is the internal list
/// or an item of it.
fn is_bad_depth(state: &State, depth: usize) -> bool
    ensures means { result ≡ model.is_bad_depth state.now.stack depth }
    ensures within { result ≡ false → depth ≤ length state.now.stack }
{
    if depth == 0 || state.depth() < depth {
        return true;
    }
    for level in 0..depth {
        if is_internal(state.kind(level)) {
            return true;
        }
    }
    false
}

/// The transaction that splits the innermost open nodes at an offset, as many as `depth` says: each
/// is closed there, and a copy of it goes on.
///
/// `BadOffset` comes exactly where the offset is the list's length or past it, or inside a leaf.
/// Then `NotContent` comes where the innermost open node is no branch of content. Last, `BadDepth`
/// comes where the depth is 0 or more nodes than are open, or reaches an internal list or item.
/// Want of memory comes only where none of them does. After a refusal `new` may hold further
/// values.
pub fn split(
    alloc: Global,
    doc: Doc<'_>,
    at: usize,
    depth: usize,
    new: &mut NewValues,
) -> Result<Transaction, BuildFault>
    requires doc { IsDoc doc }
    requires cites { All (CitesWell doc.store.now) doc.list.now.items }
    requires follows { new.old.after ≡ length doc.store.now }
    ensures means { IfOk result (λ tx.
        model.split (page_items doc.entry) at depth
        ≡ Ok (by_value (together doc.entry.store.now new.new) tx)) }
    ensures cites { IfOk result (TxCites (together doc.entry.store.now new.new)) }
    ensures values { IfOk result (BringsInserted doc.entry.store.now new.old new.new) }
    ensures grows { Grows new.old new.new }
    ensures refused { IfErr result (λ fault.
        IsRefusal fault (model.split (page_items doc.entry) at depth)) }
    ensures memory { IfErr result (λ fault.
        fault ≡ BuildFault.Memory → IsOk (model.split (page_items doc.entry) at depth)) }
{
    let Some(state) = open_at(doc, at) else {
        return Err(BuildFault::BadOffset { at });
    };
    if !is_content_branch(innermost(&state)) {
        return Err(BuildFault::NotContent { at });
    }
    if is_bad_depth(&state, depth) {
        return Err(BuildFault::BadDepth { depth });
    }
    match put(alloc, doc, at, depth, &[], new) {
        Ok(tx) => Ok(tx),
        Err(Memory) => Err(BuildFault::Memory),
    }
}
