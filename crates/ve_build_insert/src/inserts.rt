// The insertion of pieces.
ghost use Rattle.std.specs.Prelude.{◌≡◌, Ok, IsOk, IfOk, IfErr, All, length};
ghost use Rattle.model_items.specs.Plain.{CitesWell};
ghost use Rattle.ve_offsets.specs.Docs.{IsDoc};
ghost use Rattle.ve_store.specs.Following.{Grows, together};
ghost use Rattle.ve_tx.specs.Cites.{TxCites};
ghost use Rattle.ve_tx.specs.Operation.{by_value};
ghost use Rattle.ve_edits.specs.Filled.{BringsInserted};
ghost use Rattle.ve_edits.specs.Refused.{IsRefusal};
ghost use Rattle.ve_build_insert.specs.Placed.{insertion_meant};

use crate::pieces::in_paragraph;
use crate::place::{open_at, place_of};
use crate::reopen::put;
use model_edit::BuildFault;
use std::alloc::Global;
use ve_base::Memory;
use ve_items::Item;
use ve_offsets::Doc;
use ve_store::NewValues;
use ve_tx::Transaction;

/// The transaction that puts pieces at an offset. They go into the innermost open node that may
/// hold them all, but out of no internal list or item. The nodes inside it are closed before them,
/// and copies of those are opened after them. Content is first put into a paragraph, unless the
/// innermost open node is a branch of content.
///
/// `BadOffset` comes exactly where the offset is the list's length or past it, or inside a leaf.
/// Then `NoPlace` comes where no open node may hold the pieces, or where they are content and
/// blocks side by side. Want of memory comes only where neither does. After a refusal `new` may
/// hold further values.
pub fn insertion(
    alloc: Global,
    doc: Doc<'_>,
    at: usize,
    pieces: &[Item],
    new: &mut NewValues,
) -> Result<Transaction, BuildFault>
    requires doc { IsDoc doc }
    requires cites { All (CitesWell doc.store.now) doc.list.now.items }
    requires follows { new.old.after ≡ length doc.store.now }
    requires pieces { All (CitesWell (together doc.store.now new.old)) pieces.now }
    ensures means { IfOk result (λ tx.
        insertion_meant doc.entry new.old at pieces.now
        ≡ Ok (by_value (together doc.entry.store.now new.new) tx)) }
    ensures cites { IfOk result (TxCites (together doc.entry.store.now new.new)) }
    ensures values { IfOk result (BringsInserted doc.entry.store.now new.old new.new) }
    ensures grows { Grows new.old new.new }
    ensures refused { IfErr result (λ fault.
        IsRefusal fault (insertion_meant doc.entry new.old at pieces.now)) }
    ensures memory { IfErr result (λ fault.
        fault ≡ BuildFault.Memory → IsOk (insertion_meant doc.entry new.old at pieces.now)) }
{
    let Some(state) = open_at(doc, at) else {
        return Err(BuildFault::BadOffset { at });
    };
    let Some(place) = place_of(&state, pieces) else {
        return Err(BuildFault::NoPlace { at });
    };
    let Ok(items) = in_paragraph(alloc, place.paragraph, pieces) else {
        return Err(BuildFault::Memory);
    };
    match put(alloc, doc, at, place.levels, items.as_slice(), new) {
        Ok(tx) => Ok(tx),
        Err(Memory) => Err(BuildFault::Memory),
    }
}
