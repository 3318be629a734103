// A draft held against a page: whether it may be performed, and the change that it makes.
ghost use Rattle.std.specs.Prelude.{◌≡◌, ◌≤◌, IfOk, IfErr};
ghost use Rattle.model_edit.specs.Translate.{between};
ghost use Rattle.model_items.specs.Plain.{AreDistinct};
ghost use Rattle.model_site.specs.Refused.{edit_cause};
ghost use Rattle.ve_tx.specs.Making.{Extends};
ghost use Rattle.ve_tx.specs.Spliced.{come_count};
ghost use Rattle.ve_editor.specs.Edited.{IsDraftOf, drafted};
ghost use Rattle.ve_editor.specs.Page.{IsPage, page_of};
ghost use Rattle.ve_editor.specs.Prepared.{IsAllowed};
ghost use Rattle.ve_editor.specs.Refusal.{IsEditRefusal};

use crate::faults::of_transaction;
use crate::values::take_in;
use crate::verdict::may_become;
use model_site::EditFault;
use std::alloc::Global;
use ve_base::Memory;
use ve_items::Linear;
use ve_offsets::Doc;
use ve_store::Store;
use ve_tree::Tree;
use ve_tx::{Change, Draft};

/// The change that a draft makes of a page, which is allowed, or why it is not performed. The store
/// takes its values and the list room. An `Err` may leave values after those that were there.
pub fn checked(
    alloc: Global,
    list: &mut Linear,
    store: &mut Store,
    tree: &Tree,
    draft: &Draft,
) -> Result<Change, EditFault>
    requires page { IsPage store.old list.old.items tree.now }
    requires draft { IsDraftOf store.old draft.now }
    requires distinct { AreDistinct store.old }
    ensures ok { IfOk result (IsAllowed draft.now store.old store.new list.old.items) }
    ensures room { IfOk result (λ change. come_count change.splices.items ≤ list.new.spare) }
    ensures refused { IfErr result (
        IsEditRefusal (
        edit_cause (drafted store.old draft.now) (
        page_of store.old list.old.items (between 0 0)))) }
    ensures items { list.new.items ≡ list.old.items }
    ensures spare { list.old.spare ≤ list.new.spare }
    ensures extends { Extends store.old store.new }
{
    match take_in(alloc, store, &draft.values) {
        Ok(()) => {}
        Err(Memory) => return Err(EditFault::Memory),
    }
    let change = match draft.tx.change(alloc, list, store) {
        Ok(change) => change,
        Err(fault) => return Err(of_transaction(fault)),
    };
    may_become(
        Doc {
            list: &*list,
            tree,
            store: &*store,
        },
        &draft.tx,
        &change,
    )?;
    Ok(change)
}
