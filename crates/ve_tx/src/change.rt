// The change of a list, made before the list itself changes.
ghost use Rattle.std.specs.Prelude.{◌≡◌, ◌≤◌, ◌+◌, length, All, IfOk, OnOk, OnErr};
ghost use Rattle.model_items.specs.Plain.{CitesWell};
ghost use Rattle.ve_tx.specs.Applied.{AppliesTo, IsOverActive, MakesEdited, store_after};
ghost use Rattle.ve_tx.specs.Changed.{brought_count};
ghost use Rattle.ve_tx.specs.Cites.{TxCites};
ghost use Rattle.ve_tx.specs.Making.{Extends};
ghost use Rattle.ve_tx.specs.Operation.{by_value, with_positions, IsNormal};
ghost use Rattle.ve_tx.specs.Spliced.{AllCite, LieBetween, come_count, spliced_by};

use crate::Op;
use crate::making::{brought_by, new_splices};
use crate::splice::Splice;
use std::alloc::Global;
use ve_base::Memory;
use ve_items::Linear;
use ve_store::Store;

/// One change of a list: splices at rising positions of the old list.
#[derive(Drop)]
pub struct Change {
    pub splices: Vec<Splice>,
}

impl Change {
    /// Makes the change of the list, from the last splice to the first, so that each position is
    /// still the old list's. It takes no memory, and uses up no more of `spare` than what comes.
    pub fn splice_into(&self, list: &mut Linear)
        requires within { LieBetween 0 (length list.old.items) self.now.splices.items }
        requires room { come_count self.now.splices.items ≤ list.old.spare }
        ensures items { list.new.items ≡ spliced_by list.old.items self.now.splices.items }
        ensures spare { list.old.spare ≤ list.new.spare + come_count self.now.splices.items }
    {
        let mut left = self.splices.len();
        while left > 0 {
            left -= 1;
            let splice = &self.splices[left];
            let spliced = list
                .splice(splice.at, splice.removed, splice.items.as_slice())
                .is_ok();
            prove!(spliced);
        }
    }
}

/// The change that operations make which apply to the list. The store takes the heads that are new,
/// and the list takes room for the change. An `Err` may leave heads after those that were there.
pub fn prepared(
    alloc: Global,
    ops: &[Op],
    kept: &[Option<usize>],
    list: &mut Linear,
    store: &mut Store,
) -> Result<Change, Memory>
    requires normal { IsNormal (with_positions ops.now kept.now) }
    requires list { All (CitesWell store.old) list.old.items }
    requires cites { TxCites store.old (with_positions ops.now kept.now) }
    requires applies { AppliesTo store.old (with_positions ops.now kept.now) list.old.items }
    ensures changed { IfOk result (λ change.
        MakesEdited store.old store.new (with_positions ops.now kept.now) list.old.items
        change.splices.items) }
    ensures range { IfOk result (λ change.
        IsOverActive store.old (with_positions ops.now kept.now) change.splices.items) }
    ensures within { IfOk result (λ change.
        LieBetween 0 (length list.old.items) change.splices.items) }
    ensures thrifty { IfOk result (λ change.
        come_count change.splices.items
        ≤ brought_count (by_value store.old (with_positions ops.now kept.now))) }
    ensures room { IfOk result (λ change. come_count change.splices.items ≤ list.new.spare) }
    ensures spare { list.old.spare ≤ list.new.spare }
    ensures cites { IfOk result (λ change. AllCite store.new change.splices.items) }
    ensures store { OnOk result (
        store.new ≡ store_after store.old (with_positions ops.now kept.now) list.old.items) }
    ensures items { list.new.items ≡ list.old.items }
    ensures blocks { list.new.blocks ≡ list.old.blocks }
    ensures err { OnErr result (list.new ≡ list.old) }
    ensures extends { Extends store.old store.new }
{
    let splices = new_splices(alloc, ops, kept, list, store)?;
    list.reserve(brought_by(ops))?;
    Ok(Change { splices })
}
