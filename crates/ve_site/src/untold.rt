// What a site has not told yet of how its list changed.
ghost use Rattle.std.specs.Prelude.{◌≡◌, ◌≤◌, ◌+◌, [], ◌∷◌, map, IfOk};
ghost use Rattle.model_change.specs.Replay.{flattened, reversal};
ghost use Rattle.model_site.specs.Entries.{parcels};
ghost use Rattle.model_site.specs.Untold.{all_untold, none_untold, passed, told, with_patches};
ghost use Rattle.ve_base.specs.Limits.{max_total_length};
ghost use Rattle.ve_editor.specs.Edited.{entry_by_value};
ghost use Rattle.ve_site.specs.Patches.{after_op, all_changed, all_turned, changed_at};
ghost use Rattle.ve_tx.specs.ByValue.{parcel_by_value};
ghost use Rattle.ve_tx.specs.Normal.{size, total_size};
ghost use Rattle.ve_tx.specs.Operation.{by_value};
ghost use Rattle.ve_tx.specs.Turned.{op_back};

use model_site::{MAX_PATCHES, Patch};
use std::alloc::Global;
use std::marker::Model;
use ve_base::Memory;
use ve_tx::{Entry, Op, Parcel, Transaction};

/// What changed in a list since it was told, as patches. Over the most that are told one by one,
/// one more is kept and no other. It has memory for these from the start, so noting takes none.
#[derive(Drop)]
pub struct Untold {
    // how long the list was when it was told
    was: usize,
    patches: Vec<Patch>,
}

impl Model for Untold {
    ghost use Rattle.std.specs.Prelude.{◌≤◌, suc, length, vec_capacity};
    ghost use Rattle.model_site.specs.Untold.{max_patches, Untold};

    ghost Value = { Untold };

    ghost view = { λ u. record { was = u.was; patches = u.patches.items } };

    ghost invariant = { λ u. record { room : suc max_patches ≤ vec_capacity u.patches; within : length u.patches.items ≤ suc max_patches } };
}

impl Untold {
    /// A list of so many items has come.
    pub fn new(alloc: Global, count: usize) -> Result<Untold, Memory>
        ensures { IfOk result (λ untold. untold ≡ all_untold count) }
    {
        let mut patches = Vec::with_capacity(alloc, MAX_PATCHES + 1)?;
        let come = Patch {
            at: 0,
            removed: 0,
            inserted: count,
        };
        let pushed = patches.push(come).is_ok();
        prove!(pushed);
        Ok(Untold { was: 0, patches })
    }

    /// The same, in memory of its own.
    pub fn copy(&self, alloc: Global) -> Result<Untold, Memory>
        ensures { IfOk result (λ copy. copy ≡ self.now) }
    {
        let mut patches = Vec::with_capacity(alloc, MAX_PATCHES + 1)?;
        let copied = patches.extend_from_slice(self.patches.as_slice()).is_ok();
        prove!(copied);
        Ok(Untold {
            was: self.was,
            patches,
        })
    }

    /// Notes a patch, where not too many stand already.
    fn put(&mut self, patch: Patch)
        ensures { self.new ≡ with_patches (patch ∷ []) self.old }
    {
        if self.patches.len() <= MAX_PATCHES {
            let pushed = self.patches.push(patch).is_ok();
            prove!(pushed);
        }
    }

    /// Notes that an attribute of the item at a position changed.
    fn note_attribute(&mut self, at: usize)
        ensures { self.new
            ≡ with_patches (record { at = at; removed = 1; inserted = 1 } ∷ []) self.old }
    {
        let changed = Patch {
            at,
            removed: 1,
            inserted: 1,
        };
        self.put(changed);
    }

    /// Notes an operation at a position of the new list, and gives the position after it.
    fn note_op(&mut self, at: usize, op: &Op) -> usize
        requires { at + size op.now ≤ max_total_length }
        ensures noted { self.new ≡ with_patches (changed_at at op.now) self.old }
        ensures after { result ≡ after_op at op.now }
    {
        // its type keeps that there is room for one more, which a look at them tells
        let _within = &self.patches;
        match op {
            Op::Retain(count) => at + *count,
            Op::Replace { removed, inserted } => {
                let removed = removed.as_slice().len();
                let inserted = inserted.as_slice().len();
                self.put(Patch {
                    at,
                    removed,
                    inserted,
                });
                at + inserted
            }
            Op::Attribute { .. } => {
                self.note_attribute(at);
                at
            }
        }
    }

    /// Notes that an operation was undone, as `note_op` does.
    fn note_op_back(&mut self, at: usize, op: &Op) -> usize
        requires { at + size op.now ≤ max_total_length }
        ensures noted { self.new ≡ with_patches (changed_at at (op_back op.now)) self.old }
        ensures after { result ≡ after_op at (op_back op.now) }
    {
        let _within = &self.patches;
        match op {
            Op::Retain(count) => at + *count,
            Op::Replace { removed, inserted } => {
                let removed = removed.as_slice().len();
                let inserted = inserted.as_slice().len();
                self.put(Patch {
                    at,
                    removed: inserted,
                    inserted: removed,
                });
                at + removed
            }
            Op::Attribute { .. } => {
                self.note_attribute(at);
                at
            }
        }
    }

    /// Notes the operations of a transaction.
    fn note_ops(&mut self, ops: &[Op])
        requires { total_size ops.now ≤ max_total_length }
        ensures { self.new ≡ with_patches (all_changed 0 ops.now) self.old }
    {
        let _within = &self.patches;
        let mut at = 0;
        for op in ops {
            at = self.note_op(at, op);
        }
    }

    /// Notes that the operations of a transaction were undone. Those of one position change what
    /// stands there alone, so their order is of no matter.
    fn note_ops_back(&mut self, ops: &[Op])
        requires { total_size ops.now ≤ max_total_length }
        ensures { self.new ≡ with_patches (all_changed 0 (all_turned ops.now)) self.old }
    {
        let _within = &self.patches;
        let mut at = 0;
        for op in ops {
            at = self.note_op_back(at, op);
        }
    }

    /// Notes transactions that the list went through.
    pub fn note(&mut self, txs: &[Transaction])
        ensures { (values : _) → self.new ≡ passed (map (by_value values) txs.now) self.old }
    {
        let _within = &self.patches;
        for tx in txs {
            self.note_ops(tx.ops());
        }
    }

    /// Notes that transactions were taken back, the last one first.
    pub fn note_back(&mut self, txs: &[Transaction])
        ensures { (values : _)
            → self.new ≡ passed (reversal (map (by_value values) txs.now)) self.old }
    {
        let _within = &self.patches;
        let mut at = txs.len();
        while at > 0 {
            at -= 1;
            self.note_ops_back(txs[at].ops());
        }
    }

    /// Notes that entries were taken back, the last one first.
    pub fn note_all_back(&mut self, entries: &[Entry])
        ensures { (values : _)
            → self.new
            ≡ passed (
            reversal (flattened (parcels (map (entry_by_value values) entries.now)))) self.old }
    {
        let _within = &self.patches;
        let mut at = entries.len();
        while at > 0 {
            at -= 1;
            self.note_back(entries[at].txs.as_slice());
        }
    }

    /// Notes parcels that were performed, one after the other.
    pub fn note_parcels(&mut self, parcels: &[Parcel])
        ensures { self.new ≡ passed (flattened (map parcel_by_value parcels.now)) self.old }
    {
        let _within = &self.patches;
        for parcel in parcels {
            self.note(parcel.entry.txs.as_slice());
        }
    }

    /// What is told of a list that has so many items by now.
    pub fn told(&self, alloc: Global, count: usize) -> Result<Vec<Patch>, Memory>
        ensures { IfOk result (λ patches. patches.items ≡ told count self.now) }
    {
        let mut patches = Vec::new(alloc);
        if self.patches.len() > MAX_PATCHES {
            patches.push(Patch {
                at: 0,
                removed: self.was,
                inserted: count,
            })?;
        } else {
            patches.extend_from_slice(self.patches.as_slice())?;
        }
        Ok(patches)
    }

    /// It was told of a list of so many items.
    pub fn clear(&mut self, count: usize)
        ensures { self.new ≡ none_untold count }
    {
        self.was = count;
        self.patches.clear();
    }
}
