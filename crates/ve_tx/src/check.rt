// Whether operations apply to a list: lengths first, then the items that are to be removed, then
// the attributes.
ghost use Rattle.std.specs.Prelude.{◌≡◌, ◌≤◌, ◌<◌, ◌+◌, ◌^◌, ◌↔◌, length, take, drop, None, Some, All, IfErr, IfNone, IfSome, OnOk, IfOk, IsTrue};
ghost use Rattle.ve_base.specs.Limits.{max_total_length};
ghost use Rattle.ve_base.specs.declared.value.Value.{Value};
ghost use Rattle.model_items.specs.Plain.{CitesWell, AreDistinct};
ghost use Rattle.ve_tx.specs.Cites.{OperationCites, TxCites};
ghost use Rattle.ve_tx.specs.Checked.{old_size, DiffersFirst, IsFirstMismatch, bad_in, fault_in};
ghost use Rattle.ve_tx.specs.Normal.{total_size};
ghost use Rattle.ve_tx.specs.Operation.{unkept};

use crate::Op;
use crate::attributes::may_change;
use crate::lookup::{Search, attrs_at};
use model_change::TxFault;
use std::alloc::Global;
use ve_items::{Item, Linear, same_item};
use ve_store::Store;

/// The length of the lists that the operations apply to.
pub fn old_length(ops: &[Op]) -> usize
    requires { total_size ops.now ≤ max_total_length }
    ensures { result ≡ old_size ops.now }
{
    let mut len = 0;
    for op in ops {
        match op {
            Op::Retain(count) => len += *count,
            Op::Replace { removed, .. } => len += removed.as_slice().len(),
            Op::Attribute { .. } => {}
        }
    }
    len
}

/// The first position where two pieces of one length differ.
fn difference(one: &[Item], other: &[Item]) -> Option<usize>
    requires { length one.now ≡ length other.now }
    ensures none { IfNone result (one.now ≡ other.now) }
    ensures some { IfSome result (λ k. DiffersFirst one.now other.now k) }
{
    for i in 0..one.len() {
        if !same_item(one[i], other[i]) {
            return Some(i);
        }
    }
    None
}

/// How many of the items from a position on the list has before the first one that is another. It
/// goes over the list as it is borrowed, piece after piece.
fn first_difference(list: &Linear, at: usize, removed: &[Item]) -> Option<usize>
    requires within { at + length removed.now ≤ length list.now.items }
    requires fits { at + length removed.now < 2 ^ 64 }
    ensures none { IfNone result (
        take (length removed.now) (drop at list.now.items) ≡ removed.now) }
    ensures some { IfSome result (λ k. DiffersFirst removed.now (drop at list.now.items) k) }
{
    let mut done = 0;
    while done < removed.len() {
        let piece = list.piece(at + done, at + removed.len());
        let end = done + piece.len();
        if let Some(k) = difference(&removed[done..end], piece) {
            return Some(done + k);
        }
        done = end;
    }
    None
}

/// The first position where an item that is to be removed is not the list's.
pub fn first_mismatch(ops: &[Op], list: &Linear) -> Option<usize>
    requires within { total_size ops.now ≤ max_total_length }
    requires fits { old_size ops.now ≡ length list.now.items }
    ensures { IsFirstMismatch list.now.items ops.now result }
{
    let mut at = 0;
    for op in ops {
        match op {
            Op::Retain(count) => at += *count,
            Op::Replace { removed, .. } => {
                let removed = removed.as_slice();
                if let Some(k) = first_difference(list, at, removed) {
                    return Some(at + k);
                }
                at += removed.len();
            }
            Op::Attribute { .. } => {}
        }
    }
    None
}

/// The first position where an attribute operation is not allowed. Many of one position find their
/// attributes by a map of the names.
pub fn first_bad(alloc: Global, ops: &[Op], list: &Linear, store: &Store) -> Option<usize>
    requires within { total_size ops.now ≤ max_total_length }
    requires cites { All (CitesWell store.now) list.now.items }
    ensures { result ≡ bad_in store.now list.now.items 0 ops.now }
{
    let mut at = 0;
    let mut search = Search::new();
    for op in ops {
        match op {
            Op::Retain(count) => {
                at += *count;
                search = Search::new();
            }
            Op::Replace { removed, .. } => {
                at += removed.as_slice().len();
                search = Search::new();
            }
            Op::Attribute { name, from, .. } => {
                search = search.next(alloc, attrs_at(list, store, at));
                if !may_change(list, store, at, &search, name, from) {
                    return Some(at);
                }
            }
        }
    }
    None
}

/// Whether operations apply to a list. It asks for lengths first, then whether the list has the
/// items that are to be removed. Last it asks whether the list's own items allow the attribute
/// operations. Where there is no memory it takes longer, and answers the same.
pub fn check(alloc: Global, ops: &[Op], list: &Linear, store: &Store) -> Result<(), TxFault>
    requires within { total_size ops.now ≤ max_total_length }
    requires distinct { AreDistinct store.now }
    requires list { All (CitesWell store.now) list.now.items }
    requires cites { TxCites store.now (unkept ops.now) }
    ensures ok { OnOk result (fault_in store.now list.now.items ops.now ≡ None) }
    ensures err { IfErr result (λ why. fault_in store.now list.now.items ops.now ≡ Some why) }
{
    let has = list.len();
    let needs = old_length(ops);
    if has != needs {
        return Err(TxFault::BadLength { has, needs });
    }
    if let Some(at) = first_mismatch(ops, list) {
        return Err(TxFault::Mismatch { at });
    }
    if let Some(at) = first_bad(alloc, ops, list, store) {
        return Err(TxFault::BadAttr { at });
    }
    Ok(())
}
