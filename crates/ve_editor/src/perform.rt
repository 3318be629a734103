// A draft made ready to be performed, and a transaction to be taken back: all that may fail, before
// the list changes. What takes the change back is noted, on a trial; the tree becomes that of the
// new list last of all.
ghost use Rattle.std.specs.Prelude.{◌≡◌, ◌≢◌, ◌≤◌, ◌+◌, [], ◌∷◌, All, None, length, map, IfOk, IfErr, OnOk, OnErr};
ghost use Rattle.model_items.specs.Law.{Lawful};
ghost use Rattle.model_items.specs.Plain.{plain_list, CitesWell};
ghost use Rattle.model_change.specs.Fault.{Applies};
ghost use Rattle.model_change.specs.Transaction.{edited};
ghost use Rattle.model_edit.specs.Translate.{between};
ghost use Rattle.model_site.specs.Refused.{edit_cause};
ghost use Rattle.ve_tree.specs.IsTree.{unvalued};
ghost use Rattle.ve_tree.specs.TreeOf.{IsTreeOf};
ghost use Rattle.ve_tx.specs.Applied.{AppliesTo, filled_on};
ghost use Rattle.ve_tx.specs.Cites.{TxCites};
ghost use Rattle.ve_tx.specs.Making.{Extends};
ghost use Rattle.ve_tx.specs.Operation.{by_value};
ghost use Rattle.ve_repair.specs.Change.{LawfulAfter};
ghost use Rattle.ve_repair.specs.Kept.{KeepsNumbers};
ghost use Rattle.ve_repair.specs.Repaired.{IsTreeOfAfter, IsWithinTouch, SameNodes};
ghost use Rattle.model_change.specs.Cost.{cost_of_transaction};
ghost use Rattle.ve_editor.specs.Edited.{IsDraftOf, drafted};
ghost use Rattle.ve_editor.specs.Page.{IsPage, nodes_of_tree, page_of};
ghost use Rattle.ve_editor.specs.Prepared.{IsReadyBack, IsReadyOther, MayPerform};
ghost use Rattle.ve_editor.specs.Refusal.{IsEditRefusal};
ghost use Rattle.ve_editor.specs.Stays.{NumbersStay};

use crate::checked::checked;
use crate::noted::Notes;
use crate::prepare::prepare;
use model_site::EditFault;
use std::alloc::Global;
use std::sync::ledger::Ledger;
use ve_base::{Memory, Steps, Value};
use ve_items::Linear;
use ve_store::Store;
use ve_tree::Tree;
use ve_tx::{Change, Draft, Entry, Transaction, TxList};

/// A draft that may be performed: the entry that it gives, and its change.
#[derive(Drop)]
pub struct Performing {
    pub entry: Entry,
    pub change: Change,
}

/// A transaction of another that may be performed: as an entry keeps it, and its change.
#[derive(Drop)]
pub struct Admitting {
    pub txs: TxList,
    pub change: Change,
}

/// A transaction that applies to the list, as an entry keeps it.
fn one_filled(
    alloc: Global,
    list: &Linear,
    store: &Store,
    tx: &Transaction,
) -> Result<TxList, Memory>
    requires list { All (CitesWell store.now) list.now.items }
    requires applies { AppliesTo store.now tx.now list.now.items }
    requires cites { TxCites store.now tx.now }
    ensures txs { IfOk result (λ txs.
        map (by_value store.now) txs ≡ filled_on store.now tx.now list.now.items ∷ []) }
    ensures cites { IfOk result (λ txs. All (TxCites store.now) txs) }
{
    let filled = tx.filled(alloc, list, store)?;
    let mut txs = TxList::new(alloc);
    txs.push(filled)?;
    Ok(txs)
}

/// The entry of one transaction, which applies to the list, from when the store had so many values.
fn entry_of(
    alloc: Global,
    list: &Linear,
    store: &Store,
    tx: &Transaction,
    store_before: usize,
) -> Result<Entry, Memory>
    requires list { All (CitesWell store.now) list.now.items }
    requires applies { AppliesTo store.now tx.now list.now.items }
    requires cites { TxCites store.now tx.now }
    ensures txs { IfOk result (λ entry.
        map (by_value store.now) entry.txs ≡ filled_on store.now tx.now list.now.items ∷ []) }
    ensures before { IfOk result (λ entry. entry.store_before ≡ store_before) }
    ensures after { IfOk result (λ entry. entry.store_after ≡ length store.now) }
    ensures takes_back { IfOk result (λ entry. entry.takes_back ≡ None) }
    ensures cites { IfOk result (λ entry. All (TxCites store.now) entry.txs) }
{
    let txs = one_filled(alloc, list, store, tx)?;
    Ok(Entry {
        txs,
        store_before,
        store_after: store.len(),
        takes_back: None,
    })
}

/// The entry of a transaction and its change. Then the tree is that of the list after the change,
/// and nodes that stay keep their numbers; at an `Err` it is the tree of the list still.
pub fn with_entry<L: Ledger>(
    alloc: Global,
    list: &Linear,
    store: &Store,
    tree: &mut Tree,
    tx: &Transaction,
    store_before: usize,
    change: Change,
    steps: &mut Steps<L>,
) -> Result<Performing, Memory>
    requires list { All (CitesWell store.now) list.now.items }
    requires tree { IsTreeOf tree.old (unvalued list.now.items) }
    requires applies { AppliesTo store.now tx.now list.now.items }
    requires cites { TxCites store.now tx.now }
    requires lawful { LawfulAfter tx.now list.now.items }
    ensures txs { IfOk result (λ ready.
        map (by_value store.now) ready.entry.txs
        ≡ filled_on store.now tx.now list.now.items ∷ []) }
    ensures before { IfOk result (λ ready. ready.entry.store_before ≡ store_before) }
    ensures after { IfOk result (λ ready. ready.entry.store_after ≡ length store.now) }
    ensures takes_back { IfOk result (λ ready. ready.entry.takes_back ≡ None) }
    ensures cites { IfOk result (λ ready. All (TxCites store.now) ready.entry.txs) }
    ensures change { IfOk result (λ ready. ready.change ≡ change) }
    ensures tree { OnOk result (IsTreeOfAfter tree.new tx.now list.now.items) }
    ensures numbers { OnOk result (
        KeepsNumbers tree.old.arena.slots tree.new.arena.slots tree.old.root tx.now
        list.now.items) }
    ensures root { tree.new.root ≡ tree.old.root }
    ensures kept { OnErr result (IsTreeOf tree.new (unvalued list.now.items)) }
    ensures same { OnErr result (SameNodes tree.old.arena.slots tree.new.arena.slots) }
    ensures first { tree.new.arena.first ≡ tree.old.arena.first }
    ensures counted { steps.old ≤ steps.new }
    ensures steps { IsWithinTouch steps.old steps.new tx.now list.now.items }
{
    let entry = entry_of(alloc, list, store, tx, store_before)?;
    prepare(alloc, list, tree, tx, steps)?;
    Ok(Performing { entry, change })
}

/// Makes a draft ready to be performed on a page, or says why it is not performed. The store takes
/// its values and the list room, and what takes its change back is noted. Then the tree becomes
/// that of the list after the change, in which nodes that stay keep their numbers. An `Err` leaves
/// it the list's, and may leave values and notes after those that were there.
pub fn ready<N: Notes, L: Ledger>(
    alloc: Global,
    list: &mut Linear,
    store: &mut Store,
    tree: &mut Tree,
    notes: &mut N,
    draft: &Draft,
    steps: &mut Steps<L>,
) -> Result<Performing, EditFault>
    requires page { IsPage store.old list.old.items tree.old }
    requires draft { IsDraftOf store.old draft.now }
    ensures ok { IfOk result (MayPerform draft.now store.old store.new list.new tree.new) }
    ensures numbers { OnOk result (
        KeepsNumbers tree.old.arena.slots tree.new.arena.slots tree.old.root draft.now.tx
        list.old.items) }
    ensures refused { IfErr result (
        IsEditRefusal (
        edit_cause (drafted store.old draft.now) (
        page_of store.old list.old.items (between 0 0)))) }
    ensures notes { IfOk result (λ ready.
        N.have notes.old list.old.items ready.change.splices.items list.new.spare notes.new) }
    ensures front { N.keep notes.old notes.new }
    ensures root { tree.new.root ≡ tree.old.root }
    ensures kept { OnErr result (IsTreeOf tree.new (unvalued list.old.items)) }
    ensures same { OnErr result (SameNodes tree.old.arena.slots tree.new.arena.slots) }
    ensures first { tree.new.arena.first ≡ tree.old.arena.first }
    ensures items { list.new.items ≡ list.old.items }
    ensures spare { list.old.spare ≤ list.new.spare }
    ensures extends { Extends store.old store.new }
    ensures counted { steps.old ≤ steps.new }
    ensures steps { steps.new
        ≤ steps.old + cost_of_transaction (drafted store.old draft.now) (plain_list store.old list.old.items) }
    ensures unstepped { IfErr result (λ why. why ≢ EditFault.Memory → steps.new ≡ steps.old) }
    ensures steps_if_allowed { edit_cause (drafted store.old draft.now) (page_of store.old list.old.items (between 0 0))
        ≢ None
        → steps.new ≡ steps.old }
{
    let before = store.len();
    let change = checked(alloc, list, store, tree, draft)?;
    match notes.note_change(alloc, list, &change) {
        Ok(()) => {}
        Err(Memory) => return Err(EditFault::Memory),
    }
    match with_entry(alloc, list, store, tree, &draft.tx, before, change, steps) {
        Ok(ready) => Ok(ready),
        Err(Memory) => Err(EditFault::Memory),
    }
}

/// Makes a transaction ready that applies to a page and leaves it lawful. The store takes the heads
/// that it changes and the list room, and what takes its change back is noted. Then the tree
/// becomes that of the list after the change, in which nodes that stay keep their numbers. An `Err`
/// leaves it the list's, and may leave values and notes after those that were there.
pub fn ready_back<N: Notes, L: Ledger>(
    alloc: Global,
    list: &mut Linear,
    store: &mut Store,
    tree: &mut Tree,
    notes: &mut N,
    tx: &Transaction,
    steps: &mut Steps<L>,
) -> Result<Change, Memory>
    requires tree { IsTreeOf tree.old (unvalued list.old.items) }
    requires list { All (CitesWell store.old) list.old.items }
    requires cites { TxCites store.old tx.now }
    requires applies { AppliesTo store.old tx.now list.old.items }
    requires lawful { Lawful (
        edited (by_value store.old tx.now) (plain_list store.old list.old.items)) }
    ensures ok { IfOk result (
        IsReadyBack (by_value store.old tx.now) store.old store.new list.new tree.new) }
    ensures numbers { OnOk result (
        KeepsNumbers tree.old.arena.slots tree.new.arena.slots tree.old.root tx.now
        list.old.items) }
    ensures notes { IfOk result (λ change.
        N.have notes.old list.old.items change.splices.items list.new.spare notes.new) }
    ensures front { N.keep notes.old notes.new }
    ensures root { tree.new.root ≡ tree.old.root }
    ensures kept { OnErr result (IsTreeOf tree.new (unvalued list.old.items)) }
    ensures same { OnErr result (SameNodes tree.old.arena.slots tree.new.arena.slots) }
    ensures first { tree.new.arena.first ≡ tree.old.arena.first }
    ensures items { list.new.items ≡ list.old.items }
    ensures spare { list.old.spare ≤ list.new.spare }
    ensures extends { Extends store.old store.new }
    ensures counted { steps.old ≤ steps.new }
    ensures steps { steps.new
        ≤ steps.old + cost_of_transaction (by_value store.old tx.now) (plain_list store.old list.old.items) }
{
    match tx.change(alloc, list, store) {
        Ok(change) => {
            notes.note_change(alloc, list, &change)?;
            prepare(alloc, list, tree, tx, steps)?;
            Ok(change)
        }
        Err(_) => Err(Memory),
    }
}

/// Makes a transaction ready that cites a list of values, applies to a page and leaves it lawful.
/// The store takes its values and the list room, and what takes its change back is noted. Then the
/// tree becomes that of the list after the change, in which nodes that stay keep their numbers. An
/// `Err` leaves it the list's, and may leave values and notes after those that were there.
pub fn ready_other<N: Notes, L: Ledger>(
    alloc: Global,
    list: &mut Linear,
    store: &mut Store,
    tree: &mut Tree,
    notes: &mut N,
    tx: &Transaction,
    values: &[Value],
    steps: &mut Steps<L>,
) -> Result<Admitting, Memory>
    requires tree { IsTreeOf tree.old (unvalued list.old.items) }
    requires list { All (CitesWell store.old) list.old.items }
    requires cites { TxCites values.now tx.now }
    requires applies { Applies (by_value values.now tx.now) (plain_list store.old list.old.items) }
    requires lawful { Lawful (
        edited (by_value values.now tx.now) (plain_list store.old list.old.items)) }
    ensures ok { IfOk result (
        IsReadyOther (by_value values.now tx.now) store.old store.new list.new tree.new) }
    ensures numbers { OnOk result (
        NumbersStay (by_value values.now tx.now) (plain_list store.old list.old.items)
        (nodes_of_tree tree.old) (nodes_of_tree tree.new)) }
    ensures notes { IfOk result (λ admitting.
        N.have notes.old list.old.items admitting.change.splices.items list.new.spare notes.new) }
    ensures front { N.keep notes.old notes.new }
    ensures root { tree.new.root ≡ tree.old.root }
    ensures kept { OnErr result (IsTreeOf tree.new (unvalued list.old.items)) }
    ensures same { OnErr result (SameNodes tree.old.arena.slots tree.new.arena.slots) }
    ensures first { tree.new.arena.first ≡ tree.old.arena.first }
    ensures items { list.new.items ≡ list.old.items }
    ensures spare { list.old.spare ≤ list.new.spare }
    ensures extends { Extends store.old store.new }
    ensures counted { steps.old ≤ steps.new }
    ensures steps { steps.new
        ≤ steps.old + cost_of_transaction (by_value values.now tx.now) (plain_list store.old list.old.items) }
{
    // its type keeps that it is in normal form, which `ops` tells
    let _ops = tx.ops();
    let own = tx.recite(alloc, values, store)?;
    let txs = one_filled(alloc, list, store, &own)?;
    let change = ready_back(alloc, list, store, tree, notes, &own, steps)?;
    Ok(Admitting { txs, change })
}
