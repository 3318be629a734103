// Transactions of a reversal and of others, made in place on the page of an editor or of a trial, one
// or several of them. An `Err` in several may leave a part done: so they are made on a trial.
ghost use Rattle.std.specs.Prelude.{◌≡◌, ◌≤◌, ◌+◌, [], ◌∷◌, All, None, Option, map, IfOk, OnOk, OnErr};
ghost use Rattle.model_items.specs.Law.{Lawful};
ghost use Rattle.model_change.specs.Fault.{Applies};
ghost use Rattle.model_change.specs.Inverse.{filled};
ghost use Rattle.model_change.specs.Transaction.{edited};
ghost use Rattle.model_site.specs.Replica.{all_filled, all_performed, all_put_back, performed, put_back};
ghost use Rattle.ve_tree.specs.IsTree.{IsTree};
ghost use Rattle.ve_tx.specs.Cites.{TxCites};
ghost use Rattle.ve_tx.specs.Operation.{by_value};
ghost use Rattle.model_change.specs.Cost.{cost_of_transaction, cost_of_transactions};
ghost use Rattle.ve_editor.specs.Page.{LinkedPage, replica_of};
ghost use Rattle.ve_editor.specs.Stays.{IsUnchanged, NumbersStay, NumbersStayOver};
ghost use Rattle.ve_editor.specs.Edited.{AllStand, reversal_over};

use crate::Editor;
use crate::noted::NoNotes;
use crate::perform::{ready_back, ready_other};
use crate::prepare::commit;
use crate::selected::moved;
use std::alloc::Global;
use std::sync::ledger::Ledger;
use ve_base::{Memory, Steps, Value};
use ve_offsets::Doc;
use ve_tx::{Transaction, TxList};

/// A page on which transactions are made in place: an editor's, or a trial's.
pub trait InPlace {
    /// The page as it is.
    ghost shown: { Self → LinkedPage };

    /// What it can go back to, on a trial.
    ghost start: { Self → Option LinkedPage };

    /// Makes a transaction of a reversal, which applies and leaves a lawful list. An `Err` changes
    /// nothing, and what a trial can go back to stays.
    fn put_back<L: Ledger>(&mut self, tx: &Transaction, steps: &mut Steps<L>) -> Result<(), Memory>
        requires cites { TxCites (shown self.old).store tx.now }
        requires applies { Applies (by_value (shown self.old).store tx.now) (shown self.old).items }
        requires lawful { Lawful (
            edited (by_value (shown self.old).store tx.now) (shown self.old).items) }
        ensures page { OnOk result (
            replica_of (shown self.new)
            ≡ put_back (by_value (shown self.old).store tx.now) (replica_of (shown self.old))) }
        ensures numbers { OnOk result (
            NumbersStay (by_value (shown self.old).store tx.now) (shown self.old).items
            (shown self.old).nodes (shown self.new).nodes) }
        ensures tree { OnOk result (
            IsTree (shown self.new).nodes.slots (shown self.new).nodes.root
            (shown self.new).items) }
        ensures kept { OnErr result (IsUnchanged (shown self.old) (shown self.new)) }
        ensures start { start self.new ≡ start self.old }
        ensures counted { steps.old ≤ steps.new }
        ensures steps { steps.new
            ≤ steps.old
            + cost_of_transaction (by_value (shown self.old).store tx.now)
            (shown self.old).items };

    /// Performs a transaction that cites a list of values, applies and leaves a lawful list, and
    /// gives it as an entry keeps it. An `Err` changes nothing, and what a trial can go back to
    /// stays.
    fn perform_other<L: Ledger>(
        &mut self,
        tx: &Transaction,
        values: &[Value],
        steps: &mut Steps<L>,
    ) -> Result<TxList, Memory>
        requires cites { TxCites values.now tx.now }
        requires applies { Applies (by_value values.now tx.now) (shown self.old).items }
        requires lawful { Lawful (edited (by_value values.now tx.now) (shown self.old).items) }
        ensures page { OnOk result (
            replica_of (shown self.new)
            ≡ performed (by_value values.now tx.now) (replica_of (shown self.old))) }
        ensures numbers { OnOk result (
            NumbersStay (by_value values.now tx.now) (shown self.old).items
            (shown self.old).nodes (shown self.new).nodes) }
        ensures tree { OnOk result (
            IsTree (shown self.new).nodes.slots (shown self.new).nodes.root
            (shown self.new).items) }
        ensures txs { IfOk result (λ txs.
            map (by_value (shown self.new).store) txs
            ≡ filled (by_value values.now tx.now) (shown self.old).items ∷ []) }
        ensures cites { IfOk result (λ txs. All (TxCites (shown self.new).store) txs) }
        ensures kept { OnErr result (IsUnchanged (shown self.old) (shown self.new)) }
        ensures start { start self.new ≡ start self.old }
        ensures counted { steps.old ≤ steps.new }
        ensures steps { steps.new
            ≤ steps.old
            + cost_of_transaction (by_value values.now tx.now) (shown self.old).items };
}

impl InPlace for Editor {
    ghost shown = { λ e. e };

    ghost start = { λ _. None };

    fn put_back<L: Ledger>(
        &mut self,
        tx: &Transaction,
        steps: &mut Steps<L>,
    ) -> Result<(), Memory> {
        let before = self.store.len();
        match ready_back(
            self.alloc,
            &mut self.list,
            &mut self.store,
            &mut self.tree,
            &mut NoNotes,
            tx,
            steps,
        ) {
            Ok(change) => {
                commit(&mut self.list, change);
                let doc = Doc {
                    list: &self.list,
                    tree: &self.tree,
                    store: &self.store,
                };
                self.selection = moved(doc, tx, self.selection);
                Ok(())
            }
            Err(Memory) => {
                self.store.truncate(before);
                Err(Memory)
            }
        }
    }

    fn perform_other<L: Ledger>(
        &mut self,
        tx: &Transaction,
        values: &[Value],
        steps: &mut Steps<L>,
    ) -> Result<TxList, Memory> {
        let stored = self.store.len();
        match ready_other(
            self.alloc,
            &mut self.list,
            &mut self.store,
            &mut self.tree,
            &mut NoNotes,
            tx,
            values,
            steps,
        ) {
            Ok(admitting) => {
                commit(&mut self.list, admitting.change);
                let doc = Doc {
                    list: &self.list,
                    tree: &self.tree,
                    store: &self.store,
                };
                let selection = self.selection;
                self.selection = moved(doc, tx, selection);
                Ok(admitting.txs)
            }
            Err(Memory) => {
                self.store.truncate(stored);
                Err(Memory)
            }
        }
    }
}

/// Makes the transactions of a reversal, from the inverse of the last one to that of the first.
/// An `Err` may leave some of them made.
pub fn put_all_back<P: InPlace, L: Ledger>(
    alloc: Global,
    target: &mut P,
    txs: &[Transaction],
    steps: &mut Steps<L>,
) -> Result<(), Memory>
    requires cites { All (TxCites (P.shown target.old).store) txs.now }
    requires stands { AllStand (reversal_over (P.shown target.old).store txs.now) (
        P.shown target.old).items }
    ensures page { OnOk result (
        replica_of (P.shown target.new)
        ≡ all_put_back (reversal_over (P.shown target.old).store txs.now) (
        replica_of (P.shown target.old))) }
    ensures numbers { OnOk result (
        NumbersStayOver (reversal_over (P.shown target.old).store txs.now)
        (P.shown target.old).items (P.shown target.old).nodes (P.shown target.new).nodes) }
    ensures start { P.start target.new ≡ P.start target.old }
    ensures counted { steps.old ≤ steps.new }
    ensures steps { steps.new
        ≤ steps.old
        + cost_of_transactions (reversal_over (P.shown target.old).store txs.now)
        (P.shown target.old).items }
{
    for n in 0..txs.len() {
        let tx = &txs[txs.len() - 1 - n];
        let back = tx.inverse(alloc)?;
        target.put_back(&back, steps)?;
    }
    Ok(())
}

/// Performs transactions that cite a list of values, one after the other, and gives them as an
/// entry keeps them. An `Err` may leave some of them performed.
pub fn perform_others<P: InPlace, L: Ledger>(
    alloc: Global,
    target: &mut P,
    txs: &[Transaction],
    values: &[Value],
    steps: &mut Steps<L>,
) -> Result<TxList, Memory>
    requires cites { All (TxCites values.now) txs.now }
    requires stands { AllStand (map (by_value values.now) txs.now) (P.shown target.old).items }
    ensures page { OnOk result (
        replica_of (P.shown target.new)
        ≡ all_performed (map (by_value values.now) txs.now) (replica_of (P.shown target.old))) }
    ensures numbers { OnOk result (
        NumbersStayOver (map (by_value values.now) txs.now) (P.shown target.old).items
        (P.shown target.old).nodes (P.shown target.new).nodes) }
    ensures txs { IfOk result (λ kept.
        map (by_value (P.shown target.new).store) kept
        ≡ all_filled (map (by_value values.now) txs.now) (P.shown target.old).items) }
    ensures cites { IfOk result (λ kept. All (TxCites (P.shown target.new).store) kept) }
    ensures start { P.start target.new ≡ P.start target.old }
    ensures counted { steps.old ≤ steps.new }
    ensures steps { steps.new
        ≤ steps.old
        + cost_of_transactions (map (by_value values.now) txs.now) (P.shown target.old).items }
{
    let mut kept = TxList::new(alloc);
    for tx in txs {
        let own = target.perform_other(tx, values, steps)?;
        kept.append(own)?;
    }
    Ok(kept)
}
