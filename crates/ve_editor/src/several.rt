// Several transactions made on an editor, all of them or none: on a trial, which goes back where
// memory is wanting.
ghost use Rattle.std.specs.Prelude.{◌≡◌, ◌≤◌, ◌+◌, All, map, IfOk, OnOk, OnErr};
ghost use Rattle.model_site.specs.Replica.{all_filled, all_performed, all_put_back};
ghost use Rattle.model_change.specs.Cost.{cost_of_transactions};
ghost use Rattle.ve_tx.specs.Cites.{TxCites};
ghost use Rattle.ve_tx.specs.Operation.{by_value};
ghost use Rattle.ve_editor.specs.Edited.{AllStand, reversal_over};
ghost use Rattle.ve_editor.specs.Page.{replica_of};
ghost use Rattle.ve_editor.specs.Stays.{NumbersStayOver};

use crate::in_place::{perform_others, put_all_back};
use crate::{Editor, Trial};
use std::sync::ledger::Ledger;
use ve_base::{Memory, Steps, Value};
use ve_tx::{Transaction, TxList};

/// The editor after the reversal of transactions, or as it was, and whether there was memory.
pub fn all_back<L: Ledger>(
    editor: Editor,
    txs: &[Transaction],
    steps: &mut Steps<L>,
) -> (Editor, Result<(), Memory>)
    requires cites { All (TxCites editor.store) txs.now }
    requires stands { AllStand (reversal_over editor.store txs.now) editor.items }
    ensures page { OnOk result.1 (
        replica_of result.0
        ≡ all_put_back (reversal_over editor.store txs.now) (replica_of editor)) }
    ensures numbers { OnOk result.1 (
        NumbersStayOver (reversal_over editor.store txs.now) editor.items editor.nodes
        result.0.nodes) }
    ensures kept { OnErr result.1 (result.0 ≡ editor) }
    ensures counted { steps.old ≤ steps.new }
    ensures steps { steps.new
        ≤ steps.old + cost_of_transactions (reversal_over editor.store txs.now) editor.items }
{
    let alloc = editor.alloc;
    match Trial::begin(editor) {
        Ok(mut trial) => match put_all_back(alloc, &mut trial, txs, steps) {
            Ok(()) => (trial.keep(), Ok(())),
            Err(Memory) => (trial.take_back(), Err(Memory)),
        },
        Err(editor) => (editor, Err(Memory)),
    }
}

/// The editor after transactions that cite a list of values, or as it was, and the transactions as
/// an entry keeps them, where there was memory.
pub fn all_others<L: Ledger>(
    editor: Editor,
    txs: &[Transaction],
    values: &[Value],
    steps: &mut Steps<L>,
) -> (Editor, Result<TxList, Memory>)
    requires cites { All (TxCites values.now) txs.now }
    requires stands { AllStand (map (by_value values.now) txs.now) editor.items }
    ensures page { OnOk result.1 (
        replica_of result.0
        ≡ all_performed (map (by_value values.now) txs.now) (replica_of editor)) }
    ensures numbers { OnOk result.1 (
        NumbersStayOver (map (by_value values.now) txs.now) editor.items editor.nodes
        result.0.nodes) }
    ensures txs { IfOk result.1 (λ kept.
        map (by_value result.0.store) kept
        ≡ all_filled (map (by_value values.now) txs.now) editor.items) }
    ensures cites { IfOk result.1 (λ kept. All (TxCites result.0.store) kept) }
    ensures kept { OnErr result.1 (result.0 ≡ editor) }
    ensures counted { steps.old ≤ steps.new }
    ensures steps { steps.new
        ≤ steps.old + cost_of_transactions (map (by_value values.now) txs.now) editor.items }
{
    let alloc = editor.alloc;
    match Trial::begin(editor) {
        Ok(mut trial) => match perform_others(alloc, &mut trial, txs, values, steps) {
            Ok(kept) => (trial.keep(), Ok(kept)),
            Err(memory) => (trial.take_back(), Err(memory)),
        },
        Err(editor) => (editor, Err(Memory)),
    }
}
