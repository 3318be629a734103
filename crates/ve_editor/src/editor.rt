// A page under edit.
ghost use Rattle.std.specs.Prelude.{◌≡◌, ◌≢◌, ◌≤◌, ◌+◌, ◌*◌, [], ◌∷◌, All, None, map, IfOk, IfErr, OnOk, OnErr};
ghost use Rattle.model_items.specs.Law.{Lawful};
ghost use Rattle.model_items.specs.Plain.{plain_list, AreDistinct, CitesWell};
ghost use Rattle.model_items.specs.Tree.{tree_of, node_count};
ghost use Rattle.model_edit.specs.Translate.{between};
ghost use Rattle.model_site.specs.Entries.{cut_back, entry_against, entry_of, reverted};
ghost use Rattle.model_site.specs.Refused.{edit_cause};
ghost use Rattle.model_site.specs.Replica.{all_filled, all_performed, all_put_back, performed, put_back};
ghost use Rattle.ve_tx.specs.Cites.{TxCites};
ghost use Rattle.ve_tx.specs.Operation.{by_value};
ghost use Rattle.ve_tree.specs.IsTree.{unvalued};
ghost use Rattle.model_items.specs.Cost.{cost_of_tree};

use crate::in_place::InPlace;
use crate::noted::NoNotes;
use crate::perform::ready;
use crate::prepare::commit;
use crate::selected::moved;
use crate::several::{all_back, all_others};
use model_edit::Selection;
use model_site::EditFault;
use std::alloc::Global;
use std::marker::Model;
use std::sync::ledger::Ledger;
use ve_base::{Memory, Steps, Value};
use ve_items::{Item, Linear};
use ve_kinds::Kind;
use ve_offsets::Doc;
use ve_store::Store;
use ve_tree::Tree;
use ve_tx::{Draft, Entry, Parcel, Transaction, TxList};

/// A page's list, the values that its items cite, the tree of the list, and the selection. The view
/// has what a site's replica has (the list by value, the store as its values, and the selection)
/// and the tree's nodes by their numbers.
#[derive(Drop)]
pub struct Editor {
    pub(crate) list: Linear,
    pub(crate) store: Store,
    pub(crate) tree: Tree,
    pub(crate) selection: Selection,
    pub(crate) alloc: Global,
}

/// The items of a page without text: the internal list, which is empty.
const NO_TEXT: [Item; 2] = [
    Item::Opening {
        kind: Kind::InternalList,
        generated: false,
        head: None,
        marks: None,
        pre: None,
        origin: None,
    },
    Item::Closing {
        kind: Kind::InternalList,
        pre: None,
    },
];

impl Model for Editor {
    ghost use Rattle.std.specs.Prelude.{◌≡◌, None};
    ghost use Rattle.ve_editor.specs.Page.{IsPage, LinkedPage, linked_page, nodes_of_tree, page_of};

    ghost Value = { LinkedPage };

    ghost view = { λ e. linked_page (page_of e.store e.list.items e.selection) (nodes_of_tree e.tree) };

    ghost invariant = { λ e. IsPage e.store e.list.items e.tree × (e.tree.arena.first ≡ None) };
}

impl Editor {
    ghost use Rattle.ve_editor.specs.Page.{IsPage, page_of, replica_of, nodes_of_tree};
    ghost use Rattle.ve_editor.specs.Stays.{IsUnchanged, NumbersStay, NumbersStayOver};
    ghost use Rattle.ve_editor.specs.Edited.{IsDraftOf, drafted, entry_by_value, EntryCites, AllStand, CanBeReverted, CutsUncited, IsUncited, reversal_over};
    ghost use Rattle.ve_tx.specs.ByValue.{parcel_by_value, ParcelCites};
    ghost use Rattle.ve_editor.specs.Refusal.{IsEditRefusal};
    ghost use Rattle.model_change.specs.Cost.{cost_of_transaction};
    ghost use Rattle.ve_editor.specs.Counted.{steps_of_blank, steps_over};

    /// An editor of a lawful list whose items cite values of the store, with the selection at the
    /// start. Its tree is built, in at most six steps for each node and two more.
    pub fn new<L: Ledger>(
        alloc: Global,
        list: Linear,
        store: Store,
        steps: &mut Steps<L>,
    ) -> Result<Editor, Memory>
        requires lawful { Lawful (unvalued list.items) }
        requires cites { All (CitesWell store) list.items }
        ensures ok { IfOk result (λ editor.
            replica_of editor ≡ page_of store list.items (between 0 0)) }
        ensures counted { steps.old ≤ steps.new }
        ensures steps { steps.new ≤ steps.old + cost_of_tree (plain_list store list.items) }
        ensures six_a_node { steps.new
            ≤ steps.old + (6 * node_count (tree_of (plain_list store list.items)) + 2) }
    {
        let tree = Tree::build(alloc, &list, steps)?;
        Ok(Editor {
            list,
            store,
            tree,
            selection: Selection {
                anchor: 0,
                focus: 0,
            },
            alloc,
        })
    }

    /// An editor of a page without text: what stands in an editor's place while that one is moved
    /// out.
    pub fn blank<L: Ledger>(alloc: Global, steps: &mut Steps<L>) -> Result<Editor, Memory>
        ensures counted { steps.old ≤ steps.new }
        ensures steps { steps.new ≤ steps.old + steps_of_blank }
    {
        let mut list = Linear::new(alloc);
        list.extend(&NO_TEXT)?;
        Editor::new(alloc, list, Store::new(alloc), steps)
    }

    /// Lends list, tree and store, to be read.
    pub fn doc(&self) -> Doc<'_>
        ensures items { plain_list self.now.store result.list.now.items ≡ self.now.items }
        ensures store { result.store.now ≡ self.now.store }
        ensures page { IsPage self.now.store result.list.now.items result.tree.now }
        ensures nodes { nodes_of_tree result.tree.now ≡ self.now.nodes }
    {
        Doc {
            list: &self.list,
            tree: &self.tree,
            store: &self.store,
        }
    }

    /// The selection.
    pub fn selection(&self) -> Selection
        ensures { result ≡ self.now.selection }
    {
        self.selection
    }

    /// Selects something else. That both ends are offsets of the list is its caller's matter.
    pub fn select(&mut self, selection: Selection)
        ensures { self.new ≡ record self.old { selection = selection } }
    {
        self.selection = selection;
    }

    /// Performs a draft, and gives its transaction as an entry. The store takes the draft's values
    /// and the heads that it changes, and the selection moves with the items. The entry keeps where
    /// the attributes stood that it removes, so that it can be taken back.
    ///
    /// It is refused by the first of these causes. First, the draft doesn't apply to the list, as
    /// `Transaction::change` says. Next, the new list isn't lawful, at the first position that
    /// fails. Last, it would have over `MAX_ITEMS` items, or the store over `MAX_VALUES` values.
    /// All memory is taken before anything changes, and an `Err` changes nothing.
    ///
    /// Nodes are written, made or let go only where no cause refuses it, also where memory is
    /// wanting. That takes at most eight steps for each node that the transaction touches, and
    /// sixteen more. Nodes that stay keep their numbers.
    pub fn perform<L: Ledger>(
        &mut self,
        draft: &Draft,
        steps: &mut Steps<L>,
    ) -> Result<Entry, EditFault>
        requires draft { IsDraftOf self.old.store draft.now }
        ensures allowed { OnOk result (
            edit_cause (drafted self.old.store draft.now) (replica_of self.old) ≡ None) }
        ensures page { OnOk result (
            replica_of self.new
            ≡ performed (drafted self.old.store draft.now) (replica_of self.old)) }
        ensures numbers { OnOk result (
            NumbersStay (drafted self.old.store draft.now) self.old.items self.old.nodes
            self.new.nodes) }
        ensures entry { IfOk result (λ entry.
            entry_by_value self.new.store entry
            ≡ entry_of (drafted self.old.store draft.now ∷ []) (replica_of self.old)) }
        ensures cites { IfOk result (EntryCites self.new.store) }
        ensures refused { IfErr result (
            IsEditRefusal (
            edit_cause (drafted self.old.store draft.now) (replica_of self.old))) }
        ensures kept { OnErr result (IsUnchanged self.old self.new) }
        ensures counted { steps.old ≤ steps.new }
        ensures steps { steps.new
            ≤ steps.old + cost_of_transaction (drafted self.old.store draft.now) self.old.items }
        ensures unstepped { IfErr result (λ why. why ≢ EditFault.Memory → steps.new ≡ steps.old) }
        ensures steps_if_allowed { edit_cause (drafted self.old.store draft.now) (replica_of self.old) ≢ None
            → steps.new ≡ steps.old }
    {
        let before = self.store.len();
        match ready(
            self.alloc,
            &mut self.list,
            &mut self.store,
            &mut self.tree,
            &mut NoNotes,
            draft,
            steps,
        ) {
            Ok(performing) => {
                commit(&mut self.list, performing.change);
                let doc = Doc {
                    list: &self.list,
                    tree: &self.tree,
                    store: &self.store,
                };
                self.selection = moved(doc, &draft.tx, self.selection);
                Ok(performing.entry)
            }
            Err(fault) => {
                self.store.truncate(before);
                Err(fault)
            }
        }
    }

    /// Cuts the values of an entry off the store, where they are the last of it; before it was
    /// taken back the store had so many.
    pub(crate) fn cut_back(&mut self, entry: &Entry, was: usize)
        requires distinct { AreDistinct self.old.store }
        requires uncited { IsUncited (entry_by_value self.old.store entry.now) was (
            replica_of self.old) }
        ensures { self.new ≡ record self.old {
          store = cut_back (entry_by_value self.old.store entry.now) was self.old.store;
        } }
    {
        if was == entry.store_after && entry.store_before < entry.store_after {
            self.store.truncate(entry.store_before);
        }
    }

    /// Makes the reversal of transactions. That of one is made at once, and that of several on a
    /// trial, so that want of memory in the second leaves nothing of the first.
    fn put_entry_back<L: Ledger>(
        &mut self,
        txs: &[Transaction],
        steps: &mut Steps<L>,
    ) -> Result<(), Memory>
        requires cites { All (TxCites self.old.store) txs.now }
        requires stands { AllStand (reversal_over self.old.store txs.now) self.old.items }
        ensures page { OnOk result (
            replica_of self.new
            ≡ all_put_back (reversal_over self.old.store txs.now) (replica_of self.old)) }
        ensures numbers { OnOk result (
            NumbersStayOver (reversal_over self.old.store txs.now) self.old.items self.old.nodes
            self.new.nodes) }
        ensures kept { OnErr result (IsUnchanged self.old self.new) }
        ensures counted { steps.old ≤ steps.new }
        ensures steps { steps.new
            ≤ steps.old + steps_over (reversal_over self.old.store txs.now) self.old.items }
    {
        if txs.is_empty() {
            return Ok(());
        }
        if txs.len() == 1 {
            let back = txs[0].inverse(self.alloc)?;
            return self.put_back(&back, steps);
        }
        let blank = Editor::blank(self.alloc, steps)?;
        let (editor, result) = all_back(std::mem::replace(self, blank), txs, steps);
        *self = editor;
        result
    }

    /// Performs transactions that cite a list of values, one after the other, and gives them as an
    /// entry keeps them. One is performed at once, and several on a trial, so that want of memory
    /// in the second leaves nothing of the first. An `Err` changes nothing.
    fn admit_all<L: Ledger>(
        &mut self,
        txs: &[Transaction],
        values: &[Value],
        steps: &mut Steps<L>,
    ) -> Result<TxList, Memory>
        requires cites { All (TxCites values.now) txs.now }
        requires stands { AllStand (map (by_value values.now) txs.now) self.old.items }
        ensures page { OnOk result (
            replica_of self.new
            ≡ all_performed (map (by_value values.now) txs.now) (replica_of self.old)) }
        ensures numbers { OnOk result (
            NumbersStayOver (map (by_value values.now) txs.now) self.old.items self.old.nodes
            self.new.nodes) }
        ensures txs { IfOk result (λ kept.
            map (by_value self.new.store) kept
            ≡ all_filled (map (by_value values.now) txs.now) self.old.items) }
        ensures cites { IfOk result (λ kept. All (TxCites self.new.store) kept) }
        ensures kept { OnErr result (IsUnchanged self.old self.new) }
        ensures counted { steps.old ≤ steps.new }
        ensures steps { steps.new
            ≤ steps.old + steps_over (map (by_value values.now) txs.now) self.old.items }
    {
        if txs.is_empty() {
            return Ok(TxList::new(self.alloc));
        }
        if txs.len() == 1 {
            return self.perform_other(&txs[0], values, steps);
        }
        let blank = Editor::blank(self.alloc, steps)?;
        let (editor, result) = all_others(std::mem::replace(self, blank), txs, values, steps);
        *self = editor;
        result
    }

    /// Performs another's parcel, and gives it as an entry. That has the same transactions over
    /// this store, with the positions of the attributes that they remove, and the lengths of the
    /// store before and after; it takes back what the parcel does. Each transaction has to apply to
    /// the result of those before it, and to leave a lawful list. The limits of items and of values
    /// don't bind it. An `Err` changes nothing.
    pub fn admit<L: Ledger>(
        &mut self,
        parcel: &Parcel,
        steps: &mut Steps<L>,
    ) -> Result<Entry, Memory>
        requires cites { ParcelCites parcel.now }
        requires stands { AllStand (parcel_by_value parcel.now) self.old.items }
        ensures page { OnOk result (
            replica_of self.new
            ≡ all_performed (parcel_by_value parcel.now) (replica_of self.old)) }
        ensures numbers { OnOk result (
            NumbersStayOver (parcel_by_value parcel.now) self.old.items self.old.nodes
            self.new.nodes) }
        ensures entry { IfOk result (λ entry.
            entry_by_value self.new.store entry
            ≡ entry_against parcel.now.entry.takes_back (parcel_by_value parcel.now)
            (replica_of self.old)) }
        ensures cites { IfOk result (EntryCites self.new.store) }
        ensures kept { OnErr result (IsUnchanged self.old self.new) }
        ensures counted { steps.old ≤ steps.new }
        ensures steps { steps.new
            ≤ steps.old + steps_over (parcel_by_value parcel.now) self.old.items }
    {
        let store_before = self.store.len();
        let txs = self.admit_all(parcel.entry.txs.as_slice(), parcel.values.as_slice(), steps)?;
        Ok(Entry {
            txs,
            store_before,
            store_after: self.store.len(),
            takes_back: parcel.entry.takes_back,
        })
    }

    /// Takes an entry back: its reversals are made, the last transaction's first, and the store
    /// takes the heads that they change. Where the entry's values were the last of the store, they
    /// are cut off it. The reversals have to apply one after the other and leave lawful lists.
    /// Where values are cut, the list that is left may cite none of them. An `Err` changes nothing.
    pub fn revert<L: Ledger>(&mut self, entry: &Entry, steps: &mut Steps<L>) -> Result<(), Memory>
        requires cites { EntryCites self.old.store entry.now }
        requires stands { CanBeReverted (entry_by_value self.old.store entry.now) (
            replica_of self.old) }
        requires uncited { CutsUncited (entry_by_value self.old.store entry.now) (
            replica_of self.old) }
        ensures page { OnOk result (
            replica_of self.new
            ≡ reverted (entry_by_value self.old.store entry.now) (replica_of self.old)) }
        ensures numbers { OnOk result (
            NumbersStayOver (reversal_over self.old.store entry.now.txs) self.old.items
            self.old.nodes self.new.nodes) }
        ensures kept { OnErr result (IsUnchanged self.old self.new) }
        ensures counted { steps.old ≤ steps.new }
        ensures steps { steps.new
            ≤ steps.old + steps_over (reversal_over self.old.store entry.now.txs) self.old.items }
    {
        let was = self.store.len();
        self.put_entry_back(entry.txs.as_slice(), steps)?;
        self.cut_back(entry, was);
        Ok(())
    }
}
