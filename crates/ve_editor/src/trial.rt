// A page on which changes are made for a try.
ghost use Rattle.std.specs.Prelude.{◌≡◌, ◌≢◌, ◌≤◌, ◌+◌, ◌∷◌, [], None, Some, length, IfOk, IfErr, OnOk, OnErr};
ghost use Rattle.model_change.specs.Cost.{cost_of_transaction, cost_of_transactions};
ghost use Rattle.model_items.specs.Plain.{AreDistinct};
ghost use Rattle.model_items.specs.Plain.{plain_list};
ghost use Rattle.model_site.specs.Entries.{cut_back, entry_against, entry_of, reverted};
ghost use Rattle.model_site.specs.Refused.{edit_cause};
ghost use Rattle.model_site.specs.Replica.{all_performed, performed};
ghost use Rattle.ve_tree.specs.IsTree.{IsTree};

use crate::Editor;
use crate::back::Back;
use crate::first_values::FirstValues;
use crate::in_place::{InPlace, perform_others, put_all_back};
use crate::perform::{ready, ready_back, ready_other};
use crate::prepare::commit;
use crate::selected::moved;
use model_edit::Selection;
use model_site::EditFault;
use std::alloc::Global;
use std::marker::Model;
use std::sync::ledger::Ledger;
use ve_base::{Memory, Steps, Value};
use ve_items::Linear;
use ve_offsets::Doc;
use ve_store::Store;
use ve_tree::Tree;
use ve_tx::{Draft, Entry, Parcel, Transaction, TxList};

/// A page on which changes are made in place, and which can go back to what it was before the
/// first of them. Going back takes no memory, so it never fails. The view is the page as it is, and
/// as it was.
///
/// A trial runs in its tree, which can go back to the nodes that it had. It keeps the values that
/// there were, and the splices that take the list back, for which the list has room.
pub struct Trial {
    list: Linear,
    store: Store,
    tree: Tree,
    selection: Selection,
    alloc: Global,
    back: Back,
    values: FirstValues,
    first_selection: Selection,
}

impl Drop for Trial {
    fn drop(self) {
        let Trial {
            list,
            store,
            tree,
            selection: _,
            alloc: _,
            back,
            values,
            first_selection: _,
        } = self;
        drop(list);
        drop(store);
        drop(tree);
        drop(back);
        drop(values);
    }
}

impl Model for Trial {
    ghost use Rattle.ve_editor.specs.Back.{CanGoBack};
    ghost use Rattle.ve_editor.specs.Page.{IsPage, first_nodes, linked_page, nodes_of_tree, page_of};
    ghost use Rattle.ve_editor.specs.Trials.{Tried, first_page};

    ghost Value = { Tried };

    ghost view = { λ t. record {
      page = linked_page (page_of t.store t.list.items t.selection) (nodes_of_tree t.tree);
      first = first_page t.store t.list.items t.back t.values t.first_selection
          (first_nodes t.tree);
    } };

    ghost invariant = { λ t. IsPage t.store t.list.items t.tree
        × CanGoBack t.store t.list t.back t.values t.tree };
}

impl Trial {
    ghost use Rattle.ve_editor.specs.Edited.{AllStand, CanBeReverted, CutsUncited, EntryCites, IsDraftOf, IsUncited, drafted, entry_by_value, reversal_over};
    ghost use Rattle.ve_editor.specs.Page.{IsPage, nodes_of_tree, replica_of};
    ghost use Rattle.ve_editor.specs.Refusal.{IsEditRefusal};
    ghost use Rattle.ve_editor.specs.Stays.{IsUnchanged, NumbersStay, NumbersStayOver};
    ghost use Rattle.ve_tx.specs.ByValue.{ParcelCites, parcel_by_value};

    /// A trial of an editor's page. Nothing is copied, and it takes no step. Where there is no
    /// memory for it, the editor is given back.
    pub fn begin(editor: Editor) -> Result<Trial, Editor>
        ensures ok { IfOk result (λ trial. trial ≡ record { page = editor; first = editor }) }
        ensures err { IfErr result (λ back. back ≡ editor) }
    {
        let Editor {
            list,
            store,
            mut tree,
            selection,
            alloc,
        } = editor;
        match tree.begin_trial() {
            Ok(()) => {
                let values = store.len();
                Ok(Trial {
                    list,
                    store,
                    tree,
                    selection,
                    alloc,
                    back: Back::new(alloc),
                    values: FirstValues::Prefix(values),
                    first_selection: selection,
                })
            }
            Err(Memory) => Err(Editor {
                list,
                store,
                tree,
                selection,
                alloc,
            }),
        }
    }

    /// Lends list, tree and store of the page as it is.
    pub fn doc(&self) -> Doc<'_>
        ensures items { plain_list self.now.page.store result.list.now.items ≡ self.now.page.items }
        ensures store { result.store.now ≡ self.now.page.store }
        ensures page { IsPage self.now.page.store result.list.now.items result.tree.now }
        ensures nodes { nodes_of_tree result.tree.now ≡ self.now.page.nodes }
    {
        Doc {
            list: &self.list,
            tree: &self.tree,
            store: &self.store,
        }
    }

    /// The selection.
    pub fn selection(&self) -> Selection
        ensures { result ≡ self.now.page.selection }
    {
        self.selection
    }

    /// Performs a draft, as `Editor::perform` does: with the same entry, the same refusals, at most
    /// as many steps, and nodes that keep their numbers. What the page was when the trial began
    /// stays what it can go back to.
    pub fn perform<L: Ledger>(
        &mut self,
        draft: &Draft,
        steps: &mut Steps<L>,
    ) -> Result<Entry, EditFault>
        requires draft { IsDraftOf self.old.page.store draft.now }
        ensures allowed { OnOk result (
            edit_cause (drafted self.old.page.store draft.now) (replica_of self.old.page) ≡ None) }
        ensures page { OnOk result (
            replica_of self.new.page
            ≡ performed (drafted self.old.page.store draft.now) (replica_of self.old.page)) }
        ensures numbers { OnOk result (
            NumbersStay (drafted self.old.page.store draft.now) self.old.page.items
            self.old.page.nodes self.new.page.nodes) }
        ensures tree { OnOk result (
            IsTree self.new.page.nodes.slots self.new.page.nodes.root self.new.page.items) }
        ensures entry { IfOk result (λ entry.
            entry_by_value self.new.page.store entry
            ≡ entry_of (drafted self.old.page.store draft.now ∷ []) (replica_of self.old.page)) }
        ensures cites { IfOk result (EntryCites self.new.page.store) }
        ensures refused { IfErr result (
            IsEditRefusal (
            edit_cause (drafted self.old.page.store draft.now) (replica_of self.old.page))) }
        ensures kept { OnErr result (IsUnchanged self.old.page self.new.page) }
        ensures first { self.new.first ≡ self.old.first }
        ensures counted { steps.old ≤ steps.new }
        ensures steps { steps.new
            ≤ steps.old
            + cost_of_transaction (drafted self.old.page.store draft.now) self.old.page.items }
        ensures unstepped { IfErr result (λ why. why ≢ EditFault.Memory → steps.new ≡ steps.old) }
        ensures steps_if_allowed { edit_cause (drafted self.old.page.store draft.now) (replica_of self.old.page) ≢ None
            → steps.new ≡ steps.old }
    {
        let before = self.store.len();
        let noted = self.back.len();
        match ready(
            self.alloc,
            &mut self.list,
            &mut self.store,
            &mut self.tree,
            &mut self.back,
            draft,
            steps,
        ) {
            Ok(performing) => {
                commit(&mut self.list, performing.change);
                let doc = Doc {
                    list: &self.list,
                    tree: &self.tree,
                    store: &self.store,
                };
                self.selection = moved(doc, &draft.tx, self.selection);
                Ok(performing.entry)
            }
            Err(fault) => {
                self.store.truncate(before);
                self.back.truncate(noted);
                Err(fault)
            }
        }
    }

    /// Performs another's parcel as `Editor::admit` does. An `Err` may leave some of its
    /// transactions performed. What the page was when the trial began stays what it can go back to.
    pub fn admit<L: Ledger>(
        &mut self,
        parcel: &Parcel,
        steps: &mut Steps<L>,
    ) -> Result<Entry, Memory>
        requires cites { ParcelCites parcel.now }
        requires stands { AllStand (parcel_by_value parcel.now) self.old.page.items }
        ensures page { OnOk result (
            replica_of self.new.page
            ≡ all_performed (parcel_by_value parcel.now) (replica_of self.old.page)) }
        ensures numbers { OnOk result (
            NumbersStayOver (parcel_by_value parcel.now) self.old.page.items self.old.page.nodes
            self.new.page.nodes) }
        ensures entry { IfOk result (λ entry.
            entry_by_value self.new.page.store entry
            ≡ entry_against parcel.now.entry.takes_back (parcel_by_value parcel.now)
            (replica_of self.old.page)) }
        ensures cites { IfOk result (EntryCites self.new.page.store) }
        ensures first { self.new.first ≡ self.old.first }
        ensures counted { steps.old ≤ steps.new }
        ensures steps { steps.new
            ≤ steps.old
            + cost_of_transactions (parcel_by_value parcel.now) self.old.page.items }
    {
        let store_before = self.store.len();
        let txs = perform_others(
            self.alloc,
            self,
            parcel.entry.txs.as_slice(),
            parcel.values.as_slice(),
            steps,
        )?;
        Ok(Entry {
            txs,
            store_before,
            store_after: self.store.len(),
            takes_back: parcel.entry.takes_back,
        })
    }

    /// Cuts the values of an entry off the store, where they are the last of it; before it was
    /// taken back the store had so many. An `Err` changes nothing.
    fn cut_back(&mut self, entry: &Entry, was: usize) -> Result<(), Memory>
        requires distinct { AreDistinct self.old.page.store }
        requires uncited { IsUncited (entry_by_value self.old.page.store entry.now) was (
            replica_of self.old.page) }
        ensures page { OnOk result (
            self.new.page
            ≡ record self.old.page {
              store = cut_back (entry_by_value self.old.page.store entry.now) was
                  self.old.page.store;
            }) }
        ensures first { self.new.first ≡ self.old.first }
    {
        if was == entry.store_after && entry.store_before < entry.store_after {
            let left = entry.store_before;
            self.values.keep(self.alloc, &self.store, left)?;
            self.store.truncate(left);
        }
        Ok(())
    }

    /// Takes an entry back as `Editor::revert` does. An `Err` may leave some of its transactions
    /// taken back. What the page was when the trial began stays what it can go back to.
    pub fn revert<L: Ledger>(&mut self, entry: &Entry, steps: &mut Steps<L>) -> Result<(), Memory>
        requires cites { EntryCites self.old.page.store entry.now }
        requires stands { CanBeReverted (entry_by_value self.old.page.store entry.now) (
            replica_of self.old.page) }
        requires uncited { CutsUncited (entry_by_value self.old.page.store entry.now) (
            replica_of self.old.page) }
        ensures page { OnOk result (
            replica_of self.new.page
            ≡ reverted (entry_by_value self.old.page.store entry.now)
            (replica_of self.old.page)) }
        ensures numbers { OnOk result (
            NumbersStayOver (reversal_over self.old.page.store entry.now.txs) self.old.page.items
            self.old.page.nodes self.new.page.nodes) }
        ensures first { self.new.first ≡ self.old.first }
        ensures counted { steps.old ≤ steps.new }
        ensures steps { steps.new
            ≤ steps.old
            + cost_of_transactions (reversal_over self.old.page.store entry.now.txs)
            self.old.page.items }
    {
        let was = self.store.len();
        put_all_back(self.alloc, self, entry.txs.as_slice(), steps)?;
        self.cut_back(entry, was)
    }

    /// Ends the trial with the page as it is.
    pub fn keep(self) -> Editor
        ensures { result ≡ self.page }
    {
        let Trial {
            list,
            store,
            mut tree,
            selection,
            alloc,
            back,
            values,
            first_selection: _,
        } = self;
        drop(back);
        drop(values);
        tree.keep();
        Editor {
            list,
            store,
            tree,
            selection,
            alloc,
        }
    }

    /// Ends the trial with the page as it was, node by node.
    pub fn take_back(self) -> Editor
        ensures { result ≡ self.first }
    {
        let Trial {
            mut list,
            store,
            mut tree,
            selection: _,
            alloc,
            back,
            values,
            first_selection,
        } = self;
        back.put_back(&mut list);
        let store = values.restored(store);
        drop(back);
        tree.take_back();
        Editor {
            list,
            store,
            tree,
            selection: first_selection,
            alloc,
        }
    }
}

impl InPlace for Trial {
    ghost shown = { λ t. t.page };

    ghost start = { λ t. Some t.first };

    fn put_back<L: Ledger>(
        &mut self,
        tx: &Transaction,
        steps: &mut Steps<L>,
    ) -> Result<(), Memory> {
        let before = self.store.len();
        let noted = self.back.len();
        match ready_back(
            self.alloc,
            &mut self.list,
            &mut self.store,
            &mut self.tree,
            &mut self.back,
            tx,
            steps,
        ) {
            Ok(change) => {
                commit(&mut self.list, change);
                let doc = Doc {
                    list: &self.list,
                    tree: &self.tree,
                    store: &self.store,
                };
                self.selection = moved(doc, tx, self.selection);
                Ok(())
            }
            Err(Memory) => {
                self.store.truncate(before);
                self.back.truncate(noted);
                Err(Memory)
            }
        }
    }

    fn perform_other<L: Ledger>(
        &mut self,
        tx: &Transaction,
        values: &[Value],
        steps: &mut Steps<L>,
    ) -> Result<TxList, Memory> {
        let stored = self.store.len();
        let noted = self.back.len();
        match ready_other(
            self.alloc,
            &mut self.list,
            &mut self.store,
            &mut self.tree,
            &mut self.back,
            tx,
            values,
            steps,
        ) {
            Ok(admitting) => {
                commit(&mut self.list, admitting.change);
                let doc = Doc {
                    list: &self.list,
                    tree: &self.tree,
                    store: &self.store,
                };
                let selection = self.selection;
                self.selection = moved(doc, tx, selection);
                Ok(admitting.txs)
            }
            Err(Memory) => {
                self.store.truncate(stored);
                self.back.truncate(noted);
                Err(Memory)
            }
        }
    }
}
