// Transactions in normal form.
ghost use Rattle.std.specs.Prelude.{◌≡◌, ◌<◌, ◌≤◌, ◌+◌, All, length, true, map, is_ok, Ok, IfOk, IfErr, OnOk, OnErr};
ghost use Rattle.model_items.specs.Plain.{plain_list, CitesWell};
ghost use Rattle.model_change.specs.Inverse.{inverse};
ghost use Rattle.model_change.specs.Join.{active_range, core, with_ends};
ghost use Rattle.model_change.specs.Store.{cited, fill};
ghost use Rattle.model_change.specs.Transaction.{all_inserted, is_normal};
ghost use Rattle.ve_tx.specs.Applied.{AppliesTo, IsOverActive, IsRestorableOn, Undoes, applied_to, fault_on, filled_on, plain_after, store_after};
ghost use Rattle.ve_tx.specs.Changed.{IsRefusal, brought_count};
ghost use Rattle.ve_tx.specs.Cites.{TxCites};
ghost use Rattle.ve_tx.specs.Copied.{AreCopied, TransactionsAlike};
ghost use Rattle.ve_tx.specs.Operation.{unkept, bare, by_value, kept_at};
ghost use Rattle.ve_tx.specs.Parcel.{transaction_cited_in};
ghost use Rattle.ve_tx.specs.Spliced.{AllCite, LieBetween, come_count};
ghost use Rattle.ve_tx.specs.Taken.{HasRemoved};

use crate::change::prepared;
use crate::check::check;
use crate::copies::Copies;
use crate::ends::with_ends;
use crate::filled::filled;
use crate::inverse::inverted;
use crate::kept::kept_among;
use crate::normal::is_normal;
use crate::range::range_of;
use crate::taken::CitedValues;
use crate::{Change, Op, OpList};
use model_change::TxFault;
use std::alloc::Global;
use std::marker::Model;
use ve_base::{ListOf, Memory, TryCopy, Value};
use ve_items::Linear;
use ve_store::Store;

/// Operations along a list in normal form, so that each edit is written in one way. There is no
/// retain of 0, no replace with both sides empty, and no two neighbouring retains or replaces.
/// Attribute operations of one position have distinct names and are followed by a retain. All
/// retained, removed and inserted lengths add up to at most `max_total_length`.
///
/// Its view is the list of its operations, each attribute operation with the position that it
/// keeps. That is where an attribute that was removed stood, so that the inverse puts it back
/// there.
#[derive(Drop)]
pub struct Transaction {
    ops: Vec<Op>,
    // beside each operation the position that it keeps; where there is none beside it, none
    kept: Vec<Option<usize>>,
}

/// Transactions one after the other.
pub type TxList = ListOf<Transaction>;

impl Model for Transaction {
    ghost use Rattle.std.specs.Prelude.{List};
    ghost use Rattle.ve_tx.specs.Operation.{Operation, with_positions, IsNormal};

    ghost Value = { List Operation };

    ghost view = { λ t. with_positions t.ops.items t.kept.items };

    ghost invariant = { λ t. IsNormal (with_positions t.ops.items t.kept.items) };
}

impl Transaction {
    ghost use Rattle.ve_tx.specs.Operation.{IsNormal};

    /// The transaction of these operations, without kept positions. It hands them back exactly
    /// where they aren't in normal form. Where many attribute operations have one position, their
    /// names are sorted if there is memory for it, and compared by pairs if there is none.
    pub fn from_ops(ops: OpList) -> Result<Transaction, OpList>
        ensures normal { (values : _) → is_ok result ≡ is_normal (by_value values (unkept ops)) }
        ensures ok { IfOk result (λ tx. tx ≡ unkept ops) }
        ensures err { IfErr result (λ back. back ≡ ops) }
    {
        let ops = ops.into_vec();
        let alloc = *ops.allocator();
        if !is_normal(alloc, ops.as_slice()) {
            return Err(OpList::from_vec(ops));
        }
        Ok(Transaction {
            ops,
            kept: Vec::new(alloc),
        })
    }

    /// Lends the operations, without their kept positions.
    pub fn ops(&self) -> &[Op]
        ensures ops { result.now ≡ map bare self.now }
        ensures normal { IsNormal self.now }
    {
        self.ops.as_slice()
    }

    /// The position that operation `k` keeps: where the attribute is put that it adds, or stood that
    /// it removes. Other operations keep none.
    pub fn kept(&self, k: usize) -> Option<usize>
        requires within { k < length self.now }
        ensures { result ≡ kept_at self.now k }
    {
        kept_among(self.ops.as_slice(), self.kept.as_slice(), k)
    }

    /// The same transaction, citing copies of what it cites in the store.
    pub(crate) fn recited(
        &self,
        alloc: Global,
        store: &Store,
        copies: &mut Copies,
    ) -> Result<Transaction, Memory>
        requires copied { AreCopied store.now copies.old.places.keys copies.old.values }
        requires cites { TxCites store.now self.now }
        ensures copied { OnOk result (
            AreCopied store.now copies.new.places.keys copies.new.values) }
        ensures filled { OnOk result (
            copies.new.values
            ≡ fill copies.old.values (transaction_cited_in store.now self.now)) }
        ensures alike { IfOk result (TransactionsAlike store.now copies.new.values self.now) }
    {
        let made = copies.ops(alloc, store, self.ops.as_slice(), self.kept.as_slice())?;
        Ok(Transaction {
            ops: made.ops,
            kept: made.kept,
        })
    }

    /// The same transaction, citing a store in place of the list of values that it cites: the way
    /// back of a parcel's. All positions are kept. The store takes each value that it lacks when it
    /// is first cited, in one operation by the items removed and then by those inserted. A store
    /// has what the removed items cite where the transaction applies to a list that cites it. Then
    /// the values inserted fill it. An `Err` changes nothing.
    pub fn recite(
        &self,
        alloc: Global,
        values: &[Value],
        store: &mut Store,
    ) -> Result<Transaction, Memory>
        requires cites { TxCites values.now self.now }
        ensures same { IfOk result (λ tx. by_value store.new tx ≡ by_value values.now self.now) }
        ensures cites { IfOk result (TxCites store.new) }
        ensures filled { OnOk result (
            store.new ≡ fill store.old (transaction_cited_in values.now self.now)) }
        ensures inserted { OnOk result (
            HasRemoved values.now store.old self.now
            → store.new
            ≡ fill store.old (cited (all_inserted (by_value values.now self.now)))) }
        ensures kept { OnErr result (store.new ≡ store.old) }
    {
        let before = store.len();
        let mut taken = CitedValues::new(alloc);
        match taken.ops(
            alloc,
            values,
            store,
            self.ops.as_slice(),
            self.kept.as_slice(),
        ) {
            Ok(made) => Ok(Transaction {
                ops: made.ops,
                kept: made.kept,
            }),
            Err(Memory) => {
                store.truncate(before);
                Err(Memory)
            }
        }
    }

    /// The inverse. Removed and inserted change places, and so do the old and the new value of each
    /// attribute. The attribute operations of one position come in reverse order; kept positions
    /// stay. It gives the old list back where the transaction applies, names are apart, and each
    /// attribute that it removes would be put back where it was.
    pub fn inverse(&self, alloc: Global) -> Result<Transaction, Memory>
        ensures inverse { IfOk result (λ back.
            (values : _) → by_value values back ≡ inverse (by_value values self.now)) }
        ensures undone { IfOk result (λ back. (values : _) → Undoes values self.now back) }
        ensures cites { IfOk result (λ back.
            (values : _) → TxCites values self.now → TxCites values back) }
    {
        let back = inverted(alloc, self.ops.as_slice(), self.kept.as_slice())?;
        Ok(Transaction {
            ops: back.ops,
            kept: back.kept,
        })
    }

    /// The same operations between a first retain of `first` and a last retain of `last` items, in
    /// place of those that it has; a retain of 0 is left out. All positions are kept.
    pub fn with_ends(&self, alloc: Global, first: usize, last: usize) -> Result<Transaction, Memory>
        requires normal { (values : _)
            → is_normal (with_ends first (core (by_value values self.now)) last) ≡ true }
        ensures ends { IfOk result (λ tx.
            (values : _)
            → by_value values tx ≡ with_ends first (core (by_value values self.now)) last) }
        ensures cites { IfOk result (λ tx.
            (values : _) → TxCites values self.now → TxCites values tx) }
    {
        let made = with_ends(
            alloc,
            first,
            self.ops.as_slice(),
            self.kept.as_slice(),
            last,
        )?;
        Ok(Transaction {
            ops: made.ops,
            kept: made.kept,
        })
    }

    /// The same transaction, where it applies to the list, with a position kept beside each
    /// operation that removes an attribute. It is the one that the attribute has just before, the
    /// earlier operations there being done. So its inverse puts each one back where it was.
    pub fn filled(&self, alloc: Global, list: &Linear, store: &Store) -> Result<Transaction, Memory>
        requires list { All (CitesWell store.now) list.now.items }
        requires applies { AppliesTo store.now self.now list.now.items }
        ensures ops { IfOk result (λ tx. map bare tx ≡ map bare self.now) }
        ensures filled { IfOk result (λ tx.
            by_value store.now tx ≡ filled_on store.now self.now list.now.items) }
        ensures restorable { IfOk result (λ tx. IsRestorableOn store.now tx list.now.items) }
        ensures cites { IfOk result (λ tx.
            (values : _) → TxCites values self.now → TxCites values tx) }
    {
        let made = filled(
            alloc,
            self.ops.as_slice(),
            self.kept.as_slice(),
            list,
            store,
        )?;
        Ok(Transaction {
            ops: made.ops,
            kept: made.kept,
        })
    }

    /// The range of the old list, in items, from the start of its first replace or attribute
    /// operation to the end of the last. An attribute operation at p reaches to p + 1. None where
    /// it has no such operation. It takes no memory.
    pub fn active_range(&self) -> Option<(usize, usize)>
        ensures { (values : _) → result ≡ active_range (by_value values self.now) }
    {
        range_of(self.ops.as_slice())
    }

    /// The change of a list that the transaction stands for, without changing the list. The change
    /// has a splice for each replace and for each opening whose attributes change, all within the
    /// active range. No other item that stays is copied. Making it gives the new list and succeeds.
    /// Heads that attribute operations change are put into the store, where they are new.
    ///
    /// It is refused by the first of these causes. First, the retained and removed lengths don't
    /// add up to the list's. Next, an item that is to be removed isn't the list's, at the first
    /// such position. Last, at the first such position, an attribute operation isn't allowed: it
    /// doesn't stand on the opening of an element, its old value isn't the present one, or its name
    /// is `about` or `typeof`. An `Err` changes neither the list nor the store.
    pub fn change(
        &self,
        alloc: Global,
        list: &mut Linear,
        store: &mut Store,
    ) -> Result<Change, TxFault>
        requires list { All (CitesWell store.old) list.old.items }
        requires cites { TxCites store.old self.now }
        ensures applied { IfOk result (λ change.
            applied_to store.old self.now list.old.items
            ≡ Ok (plain_after store.new list.old.items change.splices.items)) }
        ensures range { IfOk result (λ change.
            IsOverActive store.old self.now change.splices.items) }
        ensures within { IfOk result (λ change.
            LieBetween 0 (length list.old.items) change.splices.items) }
        ensures thrifty { IfOk result (λ change.
            come_count change.splices.items ≤ brought_count (by_value store.old self.now)) }
        ensures room { IfOk result (λ change. come_count change.splices.items ≤ list.new.spare) }
        ensures spare { list.old.spare ≤ list.new.spare }
        ensures cites { IfOk result (λ change. AllCite store.new change.splices.items) }
        ensures store { OnOk result (store.new ≡ store_after store.old self.now list.old.items) }
        ensures items { list.new.items ≡ list.old.items }
        ensures blocks { list.new.blocks ≡ list.old.blocks }
        ensures refused { IfErr result (IsRefusal (fault_on store.old self.now list.old.items)) }
        ensures list_kept { OnErr result (list.new ≡ list.old) }
        ensures store_kept { OnErr result (store.new ≡ store.old) }
    {
        let values = store.len();
        check(alloc, self.ops.as_slice(), list, store)?;
        match prepared(
            alloc,
            self.ops.as_slice(),
            self.kept.as_slice(),
            list,
            store,
        ) {
            Ok(change) => Ok(change),
            Err(Memory) => {
                store.truncate(values);
                Err(TxFault::Memory)
            }
        }
    }

    /// Changes a list as the transaction says, splice by splice. It is refused as `change` is, and
    /// an `Err` changes neither the list nor the store.
    pub fn apply(&self, alloc: Global, list: &mut Linear, store: &mut Store) -> Result<(), TxFault>
        requires list { All (CitesWell store.old) list.old.items }
        requires cites { TxCites store.old self.now }
        ensures applied { OnOk result (
            applied_to store.old self.now list.old.items
            ≡ Ok (plain_list store.new list.new.items)) }
        ensures cites { OnOk result (All (CitesWell store.new) list.new.items) }
        ensures store { OnOk result (store.new ≡ store_after store.old self.now list.old.items) }
        ensures refused { IfErr result (IsRefusal (fault_on store.old self.now list.old.items)) }
        ensures list_kept { OnErr result (list.new ≡ list.old) }
        ensures store_kept { OnErr result (store.new ≡ store.old) }
    {
        let change = self.change(alloc, list, store)?;
        change.splice_into(list);
        Ok(())
    }
}

impl TryCopy for Transaction {
    fn copy(&self, alloc: Global) -> Result<Transaction, Memory> {
        Ok(Transaction {
            ops: OpList::copy_of(alloc, self.ops.as_slice())?.into_vec(),
            kept: Vec::from_slice(alloc, self.kept.as_slice())?,
        })
    }
}
