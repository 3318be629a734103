// Values that are copied out of a store, and the numbers that cite the copies in place of the
// store.
ghost use Rattle.std.specs.Prelude.{◌≡◌, [], All, IfOk, OnOk, map, vec_len};
ghost use Rattle.model_change.specs.Store.{fill, cited_by, cited};
ghost use Rattle.model_items.specs.Plain.{plain, plain_list, CitesWell};
ghost use Rattle.ve_tx.specs.Cites.{OperationCites, TxCites};
ghost use Rattle.ve_tx.specs.Copied.{AreCopied, Stands, one_cited, CitesAlike, ReadsAlike, OperationsAlike, TransactionsAlike};
ghost use Rattle.ve_tx.specs.Gathered.{gathered};
ghost use Rattle.ve_tx.specs.Operation.{with_position, with_positions};
ghost use Rattle.ve_tx.specs.Parcel.{operation_cited_in, transaction_cited_in};

use crate::gathered::Gathered;
use crate::inverse::position_at;
use crate::{Op, ValueList};
use indexmap::IndexSet;
use std::alloc::Global;
use ve_base::{Memory, TryCopy, ValueId};
use ve_items::{Item, Items};
use ve_store::Store;

/// Values that are copied out of a store, each when it is cited for the first time.
#[derive(Drop)]
pub struct Copies {
    // where each value stands in the store
    pub places: IndexSet<usize>,
    pub values: ValueList,
}

impl Copies {
    /// None yet. It takes no memory.
    pub fn new(alloc: Global) -> Copies
        ensures places { result.places.keys ≡ [] }
        ensures values { result.values ≡ [] }
    {
        Copies {
            places: IndexSet::new(alloc),
            values: ValueList::new(alloc),
        }
    }

    /// The number among the copies of the value that is cited in the store.
    fn cite(
        &mut self,
        alloc: Global,
        store: &Store,
        id: Option<ValueId>,
    ) -> Result<Option<ValueId>, Memory>
        requires copied { AreCopied store.now self.old.places.keys self.old.values }
        requires stands { Stands store.now id }
        ensures copied { OnOk result (AreCopied store.now self.new.places.keys self.new.values) }
        ensures filled { OnOk result (
            self.new.values ≡ fill self.old.values (one_cited store.now id)) }
        ensures cites { IfOk result (CitesAlike store.now self.new.values id) }
    {
        let Some(id) = id else {
            return Ok(None);
        };
        prove!(id.0 < store.len());
        let (at, is_new) = self.places.insert_full(id.0)?;
        if !is_new {
            return Ok(Some(ValueId(at)));
        }
        let value = store.get(id).copy(alloc)?;
        self.values.push(value)?;
        Ok(Some(ValueId(at)))
    }

    /// The item, citing the copies.
    fn item(&mut self, alloc: Global, store: &Store, item: Item) -> Result<Item, Memory>
        requires copied { AreCopied store.now self.old.places.keys self.old.values }
        requires cites { CitesWell store.now item }
        ensures copied { OnOk result (AreCopied store.now self.new.places.keys self.new.values) }
        ensures filled { OnOk result (
            self.new.values ≡ fill self.old.values (cited_by (plain store.now item))) }
        ensures alike { IfOk result (ReadsAlike plain CitesWell store.now self.new.values item) }
    {
        match item {
            Item::Char { ch, marks } => {
                let marks = self.cite(alloc, store, marks)?;
                Ok(Item::Char { ch, marks })
            }
            Item::Opening {
                kind,
                generated,
                head,
                marks,
                pre,
                origin,
            } => {
                let head = self.cite(alloc, store, head)?;
                let marks = self.cite(alloc, store, marks)?;
                let pre = self.cite(alloc, store, pre)?;
                Ok(Item::Opening {
                    kind,
                    generated,
                    head,
                    marks,
                    pre,
                    origin,
                })
            }
            Item::Closing { kind, pre } => {
                let pre = self.cite(alloc, store, pre)?;
                Ok(Item::Closing { kind, pre })
            }
        }
    }

    /// The items, citing the copies.
    fn items(&mut self, alloc: Global, store: &Store, items: &[Item]) -> Result<Items, Memory>
        requires copied { AreCopied store.now self.old.places.keys self.old.values }
        requires cites { All (CitesWell store.now) items.now }
        ensures copied { OnOk result (AreCopied store.now self.new.places.keys self.new.values) }
        ensures filled { OnOk result (
            self.new.values ≡ fill self.old.values (cited (plain_list store.now items.now))) }
        ensures alike { IfOk result (
            ReadsAlike plain_list (λ values. All (CitesWell values)) store.now self.new.values
            items.now) }
    {
        let mut made = Items::new(alloc);
        for item in items {
            let item = self.item(alloc, store, *item)?;
            made.push(item)?;
        }
        Ok(made)
    }

    /// The operation, citing the copies.
    fn op(&mut self, alloc: Global, store: &Store, op: &Op) -> Result<Op, Memory>
        requires copied { AreCopied store.now self.old.places.keys self.old.values }
        requires cites { (k : _) → OperationCites store.now (with_position op.now k) }
        ensures copied { OnOk result (AreCopied store.now self.new.places.keys self.new.values) }
        ensures filled { OnOk result (
            (k : _)
            → self.new.values
            ≡ fill self.old.values (operation_cited_in store.now (with_position op.now k))) }
        ensures alike { IfOk result (λ made.
            (k : _)
            → OperationsAlike store.now self.new.values (with_position op.now k)
            (with_position made k)) }
    {
        match op {
            Op::Retain(count) => Ok(Op::Retain(*count)),
            Op::Replace { removed, inserted } => {
                let removed = self.items(alloc, store, removed.as_slice())?;
                let inserted = self.items(alloc, store, inserted.as_slice())?;
                Ok(Op::Replace { removed, inserted })
            }
            Op::Attribute { name, from, to } => Ok(Op::Attribute {
                name: name.copy(alloc)?,
                from: from.copy(alloc)?,
                to: to.copy(alloc)?,
            }),
        }
    }

    /// The operations of a transaction with their positions, citing the copies.
    pub fn ops(
        &mut self,
        alloc: Global,
        store: &Store,
        ops: &[Op],
        kept: &[Option<usize>],
    ) -> Result<Gathered, Memory>
        requires copied { AreCopied store.now self.old.places.keys self.old.values }
        requires cites { TxCites store.now (with_positions ops.now kept.now) }
        ensures copied { OnOk result (AreCopied store.now self.new.places.keys self.new.values) }
        ensures filled { OnOk result (
            self.new.values ≡ fill self.old.values (
            transaction_cited_in store.now (with_positions ops.now kept.now))) }
        ensures alike { IfOk result (λ made.
            TransactionsAlike store.now self.new.values (with_positions ops.now kept.now)
            (gathered made)) }
    {
        let mut made = Gathered::new(alloc);
        for i in 0..ops.len() {
            let op = self.op(alloc, store, &ops[i])?;
            made.push(op, position_at(kept, i))?;
        }
        Ok(made)
    }
}
