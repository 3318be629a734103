// Values that a store takes from a list, and the numbers that cite them there in place of the list.
ghost use Rattle.std.specs.Prelude.{◌≡◌, [], All, IfOk, OnOk, OnErr, map, vec_len};
ghost use Rattle.model_change.specs.Store.{fill, cited_by, cited};
ghost use Rattle.model_items.specs.Plain.{plain, plain_list, CitesWell};
ghost use Rattle.ve_tx.specs.Cites.{OperationCites, TxCites};
ghost use Rattle.ve_tx.specs.Copied.{Stands, one_cited, CitesAlike, ReadsAlike, OperationsAlike, TransactionsAlike};
ghost use Rattle.ve_tx.specs.Gathered.{gathered};
ghost use Rattle.ve_tx.specs.Making.{Extends};
ghost use Rattle.ve_tx.specs.Operation.{with_position, with_positions};
ghost use Rattle.ve_tx.specs.Parcel.{operation_cited_in, transaction_cited_in};
ghost use Rattle.ve_tx.specs.Taken.{AreTaken};

use crate::Op;
use crate::gathered::Gathered;
use crate::inverse::position_at;
use indexmap::IndexSet;
use std::alloc::Global;
use ve_base::{Memory, TryCopy, Value, ValueId};
use ve_items::{Item, Items};
use ve_store::Store;

/// Values of a list that a store has, each since it was cited for the first time.
#[derive(Drop)]
pub struct CitedValues {
    // where each value stands in the list
    pub places: IndexSet<usize>,
    // beside it, its number in the store
    pub ids: Vec<ValueId>,
}

impl CitedValues {
    /// None yet. It takes no memory.
    pub fn new(alloc: Global) -> CitedValues
        ensures places { result.places.keys ≡ [] }
        ensures ids { result.ids.items ≡ [] }
    {
        CitedValues {
            places: IndexSet::new(alloc),
            ids: Vec::new(alloc),
        }
    }

    /// The number in the store of the value that is cited in the list. The store takes it where it
    /// is new.
    fn cite(
        &mut self,
        alloc: Global,
        values: &[Value],
        store: &mut Store,
        id: Option<ValueId>,
    ) -> Result<Option<ValueId>, Memory>
        requires taken { AreTaken values.now store.old self.old.places.keys self.old.ids.items }
        requires stands { Stands values.now id }
        ensures taken { OnOk result (
            AreTaken values.now store.new self.new.places.keys self.new.ids.items) }
        ensures filled { OnOk result (store.new ≡ fill store.old (one_cited values.now id)) }
        ensures cites { IfOk result (CitesAlike values.now store.new id) }
        ensures grown { OnErr result (Extends store.old store.new) }
    {
        let Some(id) = id else {
            return Ok(None);
        };
        let (at, is_new) = self.places.insert_full(id.0)?;
        if !is_new {
            return Ok(Some(self.ids[at]));
        }
        let value = values[id.0].copy(alloc)?;
        let taken = store.admit(value)?;
        self.ids.push(taken)?;
        Ok(Some(taken))
    }

    /// The item, citing the store.
    fn item(
        &mut self,
        alloc: Global,
        values: &[Value],
        store: &mut Store,
        item: Item,
    ) -> Result<Item, Memory>
        requires taken { AreTaken values.now store.old self.old.places.keys self.old.ids.items }
        requires cites { CitesWell values.now item }
        ensures taken { OnOk result (
            AreTaken values.now store.new self.new.places.keys self.new.ids.items) }
        ensures filled { OnOk result (
            store.new ≡ fill store.old (cited_by (plain values.now item))) }
        ensures alike { IfOk result (ReadsAlike plain CitesWell values.now store.new item) }
        ensures grown { OnErr result (Extends store.old store.new) }
    {
        match item {
            Item::Char { ch, marks } => {
                let marks = self.cite(alloc, values, store, marks)?;
                Ok(Item::Char { ch, marks })
            }
            Item::Opening {
                kind,
                generated,
                head,
                marks,
                pre,
                origin,
            } => {
                let head = self.cite(alloc, values, store, head)?;
                let marks = self.cite(alloc, values, store, marks)?;
                let pre = self.cite(alloc, values, store, pre)?;
                Ok(Item::Opening {
                    kind,
                    generated,
                    head,
                    marks,
                    pre,
                    origin,
                })
            }
            Item::Closing { kind, pre } => {
                let pre = self.cite(alloc, values, store, pre)?;
                Ok(Item::Closing { kind, pre })
            }
        }
    }

    /// The items, citing the store.
    fn items(
        &mut self,
        alloc: Global,
        values: &[Value],
        store: &mut Store,
        items: &[Item],
    ) -> Result<Items, Memory>
        requires taken { AreTaken values.now store.old self.old.places.keys self.old.ids.items }
        requires cites { All (CitesWell values.now) items.now }
        ensures taken { OnOk result (
            AreTaken values.now store.new self.new.places.keys self.new.ids.items) }
        ensures filled { OnOk result (
            store.new ≡ fill store.old (cited (plain_list values.now items.now))) }
        ensures alike { IfOk result (
            ReadsAlike plain_list (λ values. All (CitesWell values)) values.now store.new
            items.now) }
        ensures grown { OnErr result (Extends store.old store.new) }
    {
        let mut made = Items::new(alloc);
        for item in items {
            let item = self.item(alloc, values, store, *item)?;
            made.push(item)?;
        }
        Ok(made)
    }

    /// The operation, citing the store.
    fn op(
        &mut self,
        alloc: Global,
        values: &[Value],
        store: &mut Store,
        op: &Op,
    ) -> Result<Op, Memory>
        requires taken { AreTaken values.now store.old self.old.places.keys self.old.ids.items }
        requires cites { (k : _) → OperationCites values.now (with_position op.now k) }
        ensures taken { OnOk result (
            AreTaken values.now store.new self.new.places.keys self.new.ids.items) }
        ensures filled { OnOk result (
            (k : _)
            → store.new
            ≡ fill store.old (operation_cited_in values.now (with_position op.now k))) }
        ensures alike { IfOk result (λ made.
            (k : _)
            → OperationsAlike values.now store.new (with_position op.now k)
            (with_position made k)) }
        ensures grown { OnErr result (Extends store.old store.new) }
    {
        match op {
            Op::Retain(count) => Ok(Op::Retain(*count)),
            Op::Replace { removed, inserted } => {
                let removed = self.items(alloc, values, store, removed.as_slice())?;
                let inserted = self.items(alloc, values, store, inserted.as_slice())?;
                Ok(Op::Replace { removed, inserted })
            }
            Op::Attribute { name, from, to } => Ok(Op::Attribute {
                name: name.copy(alloc)?,
                from: from.copy(alloc)?,
                to: to.copy(alloc)?,
            }),
        }
    }

    /// The operations of a transaction with their positions, citing the store. An `Err` may leave
    /// values after those that it had.
    pub fn ops(
        &mut self,
        alloc: Global,
        values: &[Value],
        store: &mut Store,
        ops: &[Op],
        kept: &[Option<usize>],
    ) -> Result<Gathered, Memory>
        requires taken { AreTaken values.now store.old self.old.places.keys self.old.ids.items }
        requires cites { TxCites values.now (with_positions ops.now kept.now) }
        ensures taken { OnOk result (
            AreTaken values.now store.new self.new.places.keys self.new.ids.items) }
        ensures filled { OnOk result (
            store.new ≡ fill store.old (
            transaction_cited_in values.now (with_positions ops.now kept.now))) }
        ensures alike { IfOk result (λ made.
            TransactionsAlike values.now store.new (with_positions ops.now kept.now)
            (gathered made)) }
        ensures grown { OnErr result (Extends store.old store.new) }
    {
        let mut made = Gathered::new(alloc);
        for i in 0..ops.len() {
            let op = self.op(alloc, values, store, &ops[i])?;
            made.push(op, position_at(kept, i))?;
        }
        Ok(made)
    }
}
