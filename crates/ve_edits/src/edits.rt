// Edits at rising positions, collected into one transaction.
ghost use Rattle.std.specs.Prelude.{◌≡◌, ◌≤◌, ◌<◌, ◌+◌, ◌-◌, ◌++◌, [], length, All, IfOk, OnOk, IsTrue, ◌↔◌};
ghost use Rattle.std.specs.Str.{chars};
ghost use Rattle.model_items.specs.Plain.{CitesWell};
ghost use Rattle.model_edit.specs.Edits.{retaining};
ghost use Rattle.ve_tx.specs.Cites.{TxCites};
ghost use Rattle.ve_tx.specs.Operation.{by_value, unkept};
ghost use Rattle.ve_edits.specs.Collected.{collected_transaction, AreCited, Makes, MakesOneMore, SetsOneMore, IsCollected, IsReplacePut, ReplaceCites};

use crate::attributes::present_value;
use std::alloc::Global;
use std::marker::Model;
use std::mem;
use ve_base::{Memory, Text};
use ve_items::{Item, Items, Linear};
use ve_store::Store;
use ve_tx::{Op, OpList, Transaction, copy_range};

/// Edits at rising positions of a list. What they make is operations, and after them a retain and a
/// replace to which the next edit may still add.
#[derive(Drop)]
pub struct Edits {
    at: usize,
    ops: OpList,
    retained: usize,
    removed: Items,
    inserted: Items,
    alloc: Global,
}

impl Model for Edits {
    ghost use Rattle.ve_edits.specs.Collected.{Collected};
    ghost use Rattle.std.specs.Prelude.{◌≤◌};

    ghost Value = { Collected };

    ghost view = { λ e. record { at = e.at; ops = e.ops; retained = e.retained; removed = e.removed; inserted = e.inserted } };

    ghost invariant = { λ e. e.retained ≤ e.at };
}

/// Puts a retain after operations; one of nothing is left out.
fn put_retain(ops: &mut OpList, count: usize) -> Result<(), Memory>
    ensures means { OnOk result (
        (values : _)
        → by_value values (unkept ops.new)
        ≡ by_value values (unkept ops.old) ++ retaining count []) }
    ensures cites { OnOk result (
        (values : _) → TxCites values (unkept ops.old) → TxCites values (unkept ops.new)) }
{
    if count == 0 {
        return Ok(());
    }
    ops.push(Op::Retain(count))
}

/// Puts a replace after operations; one that does nothing is left out.
fn put_replace(ops: &mut OpList, removed: Items, inserted: Items) -> Result<(), Memory>
    ensures means { OnOk result (IsReplacePut ops.old removed inserted ops.new) }
    ensures cites { OnOk result (ReplaceCites ops.old removed inserted ops.new) }
{
    if removed.as_slice().is_empty() && inserted.as_slice().is_empty() {
        return Ok(());
    }
    ops.push(Op::Replace { removed, inserted })
}

impl Edits {
    /// No edits. It takes no memory.
    pub fn new(alloc: Global) -> Edits
        ensures at { result.at ≡ 0 }
        ensures makes { (values : _) (items : _) → Makes values items [] result }
    {
        Edits {
            at: 0,
            ops: OpList::new(alloc),
            retained: 0,
            removed: Items::new(alloc),
            inserted: Items::new(alloc),
            alloc,
        }
    }

    /// Whether a replace is to follow the operations.
    fn replaces(&self) -> bool
        ensures { IsTrue result ↔ ((self.now.removed ≡ [] → self.now.inserted ≡ [] → ⊥)) }
    {
        !self.removed.as_slice().is_empty() || !self.inserted.as_slice().is_empty()
    }

    /// Puts the waiting operation after the others.
    fn settle(&mut self) -> Result<(), Memory>
        ensures means { OnOk result (
            (values : _)
            → by_value values (unkept self.new.ops)
            ≡ collected_transaction values self.old []) }
        ensures at { OnOk result (self.new.at ≡ self.old.at) }
        ensures retained { OnOk result (self.new.retained ≡ 0) }
        ensures removed { OnOk result (self.new.removed ≡ []) }
        ensures inserted { OnOk result (self.new.inserted ≡ []) }
        ensures cites { OnOk result (
            (values : _) → AreCited values self.old → AreCited values self.new) }
    {
        let removed = mem::replace(&mut self.removed, Items::new(self.alloc));
        let inserted = mem::replace(&mut self.inserted, Items::new(self.alloc));
        put_retain(&mut self.ops, self.retained)?;
        self.retained = 0;
        put_replace(&mut self.ops, removed, inserted)?;
        Ok(())
    }

    /// Goes on to a position.
    fn pass(&mut self, place: usize) -> Result<(), Memory>
        requires { self.old.at ≤ place }
        ensures at { OnOk result (self.new.at ≡ place) }
        ensures means { OnOk result (
            (values : _) (t : _)
            → collected_transaction values self.new t
            ≡ collected_transaction values self.old (retaining (place - self.old.at) t)) }
        ensures cites { OnOk result (
            (values : _) → AreCited values self.old → AreCited values self.new) }
    {
        let gap = place - self.at;
        if gap == 0 {
            return Ok(());
        }
        if self.replaces() {
            self.settle()?;
            self.retained = gap;
            self.at = place;
            return Ok(());
        }
        self.retained += gap;
        self.at = place;
        Ok(())
    }

    /// Puts items in the place of `count` items from `at` on. Edits come in the order of their
    /// positions.
    pub fn change(
        &mut self,
        list: &Linear,
        at: usize,
        count: usize,
        inserted: &[Item],
    ) -> Result<(), Memory>
        requires order { self.old.at ≤ at }
        requires within { at + count ≤ length list.now.items }
        ensures at { OnOk result (self.new.at ≡ at + count) }
        ensures makes { OnOk result (
            MakesOneMore list.now.items at count inserted.now self.old self.new) }
    {
        let len = list.len();
        prove!(at <= len);
        self.pass(at)?;
        let end = at + count;
        copy_range(&mut self.removed, list, at, end)?;
        self.inserted.extend(inserted)?;
        self.at = end;
        Ok(())
    }

    /// Sets an attribute of the opening at a position to a value. The store has the values that the
    /// list's items cite. Edits come in the order of their positions.
    pub fn set(
        &mut self,
        list: &Linear,
        store: &Store,
        at: usize,
        name: &str,
        to: Text,
    ) -> Result<(), Memory>
        requires order { self.old.at ≤ at }
        requires within { at < length list.now.items }
        requires cites { All (CitesWell store.now) list.now.items }
        ensures at { OnOk result (self.new.at ≡ at) }
        ensures makes { OnOk result (
            SetsOneMore store.now list.now.items at (chars name.now) to self.old self.new) }
    {
        let name = Text::from_str(self.alloc, name)?;
        let from = present_value(self.alloc, store, list.get(at), &name)?;
        self.pass(at)?;
        self.settle()?;
        let to = Some(to);
        self.ops.push(Op::Attribute { name, from, to })?;
        Ok(())
    }

    /// The transaction that the edits of the list are. One whose lengths add up to more than 2^60
    /// is a want of memory like any other.
    pub fn transaction(self, list: &Linear) -> Result<Transaction, Memory>
        requires { self.at ≤ length list.now.items }
        ensures means { IfOk result (IsCollected list.now.items self) }
        ensures cites { IfOk result (λ tx.
            (values : _) (edits : _)
            → Makes values list.now.items edits self
            → TxCites values tx) }
    {
        let mut rest = self;
        rest.pass(list.len())?;
        rest.settle()?;
        match Transaction::from_ops(rest.ops) {
            Ok(tx) => Ok(tx),
            Err(_) => Err(Memory),
        }
    }
}
