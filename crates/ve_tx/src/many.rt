// Attributes of which many come, change and go by their names.
ghost use Rattle.std.specs.Prelude.{◌≡◌, ◌<◌, ◌++◌, ◌∷◌, [], List, ℕ, length, None, Some, All, IfOk, IsSome, OnOk, OnErr};
ghost use Rattle.std.specs.Str.{chars, encode_utf8_all};
ghost use Rattle.std.specs.BTreeMap.{get_by_text};
ghost use Rattle.ve_base.specs.Names.{NamesApart};
ghost use Rattle.model_change.specs.Attributes.{value_of, position_of, attr_added, attr_replaced, attr_removed};
ghost use Rattle.ve_tx.specs.Order.{counted};
ghost use Rattle.ve_tx.specs.Many.{ordered, Notes, IsIndexed};

use crate::order::Order;
use std::alloc::Global;
use std::collections::BTreeMap;
use std::marker::Model;
use ve_base::{Attr, Memory, Text, TryCopy};

/// Attributes, each name once. One is found by few comparisons, and comes or goes without moving
/// the others: each stands in a slot of its own, and an order has the numbers of the slots. What is
/// taken out leaves the order, and stays in its slot.
pub struct ManyAttrs {
    slots: Vec<Attr>,
    numbers: BTreeMap<String, usize>,
    order: Order,
    count: usize,
}

impl Drop for ManyAttrs {
    fn drop(self) {
        let ManyAttrs {
            slots,
            numbers,
            order,
            count: _,
        } = self;
        drop(slots);
        drop(numbers);
        drop(order);
    }
}

impl Model for ManyAttrs {
    ghost use Rattle.std.specs.Prelude.{◌≡◌, List, length};
    ghost use Rattle.std.specs.BTreeMap.{get_by_text};
    ghost use Rattle.ve_base.specs.declared.attrs.Attr.{Attr};
    ghost use Rattle.ve_tx.specs.Many.{ordered, IsIndexed};

    ghost Value = { List Attr };

    ghost view = { λ many. ordered many.slots.items many.order };

    ghost invariant = { λ many. IsIndexed many.slots.items (get_by_text many.numbers) many.order
        × (many.count ≡ length many.order) };
}

/// Notes a number under a name.
fn note(
    alloc: Global,
    numbers: &mut BTreeMap<String, usize>,
    name: &Text,
    number: usize,
) -> Result<(), Memory>
    ensures ok { OnOk result (Notes
        (get_by_text numbers.old) (encode_utf8_all name.now) number (get_by_text numbers.new)) }
    ensures err { OnErr result (get_by_text numbers.new ≡ get_by_text numbers.old) }
    ensures spelled { chars (encode_utf8_all name.now) ≡ name.now }
{
    let key = String::from_str(alloc, name.as_str())?;
    numbers.insert(key, number)?;
    Ok(())
}

/// The places of attributes under their names.
fn numbered(alloc: Global, attrs: &[Attr]) -> Result<BTreeMap<String, usize>, Memory>
    requires { NamesApart attrs.now }
    ensures { IfOk result (λ numbers.
        IsIndexed attrs.now (get_by_text numbers) (counted 0 (length attrs.now))) }
{
    let mut numbers = BTreeMap::new(alloc);
    for i in 0..attrs.len() {
        note(alloc, &mut numbers, &attrs[i].name, i)?;
    }
    Ok(numbers)
}

/// Copies of the attributes in these slots.
fn copies(alloc: Global, slots: &[Attr], numbers: &[usize]) -> Result<Vec<Attr>, Memory>
    requires { All (λ number. number < length slots.now) numbers.now }
    ensures { IfOk result (λ list. list.items ≡ ordered slots.now numbers.now) }
{
    let mut list = Vec::with_capacity(alloc, numbers.len())?;
    for i in 0..numbers.len() {
        list.push(slots[numbers[i]].copy(alloc)?)?;
    }
    Ok(list)
}

/// Puts an attribute of a new name into a slot, notes its name, and says the number of the slot.
fn add_slot(
    alloc: Global,
    slots: &mut Vec<Attr>,
    numbers: &mut BTreeMap<String, usize>,
    attr: Attr,
) -> Result<usize, Memory>
    ensures number { IfOk result (λ number. number ≡ length slots.old.items) }
    ensures slots { OnOk result (slots.new.items ≡ slots.old.items ++ attr ∷ []) }
    ensures told { OnOk result (
        get_by_text numbers.new (encode_utf8_all attr.name) ≡ Some (length slots.old.items)) }
    ensures indexed { (order : List ℕ) → IsIndexed slots.old.items (get_by_text numbers.old) order
        → value_of attr.name (ordered slots.old.items order) ≡ None
        → IsIndexed slots.new.items (get_by_text numbers.new) order }
    ensures attrs { (order : List ℕ) → IsIndexed slots.old.items (get_by_text numbers.old) order
        → ordered slots.new.items order ≡ ordered slots.old.items order }
{
    let number = slots.len();
    slots.push(attr)?;
    note(alloc, numbers, &slots[number].name, number)?;
    Ok(number)
}

impl ManyAttrs {
    /// The attributes of a list whose names are distinct.
    pub fn of(alloc: Global, attrs: Vec<Attr>) -> Result<ManyAttrs, Memory>
        requires { NamesApart attrs.items }
        ensures { IfOk result (λ many. many ≡ attrs.items) }
    {
        let count = attrs.len();
        let numbers = numbered(alloc, attrs.as_slice())?;
        let order = Order::first(alloc, count)?;
        Ok(ManyAttrs {
            slots: attrs,
            numbers,
            order,
            count,
        })
    }

    /// How many attributes stand before the one of this name; all, where there is none.
    pub fn position(&self, name: &Text) -> usize
        ensures { result ≡ position_of name.now self.now }
    {
        match self.numbers.get(name.as_str()) {
            Some(number) => self.order.position(*number).unwrap_or(self.count),
            None => self.count,
        }
    }

    /// Gives the attribute of this name another value.
    pub fn set_value(&mut self, name: &Text, value: Text)
        requires { IsSome (value_of name.now self.old) }
        ensures { self.new ≡ attr_replaced name.now value self.old }
    {
        let number = self.numbers[name.as_str()];
        self.slots[number].value = value;
    }

    /// Takes the attribute of this name out.
    pub fn take_out(&mut self, name: &Text)
        requires { IsSome (value_of name.now self.old) }
        ensures { self.new ≡ attr_removed name.now self.old }
    {
        let number = self.numbers[name.as_str()];
        self.order.take_out(number);
        self.count -= 1;
    }

    /// Puts an attribute of a new name in at the position kept for it, or else at the end.
    pub fn put_in(&mut self, alloc: Global, kept: Option<usize>, attr: Attr) -> Result<(), Memory>
        requires { value_of attr.name self.old ≡ None }
        ensures { OnOk result (self.new ≡ attr_added kept attr self.old) }
    {
        let number = add_slot(alloc, &mut self.slots, &mut self.numbers, attr)?;
        self.order
            .put_in(alloc, kept.unwrap_or(self.count), number)?;
        self.count += 1;
        Ok(())
    }

    /// Copies of the attributes, in order.
    pub fn into_vec(self, alloc: Global) -> Result<Vec<Attr>, Memory>
        ensures { IfOk result (λ list. list.items ≡ self) }
    {
        let numbers = self.order.numbers(alloc)?;
        copies(alloc, self.slots.as_slice(), numbers.as_slice())
    }
}
