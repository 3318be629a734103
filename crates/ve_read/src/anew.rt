// Items over values of their own, made to cite a store and the values that follow it.
ghost use Rattle.std.specs.Prelude.{◌≡◌, length, map, All, IfOk, OnOk};
ghost use Rattle.model_change.specs.Store.{fill};
ghost use Rattle.model_items.specs.Plain.{plain_list, CitesWell};
ghost use Rattle.ve_store.specs.Following.{Grows, together};
ghost use Rattle.ve_read.specs.Anew as model;

use std::alloc::Global;
use ve_base::{Memory, TryCopy, ValueId};
use ve_items::{Item, Items, Linear};
use ve_store::{NewValues, Store};

/// The new number of a cited value, where these numbers cite the values in turn.
fn id_anew(ids: &[ValueId], id: Option<ValueId>) -> Option<ValueId>
    ensures { result ≡ model.id_anew ids.now id }
{
    match id {
        Some(id) => ids.get(id.0).copied(),
        None => None,
    }
}

fn item_anew(ids: &[ValueId], item: Item) -> Item
    ensures { result ≡ model.item_anew ids.now item }
{
    match item {
        Item::Char { ch, marks } => Item::Char {
            ch,
            marks: id_anew(ids, marks),
        },
        Item::Opening {
            kind,
            generated,
            head,
            marks,
            pre,
            origin,
        } => Item::Opening {
            kind,
            generated,
            head: id_anew(ids, head),
            marks: id_anew(ids, marks),
            pre: id_anew(ids, pre),
            origin,
        },
        Item::Closing { kind, pre } => Item::Closing {
            kind,
            pre: id_anew(ids, pre),
        },
    }
}

fn items_anew(alloc: Global, ids: &[ValueId], list: &Linear) -> Result<Items, Memory>
    ensures { IfOk result (λ items. items ≡ map (model.item_anew ids.now) list.now.items) }
{
    let mut items = Items::new(alloc);
    for at in 0..list.len() {
        items.push(item_anew(ids, list.get(at)))?;
    }
    Ok(items)
}

/// The numbers that cite the values in turn, in a store or in what follows it, which takes those
/// that are new.
fn values_anew(
    alloc: Global,
    values: &Store,
    store: &Store,
    new: &mut NewValues,
) -> Result<Vec<ValueId>, Memory>
    requires follows { new.old.after ≡ length store.now }
    ensures stand { IfOk result (λ ids.
        model.StandThere values.now (together store.now new.new) ids.items) }
    ensures filled { OnOk result (
        together store.now new.new ≡ fill (together store.now new.old) values.now) }
    ensures grows { Grows new.old new.new }
{
    let mut ids = Vec::new(alloc);
    for at in 0..values.len() {
        let value = values.get(ValueId(at)).copy(alloc)?;
        let id = new.id_of(store, value)?;
        ids.push(id)?;
    }
    Ok(ids)
}

/// The items of a list over its values, made to cite a store and the values that follow it. New
/// values are taken there, in their order.
pub fn cited_anew(
    alloc: Global,
    list: &Linear,
    values: &Store,
    store: &Store,
    new: &mut NewValues,
) -> Result<Items, Memory>
    requires follows { new.old.after ≡ length store.now }
    requires cites { All (CitesWell values.now) list.now.items }
    ensures items { IfOk result (λ items.
        plain_list (together store.now new.new) items ≡ plain_list values.now list.now.items) }
    ensures cites { IfOk result (All (CitesWell (together store.now new.new))) }
    ensures filled { OnOk result (
        together store.now new.new ≡ fill (together store.now new.old) values.now) }
    ensures grows { Grows new.old new.new }
{
    let ids = values_anew(alloc, values, store, new)?;
    items_anew(alloc, &ids, list)
}
