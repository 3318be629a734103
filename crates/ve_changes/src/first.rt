// The openings of the page as it was first read, by their origins.
ghost use Rattle.std.specs.Prelude.{◌≡◌, ◌<◌, length, option_map, IfOk, IfSome};
ghost use Rattle.model_items.specs.Plain.{head_in, value_at, CitesHead};
ghost use Rattle.model_world.specs.Completed as model;
ghost use Rattle.ve_changes.specs.Completions.{first_items, FindsFirst};

use std::alloc::Global;
use ve_base::{Head, Memory, TryCopy, Value, ValueId};
use ve_items::{Item, Linear};
use ve_kinds::Kind;
use ve_origin::OriginTable;
use ve_store::Store;

/// The page as it was first read: its list, a row for each origin, and a store that has the values
/// of the list. Each call that takes it asks that the rows find the openings.
#[derive(Clone, Copy)]
pub struct FirstItems<'a> {
    pub list: &'a Linear,
    pub rows: &'a OriginTable,
    pub store: &'a Store,
}

/// The kind of the opening that was read for an origin, and the position of its head.
pub(crate) fn opening_for(first: FirstItems<'_>, origin: u32) -> Option<(Kind, Option<ValueId>)>
    requires first { FindsFirst first.store.now first.list.now.items first.rows.now }
    ensures found { option_map (λ o. (o.0, head_in (value_at first.entry.store.now o.1))) result
        ≡ model.read_for origin (first_items first.entry) }
    ensures cites { IfSome result (λ o. CitesHead first.entry.store.now o.1) }
{
    let row = first.rows.as_slice().get(origin as usize)?;
    match first.list.get(row.from) {
        Item::Opening { kind, head, .. } => Some((kind, head)),
        Item::Char { .. } | Item::Closing { .. } => None,
    }
}

/// The head at a position, by value.
pub(crate) fn head_at(alloc: Global, store: &Store, id: Option<ValueId>) -> Result<Head, Memory>
    requires cites { CitesHead store.now id }
    ensures { IfOk result (λ head. head ≡ head_in (value_at store.now id)) }
{
    let Some(id) = id else {
        return Ok(Head::empty(alloc));
    };
    match store.get(id) {
        Value::Head(head) => head.copy(alloc),
        Value::White(_) | Value::Marks(_) => Ok(Head::empty(alloc)),
    }
}
