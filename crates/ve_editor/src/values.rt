// The values of a draft, put into the store that they follow.
ghost use Rattle.std.specs.Prelude.{◌≡◌, IfOk, OnOk, length};
ghost use Rattle.model_change.specs.Store.{fill};
ghost use Rattle.ve_tx.specs.Making.{Extends};

use std::alloc::Global;
use ve_base::{Memory, TryCopy, Value, ValueId};
use ve_store::{NewValues, Store};
use ve_tx::ValueList;

/// Copies of values that follow a store. They are copied before the store takes the first one,
/// since they are read beside it.
fn copied(alloc: Global, store: &Store, new: &NewValues) -> Result<ValueList, Memory>
    requires { new.now.after ≡ length store.now }
    ensures { IfOk result (λ values. values ≡ new.now.values) }
{
    let before = store.len();
    let mut values = ValueList::new(alloc);
    for place in 0..new.len() {
        let Some(id) = before.checked_add(place) else {
            return Err(Memory);
        };
        values.push(new.get(store, ValueId(id)).copy(alloc)?)?;
    }
    Ok(values)
}

/// Puts values into a store, where they are new. An `Err` may leave some of them.
fn admit_all(store: &mut Store, values: Vec<Value>) -> Result<(), Memory>
    ensures ok { OnOk result (store.new ≡ fill store.old values.items) }
    ensures extends { Extends store.old store.new }
{
    for value in values {
        store.admit(value)?;
    }
    Ok(())
}

/// Puts the values that follow a store into it. An `Err` may leave some of them.
pub fn take_in(alloc: Global, store: &mut Store, new: &NewValues) -> Result<(), Memory>
    requires { new.now.after ≡ length store.old }
    ensures ok { OnOk result (store.new ≡ fill store.old new.now.values) }
    ensures extends { Extends store.old store.new }
{
    let values = copied(alloc, store, new)?;
    admit_all(store, values.into_vec())
}
