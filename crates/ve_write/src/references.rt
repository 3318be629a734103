// The table of references, without a walk over the list where no value can make an item one.
ghost use Rattle.std.specs.Prelude.{◌≡◌, All, IfOk};
ghost use Rattle.std.specs.List.{list_any};
ghost use Rattle.model_items.specs.Plain.{CitesWell, plain_list};
ghost use Rattle.model_page.specs.References.{table};
ghost use Rattle.ve_write.specs.Referring.{may_refer};

use model_page::RefTable;
use std::alloc::Global;
use ve_base::{Memory, Value, ValueId};
use ve_internal::table;
use ve_items::Linear;
use ve_store::Store;

/// Whether an item that cites the value may be a reference.
fn may_refer(value: &Value) -> bool
    ensures { result ≡ may_refer value.now }
{
    match value {
        Value::Head(head) => head.reference.is_some(),
        Value::White(_) => false,
        Value::Marks(_) => false,
    }
}

/// Whether some value may make an item a reference. It stops at the first one.
fn some_may_refer(store: &Store) -> bool
    ensures { result ≡ list_any may_refer store.now }
{
    for at in 0..store.len() {
        if may_refer(store.get(ValueId(at))) {
            return true;
        }
    }
    false
}

/// The table of the references of a list, as ve_internal makes it. The list isn't read where no
/// value may make an item a reference.
pub fn references(alloc: Global, list: &Linear, store: &Store) -> Result<RefTable, Memory>
    requires { All (CitesWell store.now) list.now.items }
    ensures { IfOk result (λ rows. rows ≡ table (plain_list store.now list.now.items)) }
{
    if some_may_refer(store) {
        return table(alloc, list, store);
    }
    Ok(RefTable::new(alloc))
}
