// The value that an attribute of an item has.
ghost use Rattle.std.specs.Prelude.{◌≡◌, ◌∷◌, [], IfOk};
ghost use Rattle.model_items.specs.Plain.{plain, CitesWell};
ghost use Rattle.model_change.specs.Attributes as attributes;
ghost use Rattle.model_edit.specs.Edits.{present_value};

use std::alloc::Global;
use ve_base::{Attr, Memory, Text, TryCopy};
use ve_items::Item;
use ve_store::Store;
use ve_tx::{attrs_of, same_text};

/// The value of the attribute of this name.
fn value_of(alloc: Global, attrs: &[Attr], name: &Text) -> Result<Option<Text>, Memory>
    ensures { IfOk result (λ value. value ≡ attributes.value_of name.now attrs.now) }
{
    for attr in attrs {
        if same_text(&attr.name, name) {
            let value = attr.value.copy(alloc)?;
            return Ok(Some(value));
        }
    }
    Ok(None)
}

/// A copy of the value that the attribute of this name has in an item; `None` where the item has no
/// such attribute.
pub fn present_value(
    alloc: Global,
    store: &Store,
    item: Item,
    name: &Text,
) -> Result<Option<Text>, Memory>
    requires { CitesWell store.now item }
    ensures { IfOk result (λ value. value ≡ present_value name.now (plain store.now item ∷ [])) }
{
    match item {
        Item::Char { .. } => Ok(None),
        Item::Closing { .. } => Ok(None),
        Item::Opening { head, .. } => {
            let value = value_of(alloc, attrs_of(store, head), name)?;
            Ok(value)
        }
    }
}
