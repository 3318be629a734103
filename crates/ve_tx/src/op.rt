// The operations of which a transaction is made.
use std::alloc::Global;
use ve_base::{ListOf, Memory, Text, TryCopy};
use ve_items::Items;

/// An operation of a transaction. A cursor goes along the old list. After VisualEditor's
/// `ve.dm.Transaction`.
#[derive(Drop)]
pub enum Op {
    /// Passes so many items.
    Retain(usize),
    /// Passes the items removed, and puts those inserted in their place.
    Replace {
        removed: Items,
        inserted: Items,
    },
    /// Changes an attribute of the item at the cursor, and moves nothing. `from` is the value
    /// before and `to` the value after, `None` where the attribute is absent.
    Attribute {
        name: Text,
        from: Option<Text>,
        to: Option<Text>,
    },
}

/// A list of operations.
pub type OpList = ListOf<Op>;

impl TryCopy for Op {
    fn copy(&self, alloc: Global) -> Result<Op, Memory> {
        match self {
            Op::Retain(count) => Ok(Op::Retain(*count)),
            Op::Replace { removed, inserted } => Ok(Op::Replace {
                removed: removed.copy(alloc)?,
                inserted: inserted.copy(alloc)?,
            }),
            Op::Attribute { name, from, to } => Ok(Op::Attribute {
                name: name.copy(alloc)?,
                from: from.copy(alloc)?,
                to: to.copy(alloc)?,
            }),
        }
    }
}
