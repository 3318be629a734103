// A plain list of items, as it is borrowed by a splice or copied out of a page.
ghost use Rattle.std.specs.Prelude.{◌≡◌, ◌++◌, [], ◌∷◌, IfOk, OnOk, OnErr};

use model_items::Item;
use std::alloc::Global;
use std::marker::Model;
use ve_base::Memory;

/// A list of items, seen as the list of its members.
pub struct Items {
    list: Vec<Item>,
}

impl Drop for Items {
    fn drop(self) {
        let Items { list } = self;
        drop(list);
    }
}

impl Model for Items {
    ghost use Rattle.std.specs.Prelude.{List};
    ghost use Rattle.model_items.specs.declared.item.Item.{Item};

    ghost Value = { List Item };

    ghost view = { λ i. i.list.items };
}

impl Items {
    /// The empty list. It takes no memory.
    pub fn new(alloc: Global) -> Items
        ensures { result ≡ [] }
    {
        Items {
            list: Vec::new(alloc),
        }
    }

    /// Appends an item. An `Err` changes nothing.
    pub fn push(&mut self, item: Item) -> Result<(), Memory>
        ensures ok { OnOk result (self.new ≡ self.old ++ item ∷ []) }
        ensures err { OnErr result (self.new ≡ self.old) }
    {
        self.list.push(item)?;
        Ok(())
    }

    /// Appends a piece. An `Err` changes nothing.
    pub fn extend(&mut self, piece: &[Item]) -> Result<(), Memory>
        ensures ok { OnOk result (self.new ≡ self.old ++ piece.now) }
        ensures err { OnErr result (self.new ≡ self.old) }
    {
        self.list.extend_from_slice(piece)?;
        Ok(())
    }

    /// Lends the items in order.
    pub fn as_slice(&self) -> &[Item]
        ensures { result.now ≡ self.now }
    {
        self.list.as_slice()
    }

    /// An equal list.
    pub fn copy(&self, alloc: Global) -> Result<Items, Memory>
        ensures { IfOk result (λ copy. copy ≡ self.now) }
    {
        Ok(Items {
            list: Vec::from_slice(alloc, self.list.as_slice())?,
        })
    }
}
