// Items over values of their own.
ghost use Rattle.std.specs.Prelude.{◌≡◌, ◌++◌, ◌∷◌, ◌-◌, [], length, take, All, IfOk, OnOk, OnErr};
ghost use Rattle.std.specs.Str.{chars};
ghost use Rattle.model_items.specs.declared.plain_item.PlainItem.TheVariants as plain;
ghost use Rattle.model_items.specs.Plain.{plain_list, CitesWell};
ghost use Rattle.model_change.specs.Store.{cited, fill};
ghost use Rattle.ve_reader.specs.Drafted.{with_item, leaf_of, block_of};

use crate::Opening;
use crate::growing::GrowingList;
use crate::put::{put_block, put_char, put_closing, put_leaf};
use std::alloc::Global;
use std::marker::Model;
use ve_base::{Mark, Memory, ValueId};
use ve_items::Linear;
use ve_kinds::Kind;
use ve_store::Store;

/// Items that are put together, seen by value, with the marks around. The values that they cite are
/// taken as the items come: each once, in the order in which items cite them.
#[derive(Drop)]
pub struct ItemDraft {
    items: GrowingList,
    values: Store,
    marks: Vec<Mark>,
    // where the marks stand among the values, where it is known
    known: Option<ValueId>,
    alloc: Global,
}

impl Model for ItemDraft {
    ghost use Rattle.model_items.specs.Plain.{plain_list};
    ghost use Rattle.ve_reader.specs.Drafted.{Drafted};
    ghost use Rattle.ve_reader.specs.Holding.{Holds};

    ghost Value = { Drafted };

    ghost view = { λ d. record { items = plain_list d.values d.items; marks = d.marks.items } };

    ghost invariant = { λ d. Holds d.values d.items d.marks.items d.known };
}

impl ItemDraft {
    /// No items, and no marks around. It takes no memory.
    pub fn new(alloc: Global) -> ItemDraft
        ensures items { result.items ≡ [] }
        ensures marks { result.marks ≡ [] }
    {
        ItemDraft {
            items: GrowingList::new(alloc),
            values: Store::new(alloc),
            marks: Vec::new(alloc),
            known: None,
            alloc,
        }
    }

    /// How many items there are.
    pub fn len(&self) -> usize
        ensures { result ≡ length self.now.items }
    {
        self.items.len()
    }

    /// One mark more, inside the others. An `Err` changes nothing.
    pub fn enter(&mut self, mark: Mark) -> Result<(), Memory>
        ensures ok { OnOk result (
            self.new ≡ record { items = self.old.items; marks = self.old.marks ++ mark ∷ [] }) }
        ensures err { OnErr result (self.new ≡ self.old) }
    {
        self.marks.push(mark)?;
        self.known = None;
        Ok(())
    }

    /// Without the innermost mark, if there is one.
    pub fn leave(&mut self)
        ensures items { self.new.items ≡ self.old.items }
        ensures marks { self.new.marks ≡ take (length self.old.marks - 1) self.old.marks }
    {
        let _ = self.marks.pop();
        self.known = None;
    }

    /// A character, with the marks around. An `Err` changes nothing.
    pub fn push_char(&mut self, ch: char) -> Result<(), Memory>
        ensures ok { OnOk result (self.new ≡ with_item (plain.Char ch self.old.marks) self.old) }
        ensures err { OnErr result (self.new ≡ self.old) }
    {
        let count = self.values.len();
        match put_char(
            self.alloc,
            &mut self.items,
            &mut self.values,
            &self.marks,
            self.known,
            ch,
        ) {
            Ok(known) => {
                self.known = known;
                Ok(())
            }
            Err(Memory) => {
                self.values.truncate(count);
                Err(Memory)
            }
        }
    }

    /// The opening of an inline leaf, with the marks around. An `Err` changes nothing.
    pub fn open_leaf(&mut self, opening: Opening) -> Result<(), Memory>
        ensures ok { OnOk result (self.new ≡ with_item (leaf_of opening self.old.marks) self.old) }
        ensures err { OnErr result (self.new ≡ self.old) }
    {
        let count = self.values.len();
        match put_leaf(
            self.alloc,
            &mut self.items,
            &mut self.values,
            &self.marks,
            self.known,
            opening,
        ) {
            Ok(known) => {
                self.known = known;
                Ok(())
            }
            Err(Memory) => {
                self.values.truncate(count);
                Err(Memory)
            }
        }
    }

    /// The opening of a block, after whitespace. An `Err` changes nothing.
    pub fn open(&mut self, opening: Opening, white: &str) -> Result<(), Memory>
        ensures ok { OnOk result (
            self.new ≡ with_item (block_of opening (chars white.now)) self.old) }
        ensures err { OnErr result (self.new ≡ self.old) }
    {
        let count = self.values.len();
        match put_block(
            self.alloc,
            &mut self.items,
            &mut self.values,
            opening,
            white,
        ) {
            Ok(()) => Ok(()),
            Err(Memory) => {
                self.values.truncate(count);
                Err(Memory)
            }
        }
    }

    /// A closing, after whitespace. An `Err` changes nothing.
    pub fn close(&mut self, kind: Kind, white: &str) -> Result<(), Memory>
        ensures ok { OnOk result (
            self.new ≡ with_item (plain.Closing kind (chars white.now)) self.old) }
        ensures err { OnErr result (self.new ≡ self.old) }
    {
        let count = self.values.len();
        match put_closing(self.alloc, &mut self.items, &mut self.values, kind, white) {
            Ok(()) => Ok(()),
            Err(Memory) => {
                self.values.truncate(count);
                Err(Memory)
            }
        }
    }

    /// The items, and the values that they cite: each once, in the order in which the items cite
    /// them.
    pub fn into_parts(self) -> Result<(Linear, Store), Memory>
        ensures items { IfOk result (λ parts. plain_list parts.1 parts.0.items ≡ self.items) }
        ensures values { IfOk result (λ parts. parts.1 ≡ fill [] (cited self.items)) }
        ensures cites { IfOk result (λ parts. All (CitesWell parts.1) parts.0.items) }
    {
        let list = self.items.into_list()?;
        Ok((list, self.values))
    }
}
