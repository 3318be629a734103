// Places for a block: a short run of items in memory that was taken beforehand.
ghost use Rattle.std.specs.Prelude.{◌≡◌, ◌≤◌, ◌<◌, ◌+◌, ◌-◌, ◌++◌, [], IfOk, length, take, drop, vec_capacity};
ghost use Rattle.ve_base.specs.Limits.{max_block};
ghost use Rattle.ve_items.specs.Substitution.{spliced};

use model_items::Item;
use std::alloc::Global;
use std::marker::Model;
use ve_base::{MAX_BLOCK, Memory};

/// Memory for `MAX_BLOCK` items, seen as the list of those in it. They stand in one piece with free
/// places on both sides, so that a change moves the shorter part.
pub struct Places {
    // free places, whatever stands in them, and then the items
    places: Vec<Item>,
    // how many free places stand before the items
    first: usize,
}

// This is written out, so that no proof of a caller looks into places that it lets go.
impl Drop for Places {
    fn drop(self) {
        let Places { places, first: _ } = self;
        drop(places);
    }
}

impl Model for Places {
    ghost use Rattle.std.specs.Prelude.{List, ◌≤◌, length, drop, vec_capacity};
    ghost use Rattle.ve_base.specs.Limits.{max_block};
    ghost use Rattle.model_items.specs.declared.item.Item.{Item};

    ghost Value = { List Item };

    ghost view = { λ b. drop b.first b.places.items };

    ghost invariant = { λ b. (max_block ≤ vec_capacity b.places)
        × (b.first ≤ length b.places.items) };
}

/// How many places stay free before the items that empty ones get.
const FREE_BEFORE: usize = 32;

/// What stands in a free place.
const NO_ITEM: Item = Item::Char {
    ch: ' ',
    marks: None,
};

/// Puts items in at the end of some places, of which as many leave at the front.
fn put_at_end(places: &mut [Item], items: &[Item])
    requires { length items.now ≤ length places.old }
    ensures { places.new ≡ drop (length items.now) places.old ++ items.now }
{
    let end = places.len() - items.len();
    places.rotate_left(items.len());
    places[end..].copy_from_slice(items);
}

/// Says from where on the items stand once there is room for so many more after them. They are
/// moved to the front only where the places after them don't suffice.
fn make_room(places: &mut Vec<Item>, first: usize, more: usize) -> usize
    requires first { first ≤ length places.old.items }
    requires fits { length places.old.items - first + more ≤ max_block }
    ensures items { drop result places.new.items ≡ drop first places.old.items }
    ensures len { length places.new.items ≡ result + (length places.old.items - first) }
    ensures room { length places.new.items + more ≤ max_block }
    ensures capacity { vec_capacity places.new ≡ vec_capacity places.old }
{
    if places.len() <= MAX_BLOCK - more {
        return first;
    }
    let len = places.len() - first;
    places.rotate_left(first);
    places.truncate(len);
    0
}

/// Puts items in at a position of those from `first` on, and says from where on the items then
/// stand. New items are appended, and turned with the items after the position.
fn put_by_end(places: &mut Vec<Item>, first: usize, at: usize, items: &[Item]) -> usize
    requires within { first + at ≤ length places.old.items }
    requires fits { length places.old.items - first + length items.now ≤ max_block }
    requires capacity { max_block ≤ vec_capacity places.old }
    ensures items { drop result places.new.items
        ≡ take at (drop first places.old.items) ++ items.now
        ++ drop at (drop first places.old.items) }
    ensures first { result ≤ length places.new.items }
    ensures capacity { max_block ≤ vec_capacity places.new }
{
    let first = make_room(places, first, items.len());
    let appended = places.extend_from_slice(items).is_ok();
    prove!(appended);
    let from = first + at;
    places[from..].rotate_right(items.len());
    first
}

impl Places {
    /// No item, and the memory.
    pub fn new(alloc: Global) -> Result<Places, Memory>
        ensures { IfOk result (λ places. places ≡ []) }
    {
        Ok(Places {
            places: Vec::with_capacity(alloc, MAX_BLOCK)?,
            first: 0,
        })
    }

    pub fn len(&self) -> usize
        ensures { result ≡ length self.now }
    {
        self.places.len() - self.first
    }

    pub fn as_slice(&self) -> &[Item]
        ensures { result.now ≡ self.now }
    {
        &self.places[self.first..]
    }

    /// Takes all items out, and leaves free places before what is appended next.
    pub fn clear(&mut self)
        ensures { self.new ≡ [] }
    {
        self.places.clear();
        let extended = self
            .places
            .extend_from_slice(&[NO_ITEM; FREE_BEFORE])
            .is_ok();
        prove!(extended);
        self.first = self.places.len();
    }

    /// Appends what fits. It takes no memory.
    pub fn append(&mut self, more: &[Item])
        requires { length self.old + length more.now ≤ max_block }
        ensures { self.new ≡ self.old ++ more.now }
    {
        let first = make_room(&mut self.places, self.first, more.len());
        let appended = self.places.extend_from_slice(more).is_ok();
        prove!(appended);
        self.first = first;
    }

    /// Keeps the first items.
    pub fn truncate(&mut self, len: usize)
        ensures { self.new ≡ take len self.old }
    {
        if len < self.len() {
            self.places.truncate(self.first + len);
        }
    }

    /// Takes so many items out from a position on. Of the items before them and those after them,
    /// the fewer move.
    pub fn cut_out(&mut self, at: usize, many: usize)
        requires { at + many ≤ length self.old }
        ensures { self.new ≡ take at self.old ++ drop (at + many) self.old }
    {
        let first = self.first;
        let from = first + at;
        if at < self.len() - at - many {
            self.places[first..from + many].rotate_right(many);
            self.first = first + many;
            return;
        }
        let len = self.places.len() - many;
        self.places[from..].rotate_left(many);
        self.places.truncate(len);
    }

    /// Puts items in from a position on. It takes no memory. The items before the position move
    /// where they are the fewer and there is room before them, else those after it.
    fn put_in(&mut self, at: usize, items: &[Item])
        requires within { at ≤ length self.old }
        requires fits { length self.old + length items.now ≤ max_block }
        ensures { self.new ≡ take at self.old ++ items.now ++ drop at self.old }
    {
        let first = self.first;
        if items.len() <= first && at < self.len() - at {
            let from = first - items.len();
            put_at_end(&mut self.places[from..first + at], items);
            self.first = from;
            return;
        }
        self.first = put_by_end(&mut self.places, first, at, items);
    }

    /// Puts items in the place of the `removed` ones from `at` on. It takes no memory.
    pub fn splice(&mut self, at: usize, removed: usize, items: &[Item])
        requires within { at + removed ≤ length self.old }
        requires fits { length self.old - removed + length items.now ≤ max_block }
        ensures { self.new ≡ spliced self.old at removed items.now }
    {
        self.cut_out(at, removed);
        self.put_in(at, items);
    }
}
