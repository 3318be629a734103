// A block of a list, of that list alone or of its copies too.
ghost use Rattle.std.specs.Arc.{arc_value};
ghost use Rattle.std.specs.Prelude.{◌≡◌, ◌≤◌, ◌+◌, ◌-◌, ◌++◌, [], None, IfOk, IfSome, length, take, drop};
ghost use Rattle.ve_base.specs.Limits.{max_block};
ghost use Rattle.ve_items.specs.SharedPlaces.{items_of};
ghost use Rattle.ve_items.specs.Substitution.{spliced};

use crate::places::Places;
use model_items::Item;
use std::alloc::Global;
use std::marker::Model;
use std::sync::Arc;
use ve_base::Memory;

/// A block, seen as the list of its items. It has memory for `MAX_BLOCK` of them from the start.
///
/// A list and its copies have their blocks in common. Whoever writes first copies the block, into
/// memory that was taken when it was shared: so a write never fails.
pub struct Block {
    own: Places,
    // the items, where other lists may have them too; its own places wait for the first write then
    shared: Option<Arc<Places>>,
}

// This is written out, so that no proof of a caller looks into a block that it lets go.
impl Drop for Block {
    fn drop(self) {
        let Block { own, shared } = self;
        drop(own);
        drop(shared);
    }
}

impl Model for Block {
    ghost use Rattle.std.specs.Arc.{arc_value};
    ghost use Rattle.std.specs.Prelude.{List, ◌≤◌, length, IfSome};
    ghost use Rattle.ve_base.specs.Limits.{max_block};
    ghost use Rattle.model_items.specs.declared.item.Item.{Item};
    ghost use Rattle.ve_items.specs.SharedPlaces.{items_of};

    ghost Value = { List Item };

    ghost view = { λ b. items_of b.shared b.own };

    ghost invariant = { λ b. IfSome b.shared (λ places. length (arc_value places) ≤ max_block) };
}

/// Copies shared items into a block's own places, unless nobody else has them any more.
fn part(own: &mut Places, shared: &mut Option<Arc<Places>>)
    requires { IfSome shared.old (λ places. length (arc_value places) ≤ max_block) }
    ensures items { own.new ≡ items_of shared.old own.old }
    ensures none { shared.new ≡ None }
{
    let Some(places) = shared.take() else {
        return;
    };
    match Arc::try_unwrap(places) {
        Ok(places) => *own = places,
        Err(places) => {
            own.clear();
            own.append(places.as_slice());
        }
    }
}

/// Has the items stand where others may have them too, if they don't yet. The block's own places
/// are empty ones then. An `Err` changes nothing.
fn lay_open(
    alloc: Global,
    own: &mut Places,
    shared: &mut Option<Arc<Places>>,
) -> Result<Arc<Places>, Memory>
    ensures items { items_of shared.new own.new ≡ items_of shared.old own.old }
    ensures open { IfOk result (λ places. arc_value places ≡ items_of shared.old own.old) }
{
    if let Some(places) = &*shared {
        return Ok(places.clone()?);
    }
    let full = std::mem::replace(own, Places::new(alloc)?);
    match Arc::new(alloc, full) {
        Ok(places) => {
            let twin: Result<_, _> = places.clone();
            *shared = Some(places);
            Ok(twin?)
        }
        Err(failed) => {
            *own = failed.value;
            Err(Memory)
        }
    }
}

impl Block {
    /// An empty block with its memory.
    pub fn new(alloc: Global) -> Result<Block, Memory>
        ensures { IfOk result (λ block. block ≡ []) }
    {
        Ok(Block {
            own: Places::new(alloc)?,
            shared: None,
        })
    }

    /// A block with the same items, which both have in common until one of them is written.
    pub fn share(&mut self, alloc: Global) -> Result<Block, Memory>
        requires { length self.old ≤ max_block }
        ensures kept { self.new ≡ self.old }
        ensures items { IfOk result (λ block. block ≡ self.old) }
    {
        let own = Places::new(alloc)?;
        let shared = lay_open(alloc, &mut self.own, &mut self.shared)?;
        Ok(Block {
            own,
            shared: Some(shared),
        })
    }

    pub fn len(&self) -> usize
        ensures { result ≡ length self.now }
    {
        self.as_slice().len()
    }

    pub fn as_slice(&self) -> &[Item]
        ensures { result.now ≡ self.now }
    {
        match &self.shared {
            Some(places) => places.as_slice(),
            None => self.own.as_slice(),
        }
    }

    /// Takes all items out, and leaves free places before what is appended next.
    pub fn clear(&mut self)
        ensures { self.new ≡ [] }
    {
        self.shared = None;
        self.own.clear();
    }

    /// Appends what fits. It takes no memory.
    pub fn append(&mut self, more: &[Item])
        requires { length self.old + length more.now ≤ max_block }
        ensures { self.new ≡ self.old ++ more.now }
    {
        part(&mut self.own, &mut self.shared);
        self.own.append(more);
    }

    /// Keeps the first items.
    pub fn truncate(&mut self, len: usize)
        ensures { self.new ≡ take len self.old }
    {
        part(&mut self.own, &mut self.shared);
        self.own.truncate(len);
    }

    /// Takes so many items out from a position on.
    pub fn cut_out(&mut self, at: usize, many: usize)
        requires { at + many ≤ length self.old }
        ensures { self.new ≡ take at self.old ++ drop (at + many) self.old }
    {
        part(&mut self.own, &mut self.shared);
        self.own.cut_out(at, many);
    }

    /// Puts items in the place of the `removed` ones from `at` on. It takes no memory.
    pub fn splice(&mut self, at: usize, removed: usize, items: &[Item])
        requires within { at + removed ≤ length self.old }
        requires fits { length self.old - removed + length items.now ≤ max_block }
        ensures { self.new ≡ spliced self.old at removed items.now }
    {
        part(&mut self.own, &mut self.shared);
        self.own.splice(at, removed, items);
    }
}
