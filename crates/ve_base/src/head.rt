// The head of an opening, beside its kind: attributes, kept source, and the names of a reference.
ghost use Rattle.std.specs.Prelude.{◌≡◌, ◌↔◌, IsTrue};

use crate::{Attrs, Memory, Same, Text, TryCopy};
use std::alloc::Global;

/// The name of a reference within its group: given in the page, or a number that the reader chose.
#[derive(Drop)]
pub enum Key {
    Named(Text),
    Auto(u32),
}

/// Which reference body is meant.
#[derive(Drop)]
pub struct RefKey {
    pub group: Text,
    pub key: Key,
}

/// `tag` is used by references alone. `raw` is used by aliens and generated leaves (whole source)
/// and by references (inner source). `reference` is used by references and internal items, and
/// `attrs` by element kinds and references. `owner` is true exactly on a reference that carries its
/// body.
#[derive(Drop)]
pub struct Head {
    pub tag: Text,
    pub attrs: Attrs,
    pub raw: Text,
    pub reference: Option<RefKey>,
    pub owner: bool,
}

impl TryCopy for Key {
    fn copy(&self, alloc: Global) -> Result<Key, Memory> {
        match self {
            Key::Named(name) => Ok(Key::Named(name.copy(alloc)?)),
            Key::Auto(number) => Ok(Key::Auto(*number)),
        }
    }
}

impl Same for Key {
    fn same(&self, other: &Key) -> bool {
        match (self, other) {
            (Key::Named(name), Key::Named(other)) => name.same(other),
            (Key::Auto(number), Key::Auto(other)) => *number == *other,
            (Key::Named(_), Key::Auto(_)) | (Key::Auto(_), Key::Named(_)) => false,
        }
    }
}

impl TryCopy for RefKey {
    fn copy(&self, alloc: Global) -> Result<RefKey, Memory> {
        Ok(RefKey {
            group: self.group.copy(alloc)?,
            key: self.key.copy(alloc)?,
        })
    }
}

impl Same for RefKey {
    fn same(&self, other: &RefKey) -> bool {
        self.group.same(&other.group) && self.key.same(&other.key)
    }
}

impl Head {
    ghost use Rattle.ve_base.specs.Empty.{empty_head};

    /// The head that says nothing. It takes no memory.
    pub fn empty(alloc: Global) -> Head
        ensures { result ≡ empty_head }
    {
        Head {
            tag: Text::new(alloc),
            attrs: Attrs::new(alloc),
            raw: Text::new(alloc),
            reference: None,
            owner: false,
        }
    }

    /// Whether it says nothing, so that an item cites no value for it.
    pub fn is_empty(&self) -> bool
        ensures { IsTrue result ↔ (self.now ≡ empty_head) }
    {
        self.tag.is_empty()
            && self.attrs.is_empty()
            && self.raw.is_empty()
            && self.reference.is_none()
            && !self.owner
    }
}

impl TryCopy for Head {
    fn copy(&self, alloc: Global) -> Result<Head, Memory> {
        Ok(Head {
            tag: self.tag.copy(alloc)?,
            attrs: self.attrs.copy(alloc)?,
            raw: self.raw.copy(alloc)?,
            reference: self.reference.copy(alloc)?,
            owner: self.owner,
        })
    }
}

impl Same for Head {
    fn same(&self, other: &Head) -> bool {
        self.tag.same(&other.tag)
            && self.attrs.same(&other.attrs)
            && self.raw.same(&other.raw)
            && self.reference.same(&other.reference)
            && self.owner == other.owner
    }
}
