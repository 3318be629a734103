// The attributes of an element: names with values, each name once.
ghost use Rattle.std.specs.Prelude.{◌≡◌, ◌↔◌, ◌++◌, ◌∷◌, [], Contains, IfOk, OnOk, OnErr, IsTrue};
ghost use Rattle.std.specs.Str.{chars};
ghost use Rattle.std.specs.Arc.{arc_value};
ghost use Rattle.ve_base.specs.Digest.{digest_of};
ghost use Rattle.ve_base.specs.Held.{held_list};
ghost use Rattle.ve_base.specs.Names.{names, NamesApart};

use crate::digested::{Digested, digest};
use crate::{ListOf, Memory, Same, Text, TryCopy};
use std::alloc::Global;
use std::marker::Model;
use std::sync::Arc;

/// A list whose texts have fewer bytes is copied, and any other one is shared.
const SHARED_FROM: usize = 128;

/// One attribute.
#[derive(Drop)]
pub struct Attr {
    pub name: Text,
    pub value: Text,
}

/// A list of its own, or one that others may hold, too.
#[derive(Drop)]
enum Held {
    Own(Vec<Attr>),
    Shared(Arc<Digested>),
}

/// A list of attributes whose names are distinct, in the order of the source. A long one may be
/// shared: a copy of it then takes no memory.
pub struct Attrs {
    held: Held,
}

impl Drop for Attrs {
    fn drop(self) {
        let Attrs { held } = self;
        drop(held);
    }
}

impl Model for Attrs {
    ghost use Rattle.std.specs.Prelude.{List};
    ghost use Rattle.ve_base.specs.declared.attrs.Attr.{Attr};
    ghost use Rattle.ve_base.specs.Names.{NamesApart};
    ghost use Rattle.ve_base.specs.Held.{held_list};

    ghost Value = { List Attr };

    ghost view = { λ a. held_list a.held };

    ghost invariant = { λ a. NamesApart (held_list a.held) };
}

impl TryCopy for Attr {
    fn copy(&self, alloc: Global) -> Result<Attr, Memory> {
        Ok(Attr {
            name: self.name.copy(alloc)?,
            value: self.value.copy(alloc)?,
        })
    }
}

impl Same for Attr {
    fn same(&self, other: &Attr) -> bool {
        self.name.same(&other.name) && self.value.same(&other.value)
    }
}

/// Whether two lists are equal.
fn are_same(attrs: &[Attr], others: &[Attr]) -> bool
    ensures { IsTrue result ↔ (attrs.now ≡ others.now) }
{
    if attrs.len() != others.len() {
        return false;
    }
    for i in 0..attrs.len() {
        if !attrs[i].same(&others[i]) {
            return false;
        }
    }
    true
}

/// Copies of these attributes.
fn copies(alloc: Global, attrs: &[Attr]) -> Result<Vec<Attr>, Memory>
    ensures { IfOk result (λ copies. copies.items ≡ attrs.now) }
{
    let list = ListOf::copy_of(alloc, attrs)?;
    Ok(list.into_vec())
}

/// A list of its own of the attributes that are shared.
fn copied(shared: &Digested) -> Result<Vec<Attr>, Memory>
    ensures { IfOk result (λ list. list.items ≡ shared.now) }
{
    copies(shared.alloc(), shared.as_slice())
}

/// How many bytes their names and values have.
fn size_of(attrs: &[Attr]) -> usize {
    let mut size: usize = 0;
    for attr in attrs {
        size = size.saturating_add(attr.name.as_str().len());
        size = size.saturating_add(attr.value.as_str().len());
    }
    size
}

/// A long list becomes one that is shared, where there is memory for its count of holders.
fn held_of(alloc: Global, list: Vec<Attr>) -> Held
    ensures { held_list result ≡ list.items }
{
    if size_of(list.as_slice()) < SHARED_FROM {
        return Held::Own(list);
    }
    match Arc::new(alloc, Digested::new(list)) {
        Ok(shared) => Held::Shared(shared),
        Err(failed) => Held::Own(failed.value.into_vec()),
    }
}

/// The list itself, where no other holds it; else a copy.
fn taken_out(alloc: Global, shared: Arc<Digested>) -> Result<Vec<Attr>, Memory>
    ensures { IfOk result (λ list. list.items ≡ arc_value shared) }
{
    match Arc::try_unwrap(shared) {
        Ok(alone) => Ok(alone.into_vec()),
        Err(shared) => copies(alloc, shared.as_slice()),
    }
}

impl Attrs {
    /// No attributes. It takes no memory.
    pub fn new(alloc: Global) -> Attrs
        ensures { result ≡ [] }
    {
        Attrs {
            held: Held::Own(Vec::new(alloc)),
        }
    }

    /// Appends an attribute of a new name. A shared list is copied first. An `Err` changes nothing.
    pub fn push(&mut self, attr: Attr) -> Result<(), Memory>
        requires { ¬ Contains (names self.old) attr.name }
        ensures ok { OnOk result (self.new ≡ self.old ++ attr ∷ []) }
        ensures err { OnErr result (self.new ≡ self.old) }
    {
        match &mut self.held {
            Held::Own(list) => list.push(attr)?,
            Held::Shared(shared) => {
                let mut list = copied(shared)?;
                list.push(attr)?;
                self.held = Held::Own(list);
            }
        }
        Ok(())
    }

    /// The attributes of a list whose names are distinct. It takes no memory, and copies don't share
    /// it.
    pub fn from_vec(list: Vec<Attr>) -> Attrs
        requires { NamesApart list.items }
        ensures { result ≡ list.items }
    {
        Attrs {
            held: Held::Own(list),
        }
    }

    /// The same attributes, so that copies of a long list share it from now on.
    pub fn shared(self, alloc: Global) -> Attrs
        ensures { result ≡ self }
    {
        let Attrs { held } = self;
        match held {
            Held::Own(list) => Attrs {
                held: held_of(alloc, list),
            },
            Held::Shared(shared) => Attrs {
                held: Held::Shared(shared),
            },
        }
    }

    /// Hands the attributes over. They are copied where a copy of the list shares it.
    pub fn into_vec(self, alloc: Global) -> Result<Vec<Attr>, Memory>
        ensures items { IfOk result (λ list. list.items ≡ self) }
        ensures apart { NamesApart self }
    {
        let Attrs { held } = self;
        match held {
            Held::Own(list) => Ok(list),
            Held::Shared(shared) => taken_out(alloc, shared),
        }
    }

    /// Lends them in order.
    pub fn as_slice(&self) -> &[Attr]
        ensures items { result.now ≡ self.now }
        ensures apart { NamesApart self.now }
    {
        match &self.held {
            Held::Own(list) => list.as_slice(),
            Held::Shared(shared) => shared.as_slice(),
        }
    }

    /// Their digest, which a shared list keeps.
    pub fn digest(&self) -> u64
        ensures { result ≡ digest_of self.now }
    {
        match &self.held {
            Held::Own(list) => digest(list.as_slice()),
            Held::Shared(shared) => shared.digest(),
        }
    }

    /// Whether there are none.
    pub fn is_empty(&self) -> bool
        ensures { IsTrue result ↔ (self.now ≡ []) }
    {
        self.as_slice().is_empty()
    }

    /// Whether one of them has the name: the test for `push`.
    pub fn has_name(&self, name: &str) -> bool
        ensures { IsTrue result ↔ Contains (names self.now) (chars name.now) }
    {
        for attr in self.as_slice() {
            if attr.name.is(name) {
                return true;
            }
        }
        false
    }
}

impl TryCopy for Attrs {
    fn copy(&self, alloc: Global) -> Result<Attrs, Memory> {
        let held = match &self.held {
            Held::Own(list) => Held::Own(copies(alloc, list.as_slice())?),
            Held::Shared(shared) => Held::Shared(Arc::try_clone(shared)?),
        };
        Ok(Attrs { held })
    }
}

impl Same for Attrs {
    fn same(&self, other: &Attrs) -> bool {
        if let (Held::Shared(shared), Held::Shared(others)) = (&self.held, &other.held) {
            if shared.digest() != others.digest() {
                return false;
            }
        }
        are_same(self.as_slice(), other.as_slice())
    }
}
