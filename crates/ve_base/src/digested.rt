// A list of attributes beside its digest, which is taken once for all who share the list.
ghost use Rattle.std.specs.Prelude.{◌≡◌, fold};
ghost use Rattle.std.specs.Hash.DefaultHasher as sip;
ghost use Rattle.ve_base.specs.Digest.{attrs_input, digest_of};

use crate::Attr;
use std::alloc::Global;
use std::hash::{DefaultHasher, Hasher};
use std::marker::Model;

/// A list of attributes with its digest.
pub(crate) struct Digested {
    list: Vec<Attr>,
    digest: u64,
}

impl Drop for Digested {
    fn drop(self) {
        let Digested { list, digest: _ } = self;
        drop(list);
    }
}

impl Model for Digested {
    ghost use Rattle.std.specs.Prelude.{◌≡◌, List};
    ghost use Rattle.ve_base.specs.declared.attrs.Attr.{Attr};
    ghost use Rattle.ve_base.specs.Digest.{digest_of};

    ghost Value = { List Attr };

    ghost view = { λ d. d.list.items };

    ghost invariant = { λ d. d.digest ≡ digest_of d.list.items };
}

/// Writes attributes to a hasher, in order.
fn feed(attrs: &[Attr], state: &mut DefaultHasher)
    ensures { state.new ≡ fold sip.write state.old (attrs_input attrs.now) }
{
    for attr in attrs {
        attr.name.feed(state);
        attr.value.feed(state);
    }
}

/// The digest of attributes.
pub(crate) fn digest(attrs: &[Attr]) -> u64
    ensures { result ≡ digest_of attrs.now }
{
    let mut state = DefaultHasher::new();
    feed(attrs, &mut state);
    state.finish()
}

impl Digested {
    /// A list, of which the digest is taken.
    pub(crate) fn new(list: Vec<Attr>) -> Digested
        ensures { result ≡ list.items }
    {
        let digest = digest(list.as_slice());
        Digested { list, digest }
    }

    /// The digest that was taken.
    pub(crate) fn digest(&self) -> u64
        ensures { result ≡ digest_of self.now }
    {
        self.digest
    }

    /// What the list is allocated by.
    pub(crate) fn alloc(&self) -> Global {
        *self.list.allocator()
    }

    /// Lends the attributes in order.
    pub(crate) fn as_slice(&self) -> &[Attr]
        ensures { result.now ≡ self.now }
    {
        self.list.as_slice()
    }

    /// Hands the attributes over.
    pub(crate) fn into_vec(self) -> Vec<Attr>
        ensures { result.items ≡ self }
    {
        let Digested { list, digest: _ } = self;
        list
    }
}
