// A head while attribute operations change it.
ghost use Rattle.std.specs.Prelude.{◌≡◌, false, None, IfOk, IsSome, OnOk};
ghost use Rattle.ve_base.specs.Names.{NamesApart};
ghost use Rattle.model_change.specs.Attributes as attributes;
ghost use Rattle.model_change.specs.Attributes.{value_of, position_of, attr_added, attr_replaced, attr_removed, attrs_changed};
ghost use Rattle.ve_tx.specs.Changing.{attrs_now};
ghost use Rattle.ve_tx.specs.Checked.{change_of};
ghost use Rattle.ve_tx.specs.Making.{IsHeadChanged};

use crate::attributes::{position, put_in, set_value, take_out};
use crate::many::ManyAttrs;
use std::alloc::Global;
use std::marker::Model;
use ve_base::{Attr, Attrs, Head, Memory, RefKey, Text, TryCopy};

/// So many changes are made in a list, however long it is.
const FEW_CHANGES: usize = 16;

/// In a list of no more attributes all changes are made.
const FEW_ATTRS: usize = 16;

/// Attributes while operations change them. The first changes are made in a list. If there are more
/// and the list is long, they go on in `ManyAttrs`, where none takes time by its length.
#[derive(Drop)]
enum ChangingAttrs {
    Few { list: Vec<Attr>, changes: usize },
    Many(ManyAttrs),
}

impl ChangingAttrs {
    /// The same, with one change more counted. After a few, a long list goes on in `ManyAttrs`.
    fn counted(self, alloc: Global) -> Result<ChangingAttrs, Memory>
        requires { NamesApart (attrs_now self) }
        ensures { IfOk result (λ counted. attrs_now counted ≡ attrs_now self) }
    {
        match self {
            ChangingAttrs::Few { list, changes } => {
                if changes < FEW_CHANGES {
                    let changes = changes + 1;
                    return Ok(ChangingAttrs::Few { list, changes });
                }
                if list.len() <= FEW_ATTRS {
                    return Ok(ChangingAttrs::Few { list, changes });
                }
                let many = ManyAttrs::of(alloc, list)?;
                Ok(ChangingAttrs::Many(many))
            }
            ChangingAttrs::Many(many) => Ok(ChangingAttrs::Many(many)),
        }
    }

    /// How many stand before the one of this name; all, where there is none.
    fn position(&self, name: &Text) -> usize
        ensures { result ≡ position_of name.now (attrs_now self.now) }
    {
        match self {
            ChangingAttrs::Few { list, .. } => position(list.as_slice(), name),
            ChangingAttrs::Many(many) => many.position(name),
        }
    }

    /// Gives the attribute of this name another value.
    fn set_value(&mut self, name: &Text, value: Text)
        requires { IsSome (value_of name.now (attrs_now self.old)) }
        ensures { attrs_now self.new ≡ attr_replaced name.now value (attrs_now self.old) }
    {
        match self {
            ChangingAttrs::Few { list, .. } => set_value(list, name, value),
            ChangingAttrs::Many(many) => many.set_value(name, value),
        }
    }

    /// Takes the attribute of this name out.
    fn take_out(&mut self, name: &Text)
        requires { IsSome (value_of name.now (attrs_now self.old)) }
        ensures { attrs_now self.new ≡ attr_removed name.now (attrs_now self.old) }
    {
        match self {
            ChangingAttrs::Few { list, .. } => take_out(list, name),
            ChangingAttrs::Many(many) => many.take_out(name),
        }
    }

    /// Puts an attribute of a new name in at the position kept for it, or else at the end.
    fn put_in(&mut self, alloc: Global, kept: Option<usize>, attr: Attr) -> Result<(), Memory>
        requires { value_of attr.name (attrs_now self.old) ≡ None }
        ensures { OnOk result (attrs_now self.new ≡ attr_added kept attr (attrs_now self.old)) }
    {
        match self {
            ChangingAttrs::Few { list, .. } => put_in(list, kept, attr),
            ChangingAttrs::Many(many) => many.put_in(alloc, kept, attr),
        }
    }

    /// Takes one attribute from its present value to another.
    fn change(
        &mut self,
        alloc: Global,
        name: &Text,
        kept: Option<usize>,
        from: &Option<Text>,
        to: &Option<Text>,
    ) -> Result<(), Memory>
        requires { value_of name.now (attrs_now self.old) ≡ from.now }
        ensures { OnOk result (
            attrs_now self.new
            ≡ attrs_changed name.now kept from.now to.now (attrs_now self.old)) }
    {
        match (from, to) {
            (None, None) => Ok(()),
            (None, Some(value)) => {
                let attr = Attr {
                    name: name.copy(alloc)?,
                    value: value.copy(alloc)?,
                };
                self.put_in(alloc, kept, attr)
            }
            (Some(_), Some(value)) => {
                self.set_value(name, value.copy(alloc)?);
                Ok(())
            }
            (Some(_), None) => {
                self.take_out(name);
                Ok(())
            }
        }
    }

    /// Hands the list over.
    fn into_vec(self, alloc: Global) -> Result<Vec<Attr>, Memory>
        ensures { IfOk result (λ list. list.items ≡ attrs_now self) }
    {
        match self {
            ChangingAttrs::Few { list, .. } => Ok(list),
            ChangingAttrs::Many(many) => many.into_vec(alloc),
        }
    }
}

/// A head while attribute operations change it.
pub struct ChangingHead {
    tag: Text,
    attrs: ChangingAttrs,
    raw: Text,
    reference: Option<RefKey>,
    owner: bool,
}

impl Drop for ChangingHead {
    fn drop(self) {
        let ChangingHead {
            tag,
            attrs,
            raw,
            reference,
            owner: _,
        } = self;
        drop(tag);
        drop(attrs);
        drop(raw);
        drop(reference);
    }
}

impl Model for ChangingHead {
    ghost use Rattle.ve_base.specs.declared.head.Head.{Head};
    ghost use Rattle.ve_base.specs.Names.{NamesApart};
    ghost use Rattle.ve_tx.specs.Changing.{attrs_now};

    ghost Value = { Head };

    ghost view = { λ head. record {
      tag = head.tag;
      attrs = attrs_now head.attrs;
      raw = head.raw;
      reference = head.reference;
      owner = head.owner;
    } };

    ghost invariant = { λ head. NamesApart (attrs_now head.attrs) };
}

impl ChangingHead {
    /// A head that no operation has changed yet.
    pub fn of(alloc: Global, head: Head) -> Result<ChangingHead, Memory>
        ensures { IfOk result (λ changing. changing ≡ head) }
    {
        let Head {
            tag,
            attrs,
            raw,
            reference,
            owner,
        } = head;
        let list = attrs.into_vec(alloc)?;
        Ok(ChangingHead {
            tag,
            attrs: ChangingAttrs::Few { list, changes: 0 },
            raw,
            reference,
            owner,
        })
    }

    /// How many attributes stand before the one of this name; all, where there is none.
    pub fn position(&self, name: &Text) -> usize
        ensures { result ≡ position_of name.now self.now.attrs }
    {
        self.attrs.position(name)
    }

    /// The head after one attribute operation more. No attribute is copied but what the operation
    /// brings.
    pub fn changed(
        self,
        alloc: Global,
        name: &Text,
        kept: Option<usize>,
        from: &Option<Text>,
        to: &Option<Text>,
    ) -> Result<ChangingHead, Memory>
        requires present { value_of name.now self.attrs ≡ from.now }
        requires free { attributes.is_reserved name.now ≡ false }
        ensures { IfOk result (λ next.
            IsHeadChanged (change_of name.now from.now to.now kept) self next) }
    {
        let ChangingHead {
            tag,
            attrs,
            raw,
            reference,
            owner,
        } = self;
        let mut attrs = attrs.counted(alloc)?;
        attrs.change(alloc, name, kept, from, to)?;
        Ok(ChangingHead {
            tag,
            attrs,
            raw,
            reference,
            owner,
        })
    }

    /// The head, once the operations have changed it.
    pub fn finish(self, alloc: Global) -> Result<Head, Memory>
        ensures { IfOk result (λ head. head ≡ self) }
    {
        let ChangingHead {
            tag,
            attrs,
            raw,
            reference,
            owner,
        } = self;
        let list = attrs.into_vec(alloc)?;
        Ok(Head {
            tag,
            attrs: Attrs::from_vec(list),
            raw,
            reference,
            owner,
        })
    }
}
