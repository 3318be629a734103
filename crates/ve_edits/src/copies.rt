// The copy of an opening, as a second node of the same kind begins with it.
ghost use Rattle.std.specs.Prelude.{◌≡◌, ◌∷◌, [], codes, length, IfOk, OnOk, OnErr};
ghost use Rattle.ve_base.specs.Names.{NamesApart};
ghost use Rattle.model_items.specs.Plain.{plain, CitesHead, CitesWell};
ghost use Rattle.model_change.specs.Attributes.{attr_removed};
ghost use Rattle.model_edit.specs.Brackets as model;
ghost use Rattle.ve_store.specs.Following.{Grows, together};
ghost use Rattle.ve_edits.specs.Filled.{head_at, head_with, head_copied, IsFilledFor, IsFilledWithHead};

use std::alloc::Global;
use ve_base::{Attr, Attrs, Head, Memory, Text, TryCopy, Value, ValueId};
use ve_items::Item;
use ve_store::{NewValues, Store};

/// A copy of attributes without `id`.
fn without_id(alloc: Global, attrs: &[Attr]) -> Result<Attrs, Memory>
    requires { NamesApart attrs.now }
    ensures { IfOk result (λ made. made ≡ attr_removed (codes "id") attrs.now) }
{
    let mut made = Attrs::new(alloc);
    for attr in attrs {
        if attr.name.is("id") {
            continue;
        }
        made.push(attr.copy(alloc)?)?;
    }
    Ok(made.shared(alloc))
}

/// The attributes of a head that is cited.
fn attrs_at<'v>(store: &'v Store, new: &'v NewValues, id: ValueId) -> &'v [Attr]
    requires follows { new.now.after ≡ length store.now }
    requires cites { CitesHead (together store.now new.now) (Some id) }
    ensures attrs { result.now ≡ (head_at store.now new.now (Some id)).attrs }
    ensures apart { NamesApart result.now }
{
    match new.get(store, id) {
        Value::Head(head) => head.attrs.as_slice(),
        Value::White(_) | Value::Marks(_) => &[],
    }
}

/// The head that has these attributes and nothing else; none where it would be empty.
pub fn cite_attrs(
    alloc: Global,
    store: &Store,
    new: &mut NewValues,
    attrs: Attrs,
) -> Result<Option<ValueId>, Memory>
    requires follows { new.old.after ≡ length store.now }
    ensures cites { IfOk result (CitesHead (together store.now new.new)) }
    ensures head { IfOk result (λ id. head_at store.now new.new id ≡ head_with attrs) }
    ensures values { OnOk result (IsFilledWithHead store.now new.old new.new (head_with attrs)) }
    ensures grows { Grows new.old new.new }
    ensures err { OnErr result (new.new ≡ new.old) }
{
    let head = Head {
        tag: Text::new(alloc),
        attrs,
        raw: Text::new(alloc),
        reference: None,
        owner: false,
    };
    if head.is_empty() {
        return Ok(None);
    }
    let id = new.id_of(store, Value::Head(head))?;
    Ok(Some(id))
}

/// The head with the attributes of another but for `id`, and nothing else.
fn copied_head(
    alloc: Global,
    store: &Store,
    new: &mut NewValues,
    head: Option<ValueId>,
) -> Result<Option<ValueId>, Memory>
    requires follows { new.old.after ≡ length store.now }
    requires cites { CitesHead (together store.now new.old) head }
    ensures cites { IfOk result (CitesHead (together store.now new.new)) }
    ensures head { IfOk result (λ id.
        head_at store.now new.new id ≡ head_copied (head_at store.now new.old head)) }
    ensures values { OnOk result (
        IsFilledWithHead store.now new.old new.new (
        head_copied (head_at store.now new.old head))) }
    ensures grows { Grows new.old new.new }
    ensures err { OnErr result (new.new ≡ new.old) }
{
    let Some(id) = head else {
        return Ok(None);
    };
    let attrs = without_id(alloc, attrs_at(store, new, id))?;
    let copied = cite_attrs(alloc, store, new, attrs)?;
    Ok(copied)
}

/// An opening of the same kind with the same attributes but for `id`, and nothing else. A character
/// or a closing is its own copy. `new` takes the head where it is new; an `Err` changes nothing.
pub fn copy_of(
    alloc: Global,
    store: &Store,
    new: &mut NewValues,
    item: Item,
) -> Result<Item, Memory>
    requires follows { new.old.after ≡ length store.now }
    requires cites { CitesWell (together store.now new.old) item }
    ensures means { IfOk result (λ copy.
        plain (together store.now new.new) copy
        ≡ model.copy_of (plain (together store.now new.old) item)) }
    ensures cites { IfOk result (CitesWell (together store.now new.new)) }
    ensures values { IfOk result (λ copy.
        IsFilledFor store.now new.old new.new (plain (together store.now new.new) copy ∷ [])) }
    ensures grows { Grows new.old new.new }
    ensures err { OnErr result (new.new ≡ new.old) }
{
    match item {
        Item::Char { ch, marks } => Ok(Item::Char { ch, marks }),
        Item::Closing { kind, pre } => Ok(Item::Closing { kind, pre }),
        Item::Opening { kind, head, .. } => {
            let head = copied_head(alloc, store, new, head)?;
            Ok(Item::Opening {
                kind,
                head,
                marks: None,
                pre: None,
                origin: None,
                generated: false,
            })
        }
    }
}
