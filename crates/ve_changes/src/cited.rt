// Items by value, citing a store's values and those that are to follow it. What is empty isn't
// cited.
ghost use Rattle.std.specs.Prelude.{◌≡◌, All, IfOk, OnOk, length};
ghost use Rattle.model_items.specs.Plain.{plain, plain_list, value_at, head_in, marks_in, white_in, CitesHead, CitesMarks, CitesWhite, CitesWell};
ghost use Rattle.model_change.specs.Store.{cited, cited_by, fill, head_cited, marks_cited, white_cited};
ghost use Rattle.ve_store.specs.Following.{together};

use model_items::PlainItem;
use std::alloc::Global;
use ve_base::{Head, Marks, Memory, Text, TryCopy, Value, ValueId};
use ve_items::{Item, Items};
use ve_store::{NewValues, Store};

/// The position of a head, if it says anything.
fn head_id(
    alloc: Global,
    store: &Store,
    new: &mut NewValues,
    head: &Head,
) -> Result<Option<ValueId>, Memory>
    requires follows { new.old.after ≡ length store.now }
    ensures follows { OnOk result (new.new.after ≡ length store.now) }
    ensures cites { IfOk result (CitesHead (together store.now new.new)) }
    ensures means { IfOk result (λ id.
        head_in (value_at (together store.now new.new) id) ≡ head.now) }
    ensures values { OnOk result (
        together store.now new.new ≡ fill (together store.now new.old) (head_cited head.now)) }
{
    if head.is_empty() {
        return Ok(None);
    }
    let value = Value::Head(head.copy(alloc)?);
    let id = new.id_of(store, value)?;
    Ok(Some(id))
}

/// The position of marks, if there are any.
fn marks_id(
    alloc: Global,
    store: &Store,
    new: &mut NewValues,
    marks: &Marks,
) -> Result<Option<ValueId>, Memory>
    requires follows { new.old.after ≡ length store.now }
    ensures follows { OnOk result (new.new.after ≡ length store.now) }
    ensures cites { IfOk result (CitesMarks (together store.now new.new)) }
    ensures means { IfOk result (λ id.
        marks_in (value_at (together store.now new.new) id) ≡ marks.now) }
    ensures values { OnOk result (
        together store.now new.new
        ≡ fill (together store.now new.old) (marks_cited marks.now)) }
{
    if marks.as_slice().is_empty() {
        return Ok(None);
    }
    let value = Value::Marks(marks.copy(alloc)?);
    let id = new.id_of(store, value)?;
    Ok(Some(id))
}

/// The position of whitespace, if there is any.
fn white_id(
    alloc: Global,
    store: &Store,
    new: &mut NewValues,
    white: &Text,
) -> Result<Option<ValueId>, Memory>
    requires follows { new.old.after ≡ length store.now }
    ensures follows { OnOk result (new.new.after ≡ length store.now) }
    ensures cites { IfOk result (CitesWhite (together store.now new.new)) }
    ensures means { IfOk result (λ id.
        white_in (value_at (together store.now new.new) id) ≡ white.now) }
    ensures values { OnOk result (
        together store.now new.new
        ≡ fill (together store.now new.old) (white_cited white.now)) }
{
    if white.is_empty() {
        return Ok(None);
    }
    let value = Value::White(white.copy(alloc)?);
    let id = new.id_of(store, value)?;
    Ok(Some(id))
}

/// An item over the values, from one that is given by value. The values take its head, then its
/// marks, then its whitespace.
fn cited_item(
    alloc: Global,
    store: &Store,
    new: &mut NewValues,
    item: &PlainItem,
) -> Result<Item, Memory>
    requires follows { new.old.after ≡ length store.now }
    ensures follows { OnOk result (new.new.after ≡ length store.now) }
    ensures cites { IfOk result (CitesWell (together store.now new.new)) }
    ensures means { IfOk result (λ made. plain (together store.now new.new) made ≡ item.now) }
    ensures values { OnOk result (
        together store.now new.new ≡ fill (together store.now new.old) (cited_by item.now)) }
{
    match item {
        PlainItem::Char { ch, marks } => {
            let marks = marks_id(alloc, store, new, marks)?;
            Ok(Item::Char { ch: *ch, marks })
        }
        PlainItem::Opening {
            kind,
            head,
            marks,
            pre,
            origin,
            generated,
        } => {
            let head = head_id(alloc, store, new, head)?;
            let marks = marks_id(alloc, store, new, marks)?;
            let pre = white_id(alloc, store, new, pre)?;
            Ok(Item::Opening {
                kind: *kind,
                generated: *generated,
                head,
                marks,
                pre,
                origin: *origin,
            })
        }
        PlainItem::Closing { kind, pre } => {
            let pre = white_id(alloc, store, new, pre)?;
            Ok(Item::Closing { kind: *kind, pre })
        }
    }
}

/// Items over the values, from those that are given by value. The values take those of each item,
/// in the order of the items.
pub fn cited_items(
    alloc: Global,
    store: &Store,
    new: &mut NewValues,
    items: &[PlainItem],
) -> Result<Items, Memory>
    requires follows { new.old.after ≡ length store.now }
    ensures follows { OnOk result (new.new.after ≡ length store.now) }
    ensures cites { IfOk result (All (CitesWell (together store.now new.new))) }
    ensures means { IfOk result (λ made. plain_list (together store.now new.new) made ≡ items.now) }
    ensures values { OnOk result (
        together store.now new.new ≡ fill (together store.now new.old) (cited items.now)) }
{
    let mut made = Items::new(alloc);
    for item in items {
        let item = cited_item(alloc, store, new, item)?;
        made.push(item)?;
    }
    Ok(made)
}
