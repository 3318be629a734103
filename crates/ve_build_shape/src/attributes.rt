// One attribute of an element set or taken off.
ghost use Rattle.std.specs.Prelude.{◌≡◌, ◌<◌, true, Ok, IsOk, IfOk, IfErr, All, length};
ghost use Rattle.model_items.specs.Plain.{plain, plain_list, CitesWell};
ghost use Rattle.model_edit.specs.Convert.{opens_kind};
ghost use Rattle.ve_kinds.specs.Table as table;
ghost use Rattle.ve_offsets.specs.Docs.{IsDoc, page_items};
ghost use Rattle.ve_tx.specs.Cites.{TxCites};
ghost use Rattle.ve_tx.specs.Operation.{by_value};
ghost use Rattle.ve_edits.specs.Refused.{IsRefusal};
ghost use Rattle.ve_build_shape.specs.Setting.{attribute_spelled, begins_element, value_spelled, retain_ops, setting_ops, IsSetting, MaySetAt};

use model_edit::BuildFault;
use std::alloc::Global;
use ve_base::{Memory, Text};
use ve_edits::present_value;
use ve_items::Item;
use ve_kinds::is_element;
use ve_offsets::Doc;
use ve_tx::{Op, OpList, Transaction, is_reserved};

/// Whether the item opens an element.
fn opens_element(item: Item) -> bool
    ensures { (values : _) → result ≡ opens_kind table.is_element (plain values item) }
{
    match item {
        Item::Char { .. } => false,
        Item::Closing { .. } => false,
        Item::Opening { kind, .. } => is_element(kind),
    }
}

/// Whether an element begins at a position.
fn begins_element(doc: Doc<'_>, at: usize) -> bool
    ensures within { result ≡ true → at < length doc.entry.list.now.items }
    ensures means { (values : _)
        → result ≡ begins_element (plain_list values doc.entry.list.now.items) at }
{
    if at >= doc.list.len() {
        return false;
    }
    opens_element(doc.list.get(at))
}

fn text_of(alloc: Global, value: Option<&str>) -> Result<Option<Text>, Memory>
    ensures { IfOk result (λ text. text ≡ value_spelled value.entry) }
{
    match value {
        Some(spelled) => {
            let text = Text::from_str(alloc, spelled)?;
            Ok(Some(text))
        }
        None => Ok(None),
    }
}

/// A retain of so many items, unless there are none.
fn retain(alloc: Global, count: usize) -> Result<OpList, Memory>
    ensures { IfOk result (λ ops. ops ≡ retain_ops count) }
{
    let mut ops = OpList::new(alloc);
    if count == 0 {
        return Ok(ops);
    }
    ops.push(Op::Retain(count))?;
    Ok(ops)
}

/// The operations that set an attribute of the item at a position, which has so many items from it
/// on.
fn setting_ops(
    alloc: Global,
    at: usize,
    rest: usize,
    name: Text,
    from: Option<Text>,
    to: Option<Text>,
) -> Result<OpList, Memory>
    ensures { IfOk result (λ ops. ops ≡ setting_ops at rest name from to) }
{
    let mut ops = retain(alloc, at)?;
    ops.push(Op::Attribute { name, from, to })?;
    ops.push(Op::Retain(rest))?;
    Ok(ops)
}

/// The transaction that sets an attribute of the element at a position. One whose lengths add up to
/// more than 2^60 is a want of memory like any other.
fn set(
    alloc: Global,
    doc: Doc<'_>,
    at: usize,
    name: Text,
    to: Option<&str>,
) -> Result<Transaction, Memory>
    requires within { at < length doc.list.now.items }
    requires cites { All (CitesWell doc.store.now) doc.list.now.items }
    requires may { MaySetAt doc.list.now.items at name }
    ensures means { IfOk result (λ tx.
        IsSetting (page_items doc.entry) at name (value_spelled to.entry)
        (by_value doc.entry.store.now tx)) }
    ensures cites { IfOk result (TxCites doc.entry.store.now) }
{
    let from = present_value(alloc, doc.store, doc.list.get(at), &name)?;
    let to = text_of(alloc, to)?;
    let ops = setting_ops(alloc, at, doc.list.len() - at, name, from, to)?;
    let Ok(unfilled) = Transaction::from_ops(ops) else {
        return Err(Memory);
    };
    let tx = unfilled.filled(alloc, doc.list, doc.store)?;
    Ok(tx)
}

/// The transaction that sets an attribute of the element that begins at a position to a value, or
/// takes it off where that is `None`. Where it takes one off, it keeps the attribute's position, so
/// that the inverse puts it back there.
///
/// `NotOpening` comes exactly where no element begins at the position; then `BadAttr` where the
/// name is `about` or `typeof`. Want of memory comes only where neither does.
pub fn attribute(
    alloc: Global,
    doc: Doc<'_>,
    at: usize,
    name: &str,
    to: Option<&str>,
) -> Result<Transaction, BuildFault>
    requires doc { IsDoc doc }
    requires cites { All (CitesWell doc.store.now) doc.list.now.items }
    ensures means { IfOk result (λ tx.
        attribute_spelled (page_items doc.entry) at name.now to.entry
        ≡ Ok (by_value doc.entry.store.now tx)) }
    ensures cites { IfOk result (TxCites doc.entry.store.now) }
    ensures refused { IfErr result (λ fault.
        IsRefusal fault (attribute_spelled (page_items doc.entry) at name.now to.entry)) }
    ensures memory { IfErr result (λ fault.
        fault ≡ BuildFault.Memory
        → IsOk (attribute_spelled (page_items doc.entry) at name.now to.entry)) }
{
    if !begins_element(doc, at) {
        return Err(BuildFault::NotOpening { at });
    }
    if is_reserved(name) {
        return Err(BuildFault::BadAttr { at });
    }
    let Ok(name) = Text::from_str(alloc, name) else {
        return Err(BuildFault::Memory);
    };
    match set(alloc, doc, at, name, to) {
        Ok(tx) => Ok(tx),
        Err(Memory) => Err(BuildFault::Memory),
    }
}
