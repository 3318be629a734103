// A branch of content given another kind.
ghost use Rattle.std.specs.Prelude.{◌≡◌, ◌<◌, ◌&&◌, true, Ok, IsOk, IfOk, IfErr, All, length};
ghost use Rattle.model_items.specs.Plain.{plain, plain_list, CitesWell};
ghost use Rattle.model_edit.specs.Convert.{opens_kind};
ghost use Rattle.model_edit.specs.Convert as model;
ghost use Rattle.ve_kinds.specs.Table as table;
ghost use Rattle.ve_offsets.specs.Docs.{IsDoc, page_items};
ghost use Rattle.ve_tx.specs.Cites.{TxCites};
ghost use Rattle.ve_tx.specs.Operation.{by_value};
ghost use Rattle.ve_build_shape.specs.Converted.{begins_branch, conversion, HasKind};
ghost use Rattle.ve_edits.specs.Collected.{IsTransactionOf, CitesAsItems};
ghost use Rattle.ve_edits.specs.Refused.{IsRefusal};

use model_edit::BuildFault;
use std::alloc::Global;
use ve_base::Memory;
use ve_edits::{Edits, partner};
use ve_items::Item;
use ve_kinds::{Kind, is_content_branch};
use ve_offsets::Doc;
use ve_tx::Transaction;

/// Whether the item opens a branch of content.
fn opens_content(item: Item) -> bool
    ensures { (values : _) → result ≡ opens_kind table.is_content_branch (plain values item) }
{
    match item {
        Item::Char { .. } => false,
        Item::Closing { .. } => false,
        Item::Opening { kind, .. } => is_content_branch(kind),
    }
}

/// Whether a branch of content begins at a position, and the kind is one of content.
fn may_convert(doc: Doc<'_>, at: usize, kind: Kind) -> bool
    ensures within { result ≡ true → at < length doc.entry.list.now.items }
    ensures means { (values : _)
        → result
        ≡ (begins_branch (plain_list values doc.entry.list.now.items) at
        && table.is_content_branch kind) }
{
    if at >= doc.list.len() {
        return false;
    }
    if !opens_content(doc.list.get(at)) {
        return false;
    }
    is_content_branch(kind)
}

/// An opening of the kind, with the attributes and the whitespace before it; any other item as it
/// is.
fn with_kind(item: Item, kind: Kind) -> Item
    ensures means { HasKind item kind result }
    ensures cites { (values : _) → CitesWell values item → CitesWell values result }
{
    match item {
        Item::Char { ch, marks } => Item::Char { ch, marks },
        Item::Closing { kind: old, pre } => Item::Closing { kind: old, pre },
        Item::Opening {
            head,
            marks,
            pre,
            ..
        } => Item::Opening {
            kind,
            head,
            marks,
            pre,
            origin: None,
            generated: false,
        },
    }
}

/// The transaction that gives both brackets of a branch the kind.
fn converted(alloc: Global, doc: Doc<'_>, at: usize, kind: Kind) -> Result<Transaction, Memory>
    requires doc { IsDoc doc }
    requires within { at < length doc.list.now.items }
    requires opens { (values : _) → begins_branch (plain_list values doc.list.now.items) at ≡ true }
    ensures means { IfOk result (IsTransactionOf doc.entry.list.now.items (conversion at kind)) }
    ensures cites { IfOk result (CitesAsItems doc.entry.list.now.items) }
{
    let item = doc.list.get(at);
    let other = partner(doc, at);
    let opening = with_kind(item, kind);
    let closing = Item::Closing { kind, pre: None };
    let mut edits = Edits::new(alloc);
    edits.change(doc.list, at, 1, &[opening])?;
    edits.change(doc.list, other, 1, &[closing])?;
    let tx = edits.transaction(doc.list)?;
    Ok(tx)
}

/// The transaction that gives a branch of content another kind of content; it keeps its attributes
/// and the whitespace before it. `NotBranch` comes exactly where no branch of content begins at the
/// position, or the kind is none. Want of memory comes only elsewhere.
pub fn convert(
    alloc: Global,
    doc: Doc<'_>,
    at: usize,
    kind: Kind,
) -> Result<Transaction, BuildFault>
    requires doc { IsDoc doc }
    requires cites { All (CitesWell doc.store.now) doc.list.now.items }
    ensures means { IfOk result (λ tx.
        model.convert (page_items doc.entry) at kind ≡ Ok (by_value doc.entry.store.now tx)) }
    ensures cites { IfOk result (λ tx. TxCites doc.entry.store.now tx) }
    ensures refused { IfErr result (λ fault.
        IsRefusal fault (model.convert (page_items doc.entry) at kind)) }
    ensures memory { IfErr result (λ fault.
        fault ≡ BuildFault.Memory → IsOk (model.convert (page_items doc.entry) at kind)) }
{
    if !may_convert(doc, at, kind) {
        return Err(BuildFault::NotBranch { at });
    }
    match converted(alloc, doc, at, kind) {
        Ok(tx) => Ok(tx),
        Err(Memory) => Err(BuildFault::Memory),
    }
}
