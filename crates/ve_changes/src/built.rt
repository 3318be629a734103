// The draft of each builder's transaction, or the refusal that its fault is.
ghost use Rattle.std.specs.Prelude.{◌≡◌, false, IsOk, IfErr};
ghost use Rattle.std.specs.Str.{chars};
ghost use Rattle.model_edit.specs.Convert.{convert};
ghost use Rattle.model_edit.specs.Insert.{is_bad_offset, split};
ghost use Rattle.model_edit.specs.Marking.{marking, unmarking};
ghost use Rattle.model_edit.specs.Remove.{removal};
ghost use Rattle.model_edit.specs.Wrap.{is_bad_wrap, wrap};
ghost use Rattle.model_world.specs.Edits.{built_transaction};
ghost use Rattle.ve_build_insert.specs.Typed.{text_meant, plain_text_meant};
ghost use Rattle.ve_build_shape.specs.Setting.{attribute_spelled};
ghost use Rattle.ve_tx.specs.Cites.{TxCites};
ghost use Rattle.ve_tx.specs.Operation.{by_value};
ghost use Rattle.ve_editor.specs.Edited.{IsDraftOf, drafted};
ghost use Rattle.ve_editor.specs.Page.{IsPage};
ghost use Rattle.ve_offsets.specs.Docs.{page_items};
ghost use Rattle.ve_changes.specs.Drafts.{Drafts};

use crate::ChangeStop;
use model_edit::WrapPlan;
use std::alloc::Global;
use ve_base::Mark;
use ve_build_insert::{plain_text_insertion, split, text_insertion};
use ve_build_remove::removal;
use ve_build_shape::{attribute, convert, marking, unmarking, wrap};
use ve_kinds::Kind;
use ve_offsets::Doc;
use ve_store::NewValues;
use ve_tx::{Draft, Transaction};

/// The draft of a transaction that brings no values.
pub fn over_store(alloc: Global, doc: Doc<'_>, tx: Transaction) -> Draft
    requires cites { TxCites doc.store.now tx }
    ensures draft { IsDraftOf doc.entry.store.now result }
    ensures same { drafted doc.entry.store.now result ≡ by_value doc.entry.store.now tx }
{
    let values = NewValues::new(alloc, doc.store);
    Draft { tx, values }
}

/// A text put in with the marks of its left neighbour.
pub fn text_like_left(
    alloc: Global,
    doc: Doc<'_>,
    at: usize,
    text: &str,
) -> Result<Draft, ChangeStop>
    requires page { IsPage doc.store.now doc.list.now.items doc.tree.now }
    ensures drafts { Drafts doc.entry.store.now
        (built_transaction (text_meant doc.entry at text.now)) result }
    ensures memory { IfErr result (λ stop.
        stop ≡ ChangeStop.Memory → is_bad_offset (page_items doc.entry) at ≡ false) }
{
    let mut values = NewValues::new(alloc, doc.store);
    let tx = text_insertion(alloc, doc, at, text, &mut values)?;
    Ok(Draft { tx, values })
}

/// A text put in without marks.
pub fn plain_text(alloc: Global, doc: Doc<'_>, at: usize, text: &str) -> Result<Draft, ChangeStop>
    requires page { IsPage doc.store.now doc.list.now.items doc.tree.now }
    ensures drafts { Drafts doc.entry.store.now
        (built_transaction (plain_text_meant doc.entry at text.now)) result }
    ensures memory { IfErr result (λ stop.
        stop ≡ ChangeStop.Memory → is_bad_offset (page_items doc.entry) at ≡ false) }
{
    let mut values = NewValues::new(alloc, doc.store);
    let tx = plain_text_insertion(alloc, doc, at, text, &mut values)?;
    Ok(Draft { tx, values })
}

/// Open nodes split at an offset.
pub fn split_draft(
    alloc: Global,
    doc: Doc<'_>,
    at: usize,
    depth: usize,
) -> Result<Draft, ChangeStop>
    requires page { IsPage doc.store.now doc.list.now.items doc.tree.now }
    ensures drafts { Drafts doc.entry.store.now
        (built_transaction (split (page_items doc.entry) at depth)) result }
    ensures memory { IfErr result (λ stop.
        stop ≡ ChangeStop.Memory → IsOk (split (page_items doc.entry) at depth)) }
{
    let mut values = NewValues::new(alloc, doc.store);
    let tx = split(alloc, doc, at, depth, &mut values)?;
    Ok(Draft { tx, values })
}

/// A range removed.
pub fn removal_draft(
    alloc: Global,
    doc: Doc<'_>,
    from: usize,
    to: usize,
) -> Result<Draft, ChangeStop>
    requires page { IsPage doc.store.now doc.list.now.items doc.tree.now }
    ensures drafts { Drafts doc.entry.store.now
        (built_transaction (removal (page_items doc.entry) from to)) result }
    ensures memory { IfErr result (λ stop.
        stop ≡ ChangeStop.Memory → IsOk (removal (page_items doc.entry) from to)) }
{
    let tx = removal(alloc, doc, from, to)?;
    Ok(over_store(alloc, doc, tx))
}

/// A mark set on a range.
pub fn marking_draft(
    alloc: Global,
    doc: Doc<'_>,
    from: usize,
    to: usize,
    mark: &Mark,
) -> Result<Draft, ChangeStop>
    requires page { IsPage doc.store.now doc.list.now.items doc.tree.now }
    ensures drafts { Drafts doc.entry.store.now
        (built_transaction (marking (page_items doc.entry) from to mark.now)) result }
    ensures memory { IfErr result (λ stop.
        stop ≡ ChangeStop.Memory → IsOk (marking (page_items doc.entry) from to mark.now)) }
{
    let mut values = NewValues::new(alloc, doc.store);
    let tx = marking(alloc, doc, from, to, mark, &mut values)?;
    Ok(Draft { tx, values })
}

/// A mark taken off a range.
pub fn unmarking_draft(
    alloc: Global,
    doc: Doc<'_>,
    from: usize,
    to: usize,
    mark: &Mark,
) -> Result<Draft, ChangeStop>
    requires page { IsPage doc.store.now doc.list.now.items doc.tree.now }
    ensures drafts { Drafts doc.entry.store.now
        (built_transaction (unmarking (page_items doc.entry) from to mark.now)) result }
    ensures memory { IfErr result (λ stop.
        stop ≡ ChangeStop.Memory → IsOk (unmarking (page_items doc.entry) from to mark.now)) }
{
    let mut values = NewValues::new(alloc, doc.store);
    let tx = unmarking(alloc, doc, from, to, mark, &mut values)?;
    Ok(Draft { tx, values })
}

/// Brackets put round a range of siblings, and taken off it.
pub fn wrap_draft(
    alloc: Global,
    doc: Doc<'_>,
    from: usize,
    to: usize,
    plan: &WrapPlan,
) -> Result<Draft, ChangeStop>
    requires page { IsPage doc.store.now doc.list.now.items doc.tree.now }
    ensures drafts { Drafts doc.entry.store.now
        (built_transaction (wrap (page_items doc.entry) from to plan.now)) result }
    ensures memory { IfErr result (λ stop.
        stop ≡ ChangeStop.Memory → is_bad_wrap (page_items doc.entry) from to ≡ false) }
{
    let mut values = NewValues::new(alloc, doc.store);
    let tx = wrap(alloc, doc, from, to, plan, &mut values)?;
    Ok(Draft { tx, values })
}

/// A branch of content with another kind.
pub fn conversion_draft(
    alloc: Global,
    doc: Doc<'_>,
    at: usize,
    kind: Kind,
) -> Result<Draft, ChangeStop>
    requires page { IsPage doc.store.now doc.list.now.items doc.tree.now }
    ensures drafts { Drafts doc.entry.store.now
        (built_transaction (convert (page_items doc.entry) at kind)) result }
    ensures memory { IfErr result (λ stop.
        stop ≡ ChangeStop.Memory → IsOk (convert (page_items doc.entry) at kind)) }
{
    let tx = convert(alloc, doc, at, kind)?;
    Ok(over_store(alloc, doc, tx))
}

/// An attribute set, or taken off.
pub fn attribute_draft(
    alloc: Global,
    doc: Doc<'_>,
    at: usize,
    name: &str,
    to: Option<&str>,
) -> Result<Draft, ChangeStop>
    requires page { IsPage doc.store.now doc.list.now.items doc.tree.now }
    ensures drafts { Drafts doc.entry.store.now
        (built_transaction (attribute_spelled (page_items doc.entry) at name.now to.entry))
        result }
    ensures memory { IfErr result (λ stop.
        stop ≡ ChangeStop.Memory
        → IsOk (attribute_spelled (page_items doc.entry) at name.now to.entry)) }
{
    let tx = attribute(alloc, doc, at, name, to)?;
    Ok(over_store(alloc, doc, tx))
}
