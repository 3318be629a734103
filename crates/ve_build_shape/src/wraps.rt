// Nodes put into brackets, and taken out of them.
ghost use Rattle.std.specs.Prelude.{◌≡◌, ◌≢◌, ◌≤◌, ◌<◌, ◌+◌, ◌-◌, ◌∷◌, [], false, Ok, IfOk, IfErr, OnOk, All, length};
ghost use Rattle.model_items.specs.Offsets as offsets;
ghost use Rattle.model_items.specs.Plain.{CitesWell};
ghost use Rattle.model_edit.specs.Wrap as model;
ghost use Rattle.ve_offsets.specs.Docs.{IsDoc, page_items};
ghost use Rattle.ve_store.specs.Following.{Grows, together};
ghost use Rattle.ve_tx.specs.Cites.{TxCites};
ghost use Rattle.ve_tx.specs.Operation.{by_value};
ghost use Rattle.ve_edits.specs.Filled.{BringsInserted};
ghost use Rattle.ve_edits.specs.Refused.{IsRefusal};
ghost use Rattle.ve_build_shape.specs.Nodes.{AreWithin};
ghost use Rattle.ve_build_shape.specs.Round.{Fits, HaveRoom, IsRound, PutsAll, PutsRound};

use crate::claims::{end_of_node, wrong_place};
use crate::nodes::{is_bad_wrap, nodes_in};
use crate::shapes::{Brackets, brackets_of};
use model_edit::{BuildFault, WrapPlan};
use std::alloc::Global;
use ve_base::Memory;
use ve_edits::Edits;
use ve_offsets::Doc;
use ve_store::NewValues;
use ve_tx::Transaction;

/// Collects the edits of the node that begins at a position: brackets replace so many of its first
/// items, and so many of its last ones.
fn put_round(
    doc: Doc<'_>,
    edits: &mut Edits,
    at: usize,
    count: usize,
    brackets: &Brackets,
) -> Result<(), Memory>
    requires doc { IsDoc doc }
    requires within { at < length doc.list.now.items }
    requires order { edits.old.at ≤ at }
    requires room { at + count ≤ offsets.end_of_node (page_items doc) at - count }
    ensures at { OnOk result (edits.new.at ≡ offsets.end_of_node (page_items doc.entry) at) }
    ensures puts { OnOk result (
        PutsRound doc.entry.list.now.items count brackets.now (at ∷ []) edits.old edits.new) }
{
    let end = end_of_node(doc, at);
    let openings = brackets.openings.as_slice();
    let closings = brackets.closings.as_slice();
    edits.change(doc.list, at, count, openings)?;
    edits.change(doc.list, end - count, count, closings)?;
    Ok(())
}

/// Collects the edits of the nodes that begin at some positions.
fn put_round_each(
    doc: Doc<'_>,
    edits: &mut Edits,
    nodes: &[usize],
    count: usize,
    brackets: &Brackets,
    end: usize,
) -> Result<(), Memory>
    requires doc { IsDoc doc }
    requires within { AreWithin doc.list.now.items nodes.now }
    requires room { HaveRoom (page_items doc) count edits.old.at end nodes.now }
    ensures at { OnOk result (edits.new.at ≤ end) }
    ensures puts { OnOk result (
        PutsRound doc.entry.list.now.items count brackets.now nodes.now edits.old edits.new) }
{
    for i in 0..nodes.len() {
        put_round(doc, edits, nodes[i], count, brackets)?;
    }
    Ok(())
}

/// The transaction that puts brackets round a range and round each of its nodes, in the place of
/// those that stand there.
fn put_all(
    alloc: Global,
    doc: Doc<'_>,
    from: usize,
    to: usize,
    nodes: &[usize],
    plan: &WrapPlan,
    outer: &Brackets,
    each: &Brackets,
) -> Result<Transaction, Memory>
    requires doc { IsDoc doc }
    requires within { AreWithin doc.list.now.items nodes.now }
    requires fits { Fits (page_items doc) from to plan.now nodes.now }
    ensures { IfOk result (
        IsRound doc.entry.list.now.items from to plan.now nodes.now outer.now each.now) }
{
    let outer_kinds = plan.unwrap_outer.as_slice();
    let each_kinds = plan.unwrap_each.as_slice();
    let count = outer_kinds.len();
    let each_count = each_kinds.len();
    let openings = outer.openings.as_slice();
    let closings = outer.closings.as_slice();
    let mut edits = Edits::new(alloc);
    edits.change(doc.list, from - count, count, openings)?;
    put_round_each(doc, &mut edits, nodes, each_count, each, to)?;
    edits.change(doc.list, to, count, closings)?;
    let tx = edits.transaction(doc.list)?;
    Ok(tx)
}

/// The change that a plan is where no bracket is wrong. The openings of each shape are made once,
/// whatever the number of nodes.
fn wrapped(
    alloc: Global,
    doc: Doc<'_>,
    from: usize,
    to: usize,
    nodes: &[usize],
    plan: &WrapPlan,
    new: &mut NewValues,
) -> Result<Transaction, Memory>
    requires doc { IsDoc doc }
    requires cites { All (CitesWell doc.store.now) doc.list.now.items }
    requires follows { new.old.after ≡ length doc.store.now }
    requires within { AreWithin doc.list.now.items nodes.now }
    requires some { nodes.now ≢ [] }
    requires fits { Fits (page_items doc) from to plan.now nodes.now }
    ensures means { IfOk result (PutsAll doc.entry from to plan.now nodes.now new.new) }
    ensures cites { IfOk result (TxCites (together doc.entry.store.now new.new)) }
    ensures brings { IfOk result (BringsInserted doc.entry.store.now new.old new.new) }
    ensures grows { Grows new.old new.new }
{
    let outer_shapes = plan.wrap_outer.as_slice();
    let each_shapes = plan.wrap_each.as_slice();
    let outer = brackets_of(alloc, doc.store, new, outer_shapes)?;
    let each = brackets_of(alloc, doc.store, new, each_shapes)?;
    let tx = put_all(alloc, doc, from, to, nodes, plan, &outer, &each)?;
    Ok(tx)
}

/// The transaction of a wrap. It takes the brackets of some kinds off a range of nodes that stand
/// side by side, and of others off each node. It puts the brackets of shapes in their place. A new
/// opening has all attributes of its shape, and nothing else.
///
/// `BadRange` comes exactly where the range isn't one or more whole nodes side by side in no branch
/// of content, or holds a bracket of the internal list or of one of its items. Then `NotWrapped`
/// comes where a bracket that is to go doesn't stand in its place. It names the first such position
/// in the list's order, or 0 where too few items stand before the range. A closing stands where it
/// must only if it is the partner of the opening that goes. Want of memory never comes in the place
/// of `BadRange`, and `new` may then hold further values. After another refusal it is as it was.
pub fn wrap(
    alloc: Global,
    doc: Doc<'_>,
    from: usize,
    to: usize,
    plan: &WrapPlan,
    new: &mut NewValues,
) -> Result<Transaction, BuildFault>
    requires doc { IsDoc doc }
    requires cites { All (CitesWell doc.store.now) doc.list.now.items }
    requires follows { new.old.after ≡ length doc.store.now }
    ensures means { IfOk result (λ tx.
        model.wrap (page_items doc.entry) from to plan.now
        ≡ Ok (by_value (together doc.entry.store.now new.new) tx)) }
    ensures cites { IfOk result (TxCites (together doc.entry.store.now new.new)) }
    ensures brings { IfOk result (BringsInserted doc.entry.store.now new.old new.new) }
    ensures grows { Grows new.old new.new }
    ensures kept { IfErr result (λ fault. fault ≢ BuildFault.Memory → new.new ≡ new.old) }
    ensures refused { IfErr result (λ fault.
        IsRefusal fault (model.wrap (page_items doc.entry) from to plan.now)) }
    ensures memory { IfErr result (λ fault.
        fault ≡ BuildFault.Memory → model.is_bad_wrap (page_items doc.entry) from to ≡ false) }
{
    if is_bad_wrap(doc, from, to) {
        return Err(BuildFault::BadRange { from, to });
    }
    let Ok(nodes) = nodes_in(alloc, doc, from, to) else {
        return Err(BuildFault::Memory);
    };
    let places = nodes.as_slice();
    let outer = plan.unwrap_outer.as_slice();
    let each = plan.unwrap_each.as_slice();
    if let Some(at) = wrong_place(doc, from, to, places, outer, each) {
        return Err(BuildFault::NotWrapped { at });
    }
    match wrapped(alloc, doc, from, to, places, plan, new) {
        Ok(tx) => Ok(tx),
        Err(Memory) => Err(BuildFault::Memory),
    }
}
