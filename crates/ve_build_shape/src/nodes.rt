// Which ranges may be wrapped, and the nodes that stand in one.
ghost use Rattle.std.specs.Prelude.{◌≡◌, ◌≤◌, ◌<◌, ◌+◌, ◌++◌, ◌^◌, true, false, length, IfOk, IfSome, OnOk};
ghost use Rattle.model_items.specs.Offsets as offsets;
ghost use Rattle.model_items.specs.Plain.{plain, plain_list};
ghost use Rattle.model_edit.specs.Wrap as model;
ghost use Rattle.ve_offsets.specs.Docs.{IsDoc};
ghost use Rattle.ve_build_shape.specs.Nodes.{AreNodes};
ghost use Rattle.ve_build_shape.specs.Nodes as spec;

use std::alloc::Global;
use ve_base::Memory;
use ve_edits::has_internal;
use ve_items::Item;
use ve_offsets::{Doc, is_content, unmatched};

/// Whether characters may stand at an offset.
fn holds_content(doc: Doc<'_>, o: usize) -> bool
    requires doc { IsDoc doc }
    requires within { o ≤ length doc.list.now.items }
    ensures { (values : _)
        → result ≡ offsets.is_content (plain_list values doc.entry.list.now.items) o }
{
    is_content(doc, o)
}

/// Whether each bracket of a range has its partner there.
fn is_matched(doc: Doc<'_>, from: usize, to: usize) -> bool
    requires doc { IsDoc doc }
    requires order { from ≤ to }
    requires within { to ≤ length doc.list.now.items }
    ensures { (values : _)
        → result ≡ spec.is_matched (plain_list values doc.entry.list.now.items) from to }
{
    let (closings, openings) = unmatched(doc, from, to);
    closings == 0 && openings == 0
}

/// Whether a range is one or more whole nodes side by side, which stand in no branch of content.
fn is_whole_nodes(doc: Doc<'_>, from: usize, to: usize) -> bool
    requires doc { IsDoc doc }
    ensures means { (values : _)
        → result ≡ model.is_whole_nodes (plain_list values doc.entry.list.now.items) from to }
    ensures order { result ≡ true → from < to }
    ensures within { result ≡ true → to ≤ length doc.entry.list.now.items }
{
    if to <= from {
        return false;
    }
    if doc.list.len() < to {
        return false;
    }
    if holds_content(doc, from) {
        return false;
    }
    is_matched(doc, from, to)
}

/// Whether a range is not one of whole nodes side by side, or holds a bracket of the internal list
/// or of one of its items.
pub fn is_bad_wrap(doc: Doc<'_>, from: usize, to: usize) -> bool
    requires doc { IsDoc doc }
    ensures means { (values : _)
        → result ≡ model.is_bad_wrap (plain_list values doc.entry.list.now.items) from to }
    ensures order { result ≡ false → from < to }
    ensures within { result ≡ false → to ≤ length doc.entry.list.now.items }
{
    if !is_whole_nodes(doc, from, to) {
        return true;
    }
    has_internal(doc, from, to)
}

/// How many nodes are open after an item, or `None` where it closes the node that they stand in.
fn depth_past(depth: usize, item: Item) -> Option<usize>
    requires { depth + 1 < 2 ^ 64 }
    ensures means { (values : _) → result ≡ spec.depth_past depth (plain values item) }
    ensures few { IfSome result (λ deeper. deeper ≤ depth + 1) }
{
    match item {
        Item::Char { .. } => Some(depth),
        Item::Opening { .. } => Some(depth + 1),
        Item::Closing { .. } => {
            if depth == 0 {
                return None;
            }
            Some(depth - 1)
        }
    }
}

/// Notes the position, where a node begins there that stands in none of the open ones.
fn note(nodes: &mut Vec<usize>, depth: usize, at: usize, item: Item) -> Result<(), Memory>
    ensures { OnOk result (
        (values : _)
        → nodes.new.items ≡ nodes.old.items ++ spec.begun depth at (plain values item)) }
{
    match item {
        Item::Char { .. } => Ok(()),
        Item::Closing { .. } => Ok(()),
        Item::Opening { .. } => {
            if depth > 0 {
                return Ok(());
            }
            nodes.push(at)?;
            Ok(())
        }
    }
}

/// The positions where the nodes of a range begin.
pub fn nodes_in(alloc: Global, doc: Doc<'_>, from: usize, to: usize) -> Result<Vec<usize>, Memory>
    requires order { from ≤ to }
    requires within { to ≤ length doc.list.now.items }
    ensures { IfOk result (λ nodes. AreNodes doc.entry.list.now.items from to nodes.items) }
{
    let mut nodes = Vec::new(alloc);
    let mut depth = 0;
    for at in from..to {
        let item = doc.list.get(at);
        let Some(deeper) = depth_past(depth, item) else {
            return Ok(nodes);
        };
        note(&mut nodes, depth, at, item)?;
        depth = deeper;
    }
    Ok(nodes)
}
