// The openings of the nodes that are open at an offset.
ghost use Rattle.std.specs.Prelude.{◌≤◌, IfOk, length};
ghost use Rattle.model_items.specs.Offsets as model;
ghost use Rattle.ve_offsets.specs.Docs.{IsDoc};
ghost use Rattle.ve_edits.specs.Round.{AreOpeningsRound, CiteAsItems};
ghost use Rattle.ve_tree.specs.IsTree.{unvalued};

use crate::brackets::opening_round;
use std::alloc::Global;
use ve_base::Memory;
use ve_items::Items;
use ve_offsets::Doc;

/// The openings of the innermost nodes that are open at an offset, the innermost first.
pub fn openings_round(
    alloc: Global,
    doc: Doc<'_>,
    at: usize,
    levels: usize,
) -> Result<Items, Memory>
    requires doc { IsDoc doc }
    requires within { at ≤ length doc.list.now.items }
    requires levels { levels ≤ length (model.opens_at (unvalued doc.list.now.items) at) }
    ensures round { IfOk result (AreOpeningsRound doc.entry.list.now.items at levels) }
    ensures cites { IfOk result (CiteAsItems doc.entry.list.now.items) }
{
    let mut all = Items::new(alloc);
    let mut o = at;
    for level in 0..levels {
        o = opening_round(doc, o);
        all.push(doc.list.get(o))?;
    }
    Ok(all)
}
