// Where offsets and selections stand after a transaction.
ghost use Rattle.std.specs.Prelude.{◌≡◌, ◌≤◌};
ghost use Rattle.ve_base.specs.Limits.{max_total_length};
ghost use Rattle.model_edit.specs.Translate.{between, translate};
ghost use Rattle.model_edit.specs.Translate as model;
ghost use Rattle.ve_tx.specs.Normal.{total_size};
ghost use Rattle.ve_tx.specs.Operation.{by_value};
ghost use Rattle.ve_select.specs.Passed.{passed_before};

use crate::{Bias, Selection};
use ve_tx::{Op, Transaction};

/// Whether an insertion at a position comes before an offset that keeps to this side.
fn is_before(bias: Bias, place: usize, offset: usize) -> bool
    ensures { result ≡ model.is_before bias place offset }
{
    match bias {
        Bias::Left => place < offset,
        Bias::Right => place <= offset,
    }
}

/// How many items that the operations leave come before an offset of the old list.
fn items_before(ops: &[Op], offset: usize, bias: Bias) -> usize
    requires { total_size ops.now ≤ max_total_length }
    ensures { result ≡ passed_before bias offset 0 ops.now }
{
    let mut at = 0;
    let mut before = 0;
    for op in ops {
        match op {
            Op::Retain(count) => {
                before += (*count).min(offset.saturating_sub(at));
                at += *count;
            }
            Op::Replace { removed, inserted } => {
                if is_before(bias, at, offset) {
                    before += inserted.as_slice().len();
                }
                at += removed.as_slice().len();
            }
            Op::Attribute { .. } => {}
        }
    }
    before
}

/// Where an offset of the old list stands in the new one. Items come before it that come from old
/// items before it, and those inserted at a position before it. Those inserted at its own position
/// do where it keeps to the right. The items of a replace are inserted where the replace begins. It
/// takes no memory and walks the operations alone.
pub fn translate_offset(tx: &Transaction, offset: usize, bias: Bias) -> usize
    ensures { (values : _) → result ≡ translate (by_value values tx.now) offset bias }
{
    items_before(tx.ops(), offset, bias)
}

/// Where both ends of a selection stand in the new list, each keeping to its side.
fn with_sides(tx: &Transaction, s: Selection, anchor: Bias, focus: Bias) -> Selection
    ensures { (values : _)
        → result
        ≡ between (translate (by_value values tx.now) s.anchor anchor)
        (translate (by_value values tx.now) s.focus focus) }
{
    Selection {
        anchor: translate_offset(tx, s.anchor, anchor),
        focus: translate_offset(tx, s.focus, focus),
    }
}

/// Where a selection stands in the new list. The lower end keeps to the right of an insertion there
/// and the higher to the left, so that nothing new is selected at the ends. A collapsed selection
/// keeps to the left. It takes no memory and walks the operations alone. An end may then stand
/// inside a leaf.
pub fn translate_range(tx: &Transaction, s: Selection) -> Selection
    ensures { (values : _) → result ≡ model.translate_range (by_value values tx.now) s }
{
    if s.anchor == s.focus {
        with_sides(tx, s, Bias::Left, Bias::Left)
    } else if s.anchor < s.focus {
        with_sides(tx, s, Bias::Right, Bias::Left)
    } else {
        with_sides(tx, s, Bias::Left, Bias::Right)
    }
}
