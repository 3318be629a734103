// Whether operations are in normal form.
ghost use Rattle.std.specs.Prelude.{◌≡◌, ◌+◌, ◌<◌, ◌^◌, ◌∷◌, true, IfSome, IfNone, IfOk};
ghost use Rattle.ve_base.specs.Limits.{max_total_length};
ghost use Rattle.model_items.specs.Same.{text_same};
ghost use Rattle.ve_tx.specs.Normal.{names_apart, first_names, may_follow_attribute, may_stand_before, is_some_op, size, are_reduced, fit_into, are_normal};
ghost use Rattle.ve_tx.specs.Noted.{HaveSameNames};

use crate::{Names, Op};
use std::alloc::Global;
use ve_base::{MAX_TOTAL_LENGTH, Memory, Same, Text};

/// So many attribute operations of one position are told apart by pairs.
const FEW_NAMES: usize = 16;

/// Whether two texts are one.
pub fn same_text(one: &Text, other: &Text) -> bool
    ensures { result ≡ text_same one.now other.now }
{
    one.same(other)
}

/// Whether an attribute operation of this name may stand before these: up to the next retain there
/// are only attribute operations, of other names.
fn name_may_precede(name: &Text, rest: &[Op]) -> bool
    ensures { result ≡ names_apart name.now rest.now }
{
    for op in rest {
        match op {
            Op::Retain(_) => return true,
            Op::Replace { .. } => return false,
            Op::Attribute { name: other, .. } => {
                if same_text(name, other) {
                    return false;
                }
            }
        }
    }
    false
}

fn may_precede(op: &Op, rest: &[Op]) -> bool
    ensures { result ≡ may_stand_before op.now rest.now }
{
    match op {
        Op::Retain(_) => !matches!(rest.first(), Some(Op::Retain(_))),
        Op::Replace { .. } => !matches!(rest.first(), Some(Op::Replace { .. })),
        Op::Attribute { name, .. } => name_may_precede(name, rest),
    }
}

fn is_something(op: &Op) -> bool
    ensures { result ≡ is_some_op op.now }
{
    match op {
        Op::Retain(count) => *count > 0,
        Op::Replace { removed, inserted } => {
            !removed.as_slice().is_empty() || !inserted.as_slice().is_empty()
        }
        Op::Attribute { .. } => true,
    }
}

/// Whether no operation can be left out or be one with its neighbour, and attribute operations of
/// one position have distinct names and are followed by a retain. Each name is compared with those
/// after it.
fn is_reduced_by_pairs(ops: &[Op]) -> bool
    ensures { result ≡ are_reduced ops.now }
{
    for i in 0..ops.len() {
        if !is_something(&ops[i]) || !may_precede(&ops[i], &ops[i + 1..]) {
            return false;
        }
    }
    true
}

/// Whether these operations may follow an attribute operation, whatever its name.
fn may_follow_attribute(later: &[Op]) -> bool
    ensures { result ≡ may_follow_attribute later.now }
{
    matches!(later.first(), Some(Op::Retain(_) | Op::Attribute { .. }))
}

/// Whether an operation may stand before these. `names` has the names of the attribute operations
/// that come first in these, and then of those that come first in all.
fn may_precede_by_names<'a>(op: &'a Op, later: &[Op], names: &mut Names<'a>) -> Result<bool, Memory>
    requires reduced { are_reduced later.now ≡ true }
    requires names { HaveSameNames names.old (first_names later.now) }
    ensures may { IfOk result (λ may. may ≡ may_stand_before op.now later.now) }
    ensures names { IfOk result (λ may.
        may ≡ true → HaveSameNames names.new (first_names (op.now ∷ later.now))) }
{
    match op {
        Op::Retain(_) => {
            names.clear();
            Ok(!matches!(later.first(), Some(Op::Retain(_))))
        }
        Op::Replace { .. } => {
            names.clear();
            Ok(!matches!(later.first(), Some(Op::Replace { .. })))
        }
        Op::Attribute { name, .. } => {
            let is_new = names.note(name)?;
            Ok(is_new && may_follow_attribute(later))
        }
    }
}

/// The same as `is_reduced_by_pairs`. The operations are looked at from the last one back, and the
/// names of one position are noted.
fn is_reduced_by_names(alloc: Global, ops: &[Op]) -> Result<bool, Memory>
    ensures { IfOk result (λ reduced. reduced ≡ are_reduced ops.now) }
{
    let mut names = Names::new(alloc);
    let mut i = ops.len();
    while i > 0 {
        i -= 1;
        let op = &ops[i];
        if !is_something(op) {
            return Ok(false);
        }
        let may_stand = may_precede_by_names(op, &ops[i + 1..], &mut names)?;
        if !may_stand {
            return Ok(false);
        }
    }
    Ok(true)
}

/// Whether more than `FEW_NAMES` attribute operations have one position. Only time depends on it.
fn has_many_names(ops: &[Op]) -> bool {
    let mut few = FEW_NAMES;
    for op in ops {
        match op {
            Op::Retain(_) | Op::Replace { .. } => few = FEW_NAMES,
            Op::Attribute { .. } => {
                if few == 0 {
                    return true;
                }
                few -= 1;
            }
        }
    }
    false
}

/// Many names are noted, which takes memory; where it is wanting, they are compared by pairs, too.
fn is_reduced(alloc: Global, ops: &[Op]) -> bool
    ensures { result ≡ are_reduced ops.now }
{
    if !has_many_names(ops) {
        return is_reduced_by_pairs(ops);
    }
    match is_reduced_by_names(alloc, ops) {
        Ok(reduced) => reduced,
        Err(Memory) => is_reduced_by_pairs(ops),
    }
}

/// The room that is left, if the operation's lengths fit into it.
fn room_left(op: &Op, room: usize) -> Option<usize>
    ensures some { IfSome result (λ left. left + size op.now ≡ room) }
    ensures none { IfNone result (room < size op.now) }
{
    match op {
        Op::Retain(count) => room.checked_sub(*count),
        Op::Replace { removed, inserted } => room
            .checked_sub(removed.as_slice().len())?
            .checked_sub(inserted.as_slice().len()),
        Op::Attribute { .. } => Some(room),
    }
}

fn is_within_limit(ops: &[Op]) -> bool
    ensures { result ≡ fit_into max_total_length ops.now }
{
    let mut room = MAX_TOTAL_LENGTH;
    for op in ops {
        match room_left(op, room) {
            Some(left) => room = left,
            None => return false,
        }
    }
    true
}

/// Whether operations are in normal form. No operation can be left out or be one with its
/// neighbour. Attribute operations of one position have distinct names and are followed by a
/// retain. All lengths add up to at most `max_total_length`.
pub fn is_normal(alloc: Global, ops: &[Op]) -> bool
    ensures { result ≡ are_normal ops.now }
{
    is_reduced(alloc, ops) && is_within_limit(ops)
}
