// The operations of a transaction, as a line writes them. What they remove, and the old values of
// attributes, are the list's.
ghost use Rattle.std.specs.Prelude.{◌≡◌, ◌∷◌, true, IfOk};
ghost use Rattle.serde_json.specs.View.{view, members_view};
ghost use Rattle.model_world.specs.Operations as operations;
ghost use Rattle.ve_json.specs.Gives.{Reads};
ghost use Rattle.ve_tx.specs.Noted.{HaveSameNames};
ghost use Rattle.ve_json.specs.Settings.{names_set, may_follow_setting};

use crate::attributes::name_in;
use crate::fault::ValueFault;
use crate::item_members::all_items_in;
use crate::values::{member, number_in, text_or_null_in, values_in};
use model_world::{OpWordList, OpWords};
use serde_json::{Map, Value};
use std::alloc::Global;
use ve_base::Memory;
use ve_tx::Names;

/// `{"remove":n,"insert":items}`, of which `n` was found.
fn removal_in(
    alloc: Global,
    exact: bool,
    members: &Map<String, Value>,
    counted: &Value,
) -> Result<OpWords, ValueFault>
    ensures { Reads result (
        operations.removal_in exact (members_view members.now.entries) (view counted.now)) }
{
    let count = number_in(counted).ok_or(ValueFault::IllFormed)?;
    let insert = all_items_in(
        alloc,
        exact,
        member(members, "insert").ok_or(ValueFault::IllFormed)?,
    )?;
    Ok(OpWords::Remove { count, insert })
}

/// `{"attr":name,"to":text or null}`.
fn setting_in(alloc: Global, members: &Map<String, Value>) -> Result<OpWords, ValueFault>
    ensures { Reads result (operations.setting_in (members_view members.now.entries)) }
{
    let name = name_in(alloc, member(members, "attr").ok_or(ValueFault::IllFormed)?)?;
    let to = text_or_null_in(alloc, member(members, "to").ok_or(ValueFault::IllFormed)?)?;
    Ok(OpWords::Attr { name, to })
}

/// One operation, by the first of `retain`, `remove` and `attr` that is there.
fn op_in(alloc: Global, exact: bool, json: &Value) -> Result<OpWords, ValueFault>
    ensures { Reads result (operations.op_in exact (view json.now)) }
{
    let members = json.as_object().ok_or(ValueFault::IllFormed)?;
    if let Some(retained) = member(members, "retain") {
        let count = number_in(retained).ok_or(ValueFault::IllFormed)?;
        return Ok(OpWords::Retain(count));
    }
    match member(members, "remove") {
        Some(counted) => removal_in(alloc, exact, members, counted),
        None => setting_in(alloc, members),
    }
}

/// Whether these operations may follow the setting of an attribute, whatever its name.
fn may_follow_setting(later: &[OpWords]) -> bool
    ensures { result ≡ may_follow_setting later.now }
{
    matches!(
        later.first(),
        Some(OpWords::Retain(_) | OpWords::Attr { .. })
    )
}

/// Whether an operation may stand before these, which are in normal form: no two retains or removals
/// are neighbours, and no attribute is set twice at one position. `names` has the names that these
/// set first, and then those that are set first by all.
fn may_precede<'a>(
    op: &'a OpWords,
    later: &[OpWords],
    names: &mut Names<'a>,
) -> Result<bool, Memory>
    requires normal { operations.words_are_normal later.now ≡ true }
    requires names { HaveSameNames names.old (names_set later.now) }
    ensures may { IfOk result (λ may. may ≡ operations.word_may_precede op.now later.now) }
    ensures names { IfOk result (λ may.
        may ≡ true → HaveSameNames names.new (names_set (op.now ∷ later.now))) }
{
    match op {
        OpWords::Retain(_) => {
            names.clear();
            Ok(!matches!(later.first(), Some(OpWords::Retain(_))))
        }
        OpWords::Remove { .. } => {
            names.clear();
            Ok(!matches!(later.first(), Some(OpWords::Remove { .. })))
        }
        OpWords::Attr { name, .. } => {
            let is_new = names.note(name)?;
            Ok(is_new && may_follow_setting(later))
        }
    }
}

/// Whether an operation passes, removes or inserts something, or sets an attribute.
fn is_something(op: &OpWords) -> bool
    ensures { result ≡ operations.word_is_something op.now }
{
    match op {
        OpWords::Retain(count) => *count > 0,
        OpWords::Remove { count, insert } => *count > 0 || !insert.as_slice().is_empty(),
        OpWords::Attr { .. } => true,
    }
}

/// Whether operations are in normal form. They are looked at from the last one back, and the names
/// of the attributes that are set at one position are noted.
fn are_normal(alloc: Global, ops: &[OpWords]) -> Result<bool, Memory>
    ensures { IfOk result (λ normal. normal ≡ operations.words_are_normal ops.now) }
{
    let mut names = Names::new(alloc);
    let mut i = ops.len();
    while i > 0 {
        i -= 1;
        let op = &ops[i];
        if !is_something(op) {
            return Ok(false);
        }
        let may_stand = may_precede(op, &ops[i + 1..], &mut names)?;
        if !may_stand {
            return Ok(false);
        }
    }
    Ok(true)
}

/// Operations in normal form. Where `exact`, their items stand for those that a reply shows.
pub fn ops_in(alloc: Global, exact: bool, json: &Value) -> Result<OpWordList, ValueFault>
    ensures { Reads result (operations.ops_in exact (view json.now)) }
{
    let list = values_in(json).ok_or(ValueFault::IllFormed)?;
    let mut ops = OpWordList::new(alloc);
    for json in list {
        let op = op_in(alloc, exact, json)?;
        ops.push(op)?;
    }
    let normal = are_normal(alloc, ops.as_slice())?;
    if !normal {
        return Err(ValueFault::IllFormed);
    }
    Ok(ops)
}
