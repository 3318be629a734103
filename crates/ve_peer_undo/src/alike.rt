// Whether two parcels have one effect.
ghost use Rattle.std.specs.Prelude.{◌≡◌, ◌↔◌, IsTrue, All, map};
ghost use Rattle.model_items.specs.Plain.{value_at};
ghost use Rattle.model_site.specs.Live.{all_alike};
ghost use Rattle.ve_tx.specs.ByValue.{parcel_by_value, ParcelCites};
ghost use Rattle.ve_tx.specs.Copied.{Stands};
ghost use Rattle.ve_tx.specs.Operation.{with_position};
ghost use Rattle.ve_peer_undo.specs.Alike.{AreCited, OpIsCited, seen, seen_op, seen_tx, settled_kept};

use model_items::Item;
use ve_base::{Same, Text, Value, ValueId};
use ve_tx::{Op, Parcel, Transaction};

/// Whether two cited values are equal, each in a list of its own.
fn same_value(
    values: &[Value],
    one: Option<ValueId>,
    others: &[Value],
    other: Option<ValueId>,
) -> bool
    requires one { Stands values.now one }
    requires other { Stands others.now other }
    ensures { IsTrue result ↔ (value_at values.now one ≡ value_at others.now other) }
{
    match (one, other) {
        (Some(one), Some(other)) => values[one.0].same(&others[other.0]),
        (None, None) => true,
        (Some(_), None) | (None, Some(_)) => false,
    }
}

fn same_origin(one: Option<u32>, other: Option<u32>) -> bool
    ensures { IsTrue result ↔ (one ≡ other) }
{
    match (one, other) {
        (Some(one), Some(other)) => one == other,
        (None, None) => true,
        (Some(_), None) | (None, Some(_)) => false,
    }
}

/// Whether two items are equal by value.
fn same_item(values: &[Value], one: Item, others: &[Value], other: Item) -> bool
    requires one { AreCited values.now one }
    requires other { AreCited others.now other }
    ensures { IsTrue result ↔ (seen values.now one ≡ seen others.now other) }
{
    match (one, other) {
        (
            Item::Char { ch, marks },
            Item::Char {
                ch: other_ch,
                marks: other_marks,
            },
        ) => ch == other_ch && same_value(values, marks, others, other_marks),
        (
            Item::Opening {
                kind,
                generated,
                head,
                marks,
                pre,
                origin,
            },
            Item::Opening {
                kind: other_kind,
                generated: other_generated,
                head: other_head,
                marks: other_marks,
                pre: other_pre,
                origin: other_origin,
            },
        ) => {
            kind == other_kind
                && generated == other_generated
                && same_value(values, head, others, other_head)
                && same_value(values, marks, others, other_marks)
                && same_value(values, pre, others, other_pre)
                && same_origin(origin, other_origin)
        }
        (
            Item::Closing { kind, pre },
            Item::Closing {
                kind: other_kind,
                pre: other_pre,
            },
        ) => kind == other_kind && same_value(values, pre, others, other_pre),
        (Item::Char { .. }, Item::Opening { .. } | Item::Closing { .. })
        | (Item::Opening { .. }, Item::Char { .. } | Item::Closing { .. })
        | (Item::Closing { .. }, Item::Char { .. } | Item::Opening { .. }) => false,
    }
}

/// Whether items are equal by value, one by one.
fn same_items(values: &[Value], one: &[Item], others: &[Value], other: &[Item]) -> bool
    requires one { All (AreCited values.now) one.now }
    requires other { All (AreCited others.now) other.now }
    ensures { IsTrue result ↔ (map (seen values.now) one.now ≡ map (seen others.now) other.now) }
{
    if one.len() != other.len() {
        return false;
    }
    for i in 0..one.len() {
        if !same_item(values, one[i], others, other[i]) {
            return false;
        }
    }
    true
}

/// The position that an attribute operation keeps; none where it removes its attribute.
fn settled_position(from: &Option<Text>, to: &Option<Text>, kept: Option<usize>) -> Option<usize>
    ensures { result ≡ settled_kept from.now to.now kept }
{
    if from.is_some() && to.is_none() {
        return None;
    }
    kept
}

fn same_position(one: Option<usize>, other: Option<usize>) -> bool
    ensures { IsTrue result ↔ (one ≡ other) }
{
    match (one, other) {
        (Some(one), Some(other)) => one == other,
        (None, None) => true,
        (Some(_), None) | (None, Some(_)) => false,
    }
}

/// Whether two operations, with the positions that they keep, have one effect.
fn same_op(
    values: &[Value],
    one: &Op,
    kept: Option<usize>,
    others: &[Value],
    other: &Op,
    other_kept: Option<usize>,
) -> bool
    requires one { OpIsCited values.now (with_position one.now kept) }
    requires other { OpIsCited others.now (with_position other.now other_kept) }
    ensures { IsTrue result
        ↔ (seen_op values.now (with_position one.now kept)
        ≡ seen_op others.now (with_position other.now other_kept)) }
{
    match (one, other) {
        (Op::Retain(one), Op::Retain(other)) => *one == *other,
        (
            Op::Replace { removed, inserted },
            Op::Replace {
                removed: other_removed,
                inserted: other_inserted,
            },
        ) => {
            same_items(values, removed.as_slice(), others, other_removed.as_slice())
                && same_items(
                    values,
                    inserted.as_slice(),
                    others,
                    other_inserted.as_slice(),
                )
        }
        (
            Op::Attribute { name, from, to },
            Op::Attribute {
                name: other_name,
                from: other_from,
                to: other_to,
            },
        ) => {
            name.same(other_name)
                && from.same(other_from)
                && to.same(other_to)
                && same_position(
                    settled_position(from, to, kept),
                    settled_position(other_from, other_to, other_kept),
                )
        }
        (Op::Retain(_), Op::Replace { .. } | Op::Attribute { .. })
        | (Op::Replace { .. }, Op::Retain(_) | Op::Attribute { .. })
        | (Op::Attribute { .. }, Op::Retain(_) | Op::Replace { .. }) => false,
    }
}

/// Whether two transactions have one effect.
fn same_transaction(
    values: &[Value],
    one: &Transaction,
    others: &[Value],
    other: &Transaction,
) -> bool
    requires one { All (OpIsCited values.now) one.now }
    requires other { All (OpIsCited others.now) other.now }
    ensures { IsTrue result ↔ (seen_tx values.now one.now ≡ seen_tx others.now other.now) }
{
    let ops = one.ops();
    let other_ops = other.ops();
    if ops.len() != other_ops.len() {
        return false;
    }
    for k in 0..ops.len() {
        if !same_op(
            values,
            &ops[k],
            one.kept(k),
            others,
            &other_ops[k],
            other.kept(k),
        ) {
            return false;
        }
    }
    true
}

/// Whether transactions have one effect, one by one.
fn same_transactions(
    values: &[Value],
    one: &[Transaction],
    others: &[Value],
    other: &[Transaction],
) -> bool
    requires one { All (All (OpIsCited values.now)) one.now }
    requires other { All (All (OpIsCited others.now)) other.now }
    ensures { IsTrue result
        ↔ (map (seen_tx values.now) one.now ≡ map (seen_tx others.now) other.now) }
{
    if one.len() != other.len() {
        return false;
    }
    for i in 0..one.len() {
        if !same_transaction(values, &one[i], others, &other[i]) {
            return false;
        }
    }
    true
}

/// Whether two parcels have one effect: they are equal by value, but for the positions that changes
/// keep of attributes which they remove.
pub fn have_one_effect(one: &Parcel, other: &Parcel) -> bool
    requires one { ParcelCites one.now }
    requires other { ParcelCites other.now }
    ensures { result ≡ all_alike (parcel_by_value one.now) (parcel_by_value other.now) }
{
    same_transactions(
        one.values.as_slice(),
        one.entry.txs.as_slice(),
        other.values.as_slice(),
        other.entry.txs.as_slice(),
    )
}
