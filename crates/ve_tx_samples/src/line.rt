// Lines that spell transactions.
ghost use Rattle.std.specs.Prelude.{IfOk};
ghost use Rattle.ve_tx_samples.specs.NoValues.{OpCitesNothing, OpsCiteNothing, TxCitesNothing};

use crate::LineFault;
use std::alloc::Global;
use ve_base::{Memory, Same, Text};
use ve_samples::pieces;
use ve_tx::{Op, OpList, Transaction};

/// The value of an attribute, and none where there is no text.
fn value(alloc: Global, text: &str) -> Result<Option<Text>, Memory> {
    if text.is_empty() {
        return Ok(None);
    }
    Ok(Some(Text::from_str(alloc, text)?))
}

/// The replace that a word spells, as `-ab+c`.
fn replace(alloc: Global, word: &str) -> Result<Op, Memory>
    ensures { IfOk result OpCitesNothing }
{
    let (removed, inserted) = word.split_once('+').unwrap_or((word, ""));
    let removed = pieces(alloc, removed.strip_prefix('-').unwrap_or(""))?;
    let inserted = pieces(alloc, inserted)?;
    Ok(Op::Replace { removed, inserted })
}

/// The operation that a word spells.
fn op(alloc: Global, word: &str) -> Result<Op, Memory>
    ensures { IfOk result OpCitesNothing }
{
    if word.starts_with('-') || word.starts_with('+') {
        return replace(alloc, word);
    }
    if let Some((name, values)) = word.split_once(':') {
        let (from, to) = values.split_once('>').unwrap_or((values, ""));
        return Ok(Op::Attribute {
            name: Text::from_str(alloc, name)?,
            from: value(alloc, from)?,
            to: value(alloc, to)?,
        });
    }
    Ok(Op::Retain(word.parse::<usize>().unwrap_or(0)))
}

/// The operations that a line spells.
pub fn ops(alloc: Global, line: &str) -> Result<OpList, Memory>
    ensures { IfOk result OpsCiteNothing }
{
    let mut ops = OpList::new(alloc);
    for word in line.split_whitespace() {
        ops.push(op(alloc, word)?)?;
    }
    Ok(ops)
}

/// The transaction that a line spells. It keeps no positions.
pub fn transaction(alloc: Global, line: &str) -> Result<Transaction, LineFault>
    ensures { IfOk result TxCitesNothing }
{
    match Transaction::from_ops(ops(alloc, line)?) {
        Ok(tx) => Ok(tx),
        Err(_) => Err(LineFault::NotNormal),
    }
}

fn same_op(one: &Op, other: &Op) -> bool {
    match (one, other) {
        (Op::Retain(count), Op::Retain(other)) => count == other,
        (
            Op::Replace { removed, inserted },
            Op::Replace {
                removed: other_removed,
                inserted: other_inserted,
            },
        ) => {
            removed.as_slice() == other_removed.as_slice()
                && inserted.as_slice() == other_inserted.as_slice()
        }
        (
            Op::Attribute { name, from, to },
            Op::Attribute {
                name: other_name,
                from: other_from,
                to: other_to,
            },
        ) => name.same(other_name) && from.same(other_from) && to.same(other_to),
        _ => false,
    }
}

/// Whether a transaction has the operations that a line spells, whatever positions it keeps.
pub fn spells(alloc: Global, line: &str, tx: &Transaction) -> Result<bool, Memory> {
    let expected = ops(alloc, line)?;
    if expected.as_slice().len() != tx.ops().len() {
        return Ok(false);
    }
    for (one, other) in expected.as_slice().iter().zip(tx.ops()) {
        if !same_op(one, other) {
            return Ok(false);
        }
    }
    Ok(true)
}
