// One item more, over the values that it cites. After an `Err` values may have come in, and no
// item.
ghost use Rattle.std.specs.Prelude.{◌≡◌, IfOk, OnOk, OnErr};
ghost use Rattle.std.specs.Str.{chars};
ghost use Rattle.model_items.specs.declared.plain_item.PlainItem.TheVariants as plain;
ghost use Rattle.ve_tx.specs.Making.{Extends};
ghost use Rattle.ve_reader.specs.Drafted.{block_of, leaf_of};
ghost use Rattle.ve_reader.specs.Holding.{Knows, More};

use crate::Opening;
use crate::cite::{cite_head, cite_white, marks_around};
use crate::growing::GrowingList;
use std::alloc::Global;
use ve_base::{Mark, Memory, ValueId};
use ve_items::Item;
use ve_kinds::Kind;
use ve_store::Store;

/// A character. It gives the position of its marks.
#[tactic(auto, using(crate::proofs::ExtendLemmas::more_char, ve_tx::proofs::ValuesLemmas::extends_by_fill))]
pub fn put_char(
    alloc: Global,
    items: &mut GrowingList,
    values: &mut Store,
    marks: &[Mark],
    known: Option<ValueId>,
    ch: char,
) -> Result<Option<ValueId>, Memory>
    requires { Knows values.old marks.now known }
    ensures ok { OnOk result (
        More values.old values.new items.old items.new (plain.Char ch marks.now)) }
    ensures knows { IfOk result (Knows values.new marks.now) }
    ensures err { OnErr result (items.new ≡ items.old) }
    ensures extends { Extends values.old values.new }
{
    let marks = marks_around(alloc, values, marks, known)?;
    items.push(Item::Char { ch, marks })?;
    Ok(marks)
}

/// The opening of an inline leaf. It gives the position of its marks.
pub fn put_leaf(
    alloc: Global,
    items: &mut GrowingList,
    values: &mut Store,
    marks: &[Mark],
    known: Option<ValueId>,
    opening: Opening,
) -> Result<Option<ValueId>, Memory>
    requires { Knows values.old marks.now known }
    ensures ok { OnOk result (
        More values.old values.new items.old items.new (leaf_of opening marks.now)) }
    ensures knows { IfOk result (Knows values.new marks.now) }
    ensures err { OnErr result (items.new ≡ items.old) }
    ensures extends { Extends values.old values.new }
{
    let head = cite_head(values, opening.head)?;
    let marks = marks_around(alloc, values, marks, known)?;
    items.push(Item::Opening {
        kind: opening.kind,
        generated: opening.generated,
        head,
        marks,
        pre: None,
        origin: opening.origin,
    })?;
    Ok(marks)
}

/// The opening of a block, after whitespace.
pub fn put_block(
    alloc: Global,
    items: &mut GrowingList,
    values: &mut Store,
    opening: Opening,
    white: &str,
) -> Result<(), Memory>
    ensures ok { OnOk result (
        More values.old values.new items.old items.new (block_of opening (chars white.now))) }
    ensures err { OnErr result (items.new ≡ items.old) }
    ensures extends { Extends values.old values.new }
{
    let head = cite_head(values, opening.head)?;
    let pre = cite_white(alloc, values, white)?;
    items.push(Item::Opening {
        kind: opening.kind,
        generated: opening.generated,
        head,
        marks: None,
        pre,
        origin: opening.origin,
    })?;
    Ok(())
}

/// A closing, after whitespace.
pub fn put_closing(
    alloc: Global,
    items: &mut GrowingList,
    values: &mut Store,
    kind: Kind,
    white: &str,
) -> Result<(), Memory>
    ensures ok { OnOk result (
        More values.old values.new items.old items.new (plain.Closing kind (chars white.now))) }
    ensures err { OnErr result (items.new ≡ items.old) }
    ensures extends { Extends values.old values.new }
{
    let pre = cite_white(alloc, values, white)?;
    items.push(Item::Closing { kind, pre })?;
    Ok(())
}
