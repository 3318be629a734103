// Pages and the lines that spell them.
ghost use Rattle.std.specs.Prelude.{IfOk};
ghost use Rattle.ve_tx_samples.specs.NoValues.{ItemsCiteNothing};

use std::alloc::Global;
use ve_base::{Head, Memory, Value, ValueId};
use ve_items::{Item, Linear};
use ve_kinds::{Kind, tag_of_kind};
use ve_samples::list;
use ve_store::Store;

/// The page that a line spells, as `ve_samples` does. It may stand over any store.
pub fn page(alloc: Global, line: &str) -> Result<Linear, Memory>
    ensures { IfOk result (λ page. ItemsCiteNothing page.items) }
{
    let page = list(alloc, line)?;
    Ok(page)
}

/// The head that an opening cites.
fn head_of(store: &Store, id: Option<ValueId>) -> Option<&Head> {
    let id = id?;
    if id.0 >= store.len() {
        return None;
    }
    match store.get(id) {
        Value::Head(head) => Some(head),
        Value::White(_) | Value::Marks(_) => None,
    }
}

/// Appends an opening, as `<p id="x">`.
fn put_opening(line: &mut String, kind: Kind, head: Option<&Head>) -> Result<(), Memory> {
    line.push('<')?;
    line.push_str(tag_of_kind(kind).unwrap_or("?"))?;
    if let Some(head) = head {
        for attr in head.attrs.as_slice() {
            line.push(' ')?;
            line.push_str(attr.name.as_str())?;
            line.push_str("=\"")?;
            line.push_str(attr.value.as_str())?;
            line.push('"')?;
        }
    }
    line.push('>')?;
    Ok(())
}

/// Appends a closing, as `</p>`.
fn put_closing(line: &mut String, kind: Kind) -> Result<(), Memory> {
    line.push_str("</")?;
    line.push_str(tag_of_kind(kind).unwrap_or("?"))?;
    line.push('>')?;
    Ok(())
}

/// The line of a page up to its internal list: characters without their marks, and elements with
/// their attributes, values as they are. A kind without a tag is a question mark.
pub fn page_line(alloc: Global, list: &Linear, store: &Store) -> Result<String, Memory> {
    let mut line = String::new(alloc);
    for at in 0..list.len() {
        match list.get(at) {
            Item::Opening {
                kind: Kind::InternalList,
                ..
            } => break,
            Item::Char { ch, .. } => line.push(ch)?,
            Item::Opening { kind, head, .. } => put_opening(&mut line, kind, head_of(store, head))?,
            Item::Closing { kind, .. } => put_closing(&mut line, kind)?,
        }
    }
    Ok(line)
}
