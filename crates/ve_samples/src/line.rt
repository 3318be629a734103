// Lines that spell items.
ghost use Rattle.std.specs.Prelude.{◌≡◌, ◌≤◌, length, All, IfOk, IfSome, OnOk, List};
ghost use Rattle.ve_base.specs.declared.value.Value.{Value};
ghost use Rattle.model_items.specs.Plain.{CitesWell};
ghost use Rattle.ve_samples.specs.CitesNothing.{CitesNothing};

use crate::{closing, letter, opening};
use std::alloc::Global;
use ve_base::Memory;
use ve_items::{Items, Linear};
use ve_kinds::{Kind, is_leaf, kind_of_tag};

/// A page and the offset of its mark, in items; none where it has no mark.
#[derive(Drop)]
pub struct MarkedPage {
    pub list: Linear,
    pub offset: Option<usize>,
}

/// A tag that is being read.
#[derive(Drop)]
struct Tag {
    name: String,
    is_closing: bool,
}

/// The items that were read, the offset of the mark, and the tag that has no end yet.
#[derive(Drop)]
struct LineReader {
    items: Items,
    offset: Option<usize>,
    tag: Option<Tag>,
}

/// The kind of an element's tag, or the kind of a name.
fn kind_of_name(name: &str) -> Option<Kind> {
    let names = [
        ("internal_list", Kind::InternalList),
        ("internal_item", Kind::InternalItem),
        ("trans_block", Kind::TransBlock),
        ("alien_block", Kind::AlienBlock),
        ("ref", Kind::Ref),
        ("trans_inline", Kind::TransInline),
        ("alien_inline", Kind::AlienInline),
    ];
    for (word, kind) in names {
        if word == name {
            return Some(kind);
        }
    }
    kind_of_tag(name)
}

/// Appends what a tag spells: nothing where it names no kind.
fn put_tag(items: &mut Items, tag: &Tag) -> Result<(), Memory>
    requires { CitesNothing items.old }
    ensures cites { OnOk result (CitesNothing items.new) }
    ensures more { OnOk result (length items.old ≤ length items.new) }
{
    let Some(kind) = kind_of_name(tag.name.as_str()) else {
        return Ok(());
    };
    if !tag.is_closing {
        items.push(opening(kind))?;
    }
    if tag.is_closing || is_leaf(kind) {
        items.push(closing(kind))?;
    }
    Ok(())
}

impl LineReader {
    /// Reads one more character.
    fn read(&mut self, alloc: Global, ch: char) -> Result<(), Memory>
        requires cites { CitesNothing self.old.items }
        requires offset { IfSome self.old.offset (λ o. o ≤ length self.old.items) }
        ensures cites { OnOk result (CitesNothing self.new.items) }
        ensures offset { OnOk result (IfSome self.new.offset (λ o. o ≤ length self.new.items)) }
    {
        match self.tag.take() {
            Some(tag) if ch == '>' => put_tag(&mut self.items, &tag)?,
            Some(mut tag) => {
                if ch == '/' {
                    tag.is_closing = true;
                } else {
                    tag.name.push(ch)?;
                }
                self.tag = Some(tag);
            }
            None if ch == '<' => {
                self.tag = Some(Tag {
                    name: String::new(alloc),
                    is_closing: false,
                });
            }
            None if ch == '|' => self.offset = Some(self.items.as_slice().len()),
            None => self.items.push(letter(ch))?,
        }
        Ok(())
    }
}

fn read_all(alloc: Global, line: &str) -> Result<LineReader, Memory>
    ensures cites { IfOk result (λ reader. CitesNothing reader.items) }
    ensures offset { IfOk result (λ reader. IfSome reader.offset (λ o. o ≤ length reader.items)) }
{
    let mut reader = LineReader {
        items: Items::new(alloc),
        offset: None,
        tag: None,
    };
    for ch in line.chars() {
        reader.read(alloc, ch)?;
    }
    Ok(reader)
}

/// The items that a line spells, and no others.
pub fn pieces(alloc: Global, line: &str) -> Result<Items, Memory>
    ensures { IfOk result CitesNothing }
{
    Ok(read_all(alloc, line)?.items)
}

/// Appends the internal list.
fn put_internal_list(items: &mut Items) -> Result<(), Memory>
    requires { CitesNothing items.old }
    ensures cites { OnOk result (CitesNothing items.new) }
    ensures more { OnOk result (length items.old ≤ length items.new) }
{
    items.push(opening(Kind::InternalList))?;
    items.push(closing(Kind::InternalList))?;
    Ok(())
}

/// The items as a page.
fn page_of(alloc: Global, items: &Items) -> Result<Linear, Memory>
    ensures { IfOk result (λ list. list.items ≡ items.now) }
{
    let mut list = Linear::new(alloc);
    list.splice(0, 0, items.as_slice())?;
    Ok(list)
}

/// The page that a line spells, with the internal list at its end, and the offset of its mark.
pub fn sample(alloc: Global, line: &str) -> Result<MarkedPage, Memory>
    ensures cites { IfOk result (λ sample. CitesNothing sample.list.items) }
    ensures offset { IfOk result (λ sample.
        IfSome sample.offset (λ o. o ≤ length sample.list.items)) }
{
    let mut reader = read_all(alloc, line)?;
    put_internal_list(&mut reader.items)?;
    Ok(MarkedPage {
        list: page_of(alloc, &reader.items)?,
        offset: reader.offset,
    })
}

/// The page alone.
pub fn list(alloc: Global, line: &str) -> Result<Linear, Memory>
    ensures { IfOk result (λ list. CitesNothing list.items) }
{
    Ok(sample(alloc, line)?.list)
}
