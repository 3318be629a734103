// The run of characters beside an offset.
ghost use Rattle.std.specs.Prelude.{◌≡◌, ◌≤◌, ◌-◌, ◌++◌, IfOk, OnOk, length};
ghost use Rattle.ve_select.specs.Runs.{chars_back, chars_from, first_chars};

use std::alloc::Global;
use ve_base::{Memory, Text};
use ve_items::{Item, Linear};

/// Appends the characters that the items begin with, and tells how many they are.
fn push_chars(text: &mut Text, items: &[Item]) -> Result<usize, Memory>
    ensures pushed { OnOk result (text.new ≡ text.old ++ first_chars items.now) }
    ensures count { IfOk result (λ count. count ≡ length (first_chars items.now)) }
{
    let mut count = 0;
    for item in items {
        match item {
            Item::Char { ch, .. } => text.push(*ch)?,
            Item::Opening { .. } => return Ok(count),
            Item::Closing { .. } => return Ok(count),
        }
        count += 1;
    }
    Ok(count)
}

/// Where the run of characters before an offset begins.
pub fn run_start(list: &Linear, offset: usize) -> usize
    requires { offset ≤ length list.now.items }
    ensures { result ≡ offset - length (chars_back list.now.items offset) }
{
    let mut start = offset;
    while start > 0 {
        match list.get(start - 1) {
            Item::Char { .. } => start -= 1,
            Item::Opening { .. } => return start,
            Item::Closing { .. } => return start,
        }
    }
    start
}

/// The run of characters from an offset on.
pub fn run_from(alloc: Global, list: &Linear, offset: usize) -> Result<Text, Memory>
    requires { offset ≤ length list.now.items }
    ensures { IfOk result (λ text. text ≡ chars_from list.now.items offset) }
{
    let mut text = Text::new(alloc);
    let len = list.len();
    let mut at = offset;
    while at < len {
        let piece = list.piece(at, len);
        let count = push_chars(&mut text, piece)?;
        if count < piece.len() {
            return Ok(text);
        }
        at += count;
    }
    Ok(text)
}
