// Numbers, attributes, marks, and keys of references as JSON.
ghost use Rattle.std.specs.Prelude.{◌≡◌, ◌++◌, codes, decimal, OnOk, IfOk};
ghost use Rattle.model_world.specs.Shown as shown;
ghost use Rattle.ve_json.specs.ReplyMembers.{group_and_key};

use crate::json_list::{Json, push_list};
use crate::quoted::push_quoted;
use crate::reply_words::push_decimal;
use crate::spelling::Spelling;
use std::alloc::Global;
use ve_base::{Attr, Key, Mark, Memory, RefKey, Text};

impl Json for usize {
    ghost shown = { shown.json_number };

    fn push_json(&self, alloc: Global, out: &mut Spelling) -> Result<(), Memory> {
        push_decimal(alloc, *self, out)
    }
}

/// `[name, value]`
impl Json for Attr {
    ghost shown = { shown.attr_shown };

    fn push_json(&self, _alloc: Global, out: &mut Spelling) -> Result<(), Memory> {
        out.push_byte(b'[')?;
        push_quoted(self.name.as_str(), out)?;
        out.push_byte(b',')?;
        push_quoted(self.value.as_str(), out)?;
        out.push_byte(b']')
    }
}

/// `[tag, attributes]`
impl Json for Mark {
    ghost shown = { shown.mark_shown };

    fn push_json(&self, alloc: Global, out: &mut Spelling) -> Result<(), Memory> {
        out.push_byte(b'[')?;
        push_quoted(self.tag.as_str(), out)?;
        out.push_byte(b',')?;
        push_list(alloc, self.attrs.as_slice(), out)?;
        out.push_byte(b']')
    }
}

/// `a:` and the number
fn number_text(alloc: Global, number: u32) -> Result<Text, Memory>
    ensures { IfOk result (λ text. text ≡ codes "a:" ++ decimal number) }
{
    let mut text = Text::from_str(alloc, "a:")?;
    let digits = number.to_string(alloc)?;
    text.push_str(digits.as_str())?;
    Ok(text)
}

/// `n:` and the name, or `a:` and the number
fn key_text(alloc: Global, key: &Key) -> Result<Text, Memory>
    ensures { IfOk result (λ text. text ≡ shown.key_text key.now) }
{
    match key {
        Key::Named(name) => {
            let mut text = Text::from_str(alloc, "n:")?;
            text.push_str(name.as_str())?;
            Ok(text)
        }
        Key::Auto(number) => number_text(alloc, *number),
    }
}

/// Appends the group and the key, with a comma between them.
pub fn push_key(alloc: Global, key: &RefKey, out: &mut Spelling) -> Result<(), Memory>
    ensures ok { OnOk result (out.new.text ≡ out.old.text ++ group_and_key key.now) }
    ensures before { out.new.before ≡ out.old.before }
{
    let text = key_text(alloc, &key.key)?;
    push_quoted(key.group.as_str(), out)?;
    out.push_byte(b',')?;
    push_quoted(text.as_str(), out)
}
