// References, patches, the cells of a grid, and the words of a tree.
ghost use Rattle.std.specs.Prelude.{◌≡◌, ◌++◌, flat_map, OnOk};
ghost use Rattle.serde_json.specs.Data.{boolean};
ghost use Rattle.serde_json.specs.Written.{compact_text};
ghost use Rattle.model_world.specs.Shown as shown;
ghost use Rattle.model_world.specs.Spelled.{tree_word};

use crate::json_list::{Json, push_list};
use crate::reply_words::push_decimal;
use crate::shown::push_key;
use crate::spelling::Spelling;
use model_edit::GridCell;
use model_page::RefRow;
use model_site::Patch;
use model_world::{TreeWord, kind_name};
use std::alloc::Global;
use ve_base::Memory;

/// Appends a position, or `null`.
fn push_place(alloc: Global, place: Option<usize>, out: &mut Spelling) -> Result<(), Memory>
    ensures ok { OnOk result (
        out.new.text ≡ out.old.text ++ compact_text (shown.place_or_null place)) }
    ensures before { out.new.before ≡ out.old.before }
{
    match place {
        Some(at) => push_decimal(alloc, at, out),
        None => out.push(b"null"),
    }
}

/// Appends `true` or `false`.
fn push_flag(flag: bool, out: &mut Spelling) -> Result<(), Memory>
    ensures ok { OnOk result (out.new.text ≡ out.old.text ++ compact_text (boolean flag)) }
    ensures before { out.new.before ≡ out.old.before }
{
    if flag {
        return out.push(b"true");
    }
    out.push(b"false")
}

/// `[place, group, key, number, carrier, body]`
impl Json for RefRow {
    ghost shown = { shown.row_shown };

    fn push_json(&self, alloc: Global, out: &mut Spelling) -> Result<(), Memory> {
        out.push_byte(b'[')?;
        push_decimal(alloc, self.at, out)?;
        out.push_byte(b',')?;
        push_key(alloc, &self.key, out)?;
        out.push_byte(b',')?;
        push_decimal(alloc, self.number as usize, out)?;
        out.push_byte(b',')?;
        push_flag(self.carrier, out)?;
        out.push_byte(b',')?;
        push_place(alloc, self.body_at, out)?;
        out.push_byte(b']')
    }
}

/// `[position, removed, inserted]`
impl Json for Patch {
    ghost shown = { shown.patch_shown };

    fn push_json(&self, alloc: Global, out: &mut Spelling) -> Result<(), Memory> {
        let numbers = [self.at, self.removed, self.inserted];
        push_list(alloc, &numbers, out)
    }
}

/// `[place, row, column, rows, columns]`
impl Json for GridCell {
    ghost shown = { shown.cell_shown };

    fn push_json(&self, alloc: Global, out: &mut Spelling) -> Result<(), Memory> {
        let numbers = [self.at, self.row, self.column, self.rows, self.columns];
        push_list(alloc, &numbers, out)
    }
}

/// Appends a word of a tree.
fn push_tree_word(alloc: Global, word: TreeWord, out: &mut Spelling) -> Result<(), Memory>
    ensures ok { OnOk result (out.new.text ≡ out.old.text ++ tree_word word) }
    ensures before { out.new.before ≡ out.old.before }
{
    match word {
        TreeWord::Begin(kind) => {
            out.push(b" (")?;
            out.push(kind_name(kind).as_bytes())
        }
        TreeWord::Run(count) => {
            out.push_byte(b' ')?;
            push_decimal(alloc, count, out)
        }
        TreeWord::End => out.push_byte(b')'),
    }
}

/// Appends the words of a tree.
pub fn push_tree(alloc: Global, words: &[TreeWord], out: &mut Spelling) -> Result<(), Memory>
    ensures ok { OnOk result (out.new.text ≡ out.old.text ++ flat_map tree_word words.now) }
    ensures before { out.new.before ≡ out.old.before }
{
    for word in words {
        push_tree_word(alloc, *word, out)?;
    }
    Ok(())
}
