// Openings and closings as JSON. Members stand in the order of their names, each but the first only
// where it isn't empty.
ghost use Rattle.json.specs.Print.{quoted};
ghost use Rattle.std.specs.Prelude.{◌≡◌, ◌++◌, ◌∷◌, [], codes, option_map, OnOk};
ghost use Rattle.model_world.specs.Names as names;
ghost use Rattle.model_world.specs.Shown.{json_number, json_text, key_shown};
ghost use Rattle.ve_json.specs.ReplyMembers.{comma_and_member, member_and_comma, closing_json, later_text, member_text, some_attrs, some_flag, some_marks, some_string};
ghost use Rattle.ve_json.specs.Runs.{lent_opening_json};

use crate::json_list::push_list;
use crate::quoted::push_quoted;
use crate::reply_words::push_decimal;
use crate::shown::push_key;
use crate::spelling::Spelling;
use model_world::kind_name;
use std::alloc::Global;
use ve_base::{Attr, Head, Mark, Memory, RefKey};
use ve_kinds::Kind;

/// The parts of an opening, borrowed from its page.
#[derive(Clone, Copy)]
pub struct OpeningParts<'v> {
    pub kind: Kind,
    pub head: &'v Head,
    pub marks: &'v [Mark],
    pub pre: &'v str,
    pub origin: Option<u32>,
    pub generated: bool,
}

/// Appends a member's name and the colon after it.
fn push_name(name: &str, out: &mut Spelling) -> Result<(), Memory>
    ensures ok { OnOk result (out.new.text ≡ out.old.text ++ (quoted name.now ++ 58 ∷ [])) }
    ensures before { out.new.before ≡ out.old.before }
{
    push_quoted(name, out)?;
    out.push_byte(b':')
}

/// Appends the attributes and a comma, where there are some.
fn push_attrs(alloc: Global, attrs: &[Attr], out: &mut Spelling) -> Result<(), Memory>
    ensures ok { OnOk result (out.new.text ≡ out.old.text ++ member_and_comma (codes "attrs") (some_attrs attrs.now)) }
    ensures before { out.new.before ≡ out.old.before }
{
    if attrs.is_empty() {
        return Ok(());
    }
    push_name("attrs", out)?;
    push_list(alloc, attrs, out)?;
    out.push_byte(b',')
}

/// Appends the marks and a comma, where there are some.
fn push_marks(alloc: Global, marks: &[Mark], out: &mut Spelling) -> Result<(), Memory>
    ensures ok { OnOk result (out.new.text ≡ out.old.text ++ member_and_comma (codes "marks") (some_marks marks.now)) }
    ensures before { out.new.before ≡ out.old.before }
{
    if marks.is_empty() {
        return Ok(());
    }
    push_name("marks", out)?;
    push_list(alloc, marks, out)?;
    out.push_byte(b',')
}

/// Appends that the opening was generated, and a comma, where it was.
fn push_generated(generated: bool, out: &mut Spelling) -> Result<(), Memory>
    ensures ok { OnOk result (out.new.text ≡ out.old.text ++ member_and_comma (codes "gen") (some_flag generated)) }
    ensures before { out.new.before ≡ out.old.before }
{
    if !generated {
        return Ok(());
    }
    push_name("gen", out)?;
    out.push(b"true,")
}

/// Appends a comma and a text, where that isn't empty.
fn push_text(name: &str, text: &str, out: &mut Spelling) -> Result<(), Memory>
    ensures ok { OnOk result (
        out.new.text ≡ out.old.text ++ comma_and_member name.now (some_string text.now)) }
    ensures before { out.new.before ≡ out.old.before }
{
    if text.is_empty() {
        return Ok(());
    }
    out.push_byte(b',')?;
    push_name(name, out)?;
    push_quoted(text, out)
}

/// Appends a comma and the origin, where there is one.
fn push_origin(alloc: Global, origin: Option<u32>, out: &mut Spelling) -> Result<(), Memory>
    ensures ok { OnOk result (out.new.text ≡ out.old.text ++ comma_and_member (codes "origin") (option_map json_number origin)) }
    ensures before { out.new.before ≡ out.old.before }
{
    let Some(origin) = origin else {
        return Ok(());
    };
    out.push_byte(b',')?;
    push_name("origin", out)?;
    push_decimal(alloc, origin as usize, out)
}

/// Appends a comma and that the reference owns its body, where it does.
fn push_owner(owner: bool, out: &mut Spelling) -> Result<(), Memory>
    ensures ok { OnOk result (out.new.text ≡ out.old.text ++ comma_and_member (codes "owner") (some_flag owner)) }
    ensures before { out.new.before ≡ out.old.before }
{
    if !owner {
        return Ok(());
    }
    out.push_byte(b',')?;
    push_name("owner", out)?;
    out.push(b"true")
}

/// Appends a comma and the key of a reference, where there is one.
fn push_reference(alloc: Global, key: &Option<RefKey>, out: &mut Spelling) -> Result<(), Memory>
    ensures ok { OnOk result (out.new.text ≡ out.old.text ++ comma_and_member (codes "ref") (option_map key_shown key.now)) }
    ensures before { out.new.before ≡ out.old.before }
{
    let Some(key) = key else {
        return Ok(());
    };
    out.push_byte(b',')?;
    push_name("ref", out)?;
    out.push_byte(b'[')?;
    push_key(alloc, key, out)?;
    out.push_byte(b']')
}

/// Appends the member that names the kind.
fn push_kind(name: &str, kind: Kind, out: &mut Spelling) -> Result<(), Memory>
    ensures ok { OnOk result (
        out.new.text
        ≡ out.old.text ++ member_text name.now (json_text (names.kind_name kind))) }
    ensures before { out.new.before ≡ out.old.before }
{
    push_name(name, out)?;
    push_quoted(kind_name(kind), out)
}

/// Appends the members of an opening that stand after its kind.
fn push_later(alloc: Global, opening: OpeningParts<'_>, out: &mut Spelling) -> Result<(), Memory>
    ensures ok { OnOk result (
        out.new.text
        ≡ out.old.text
        ++ later_text opening.entry.head.now opening.entry.pre.now opening.entry.origin) }
    ensures before { out.new.before ≡ out.old.before }
{
    push_origin(alloc, opening.origin, out)?;
    push_owner(opening.head.owner, out)?;
    push_text("pre", opening.pre, out)?;
    push_text("raw", opening.head.raw.as_str(), out)?;
    push_reference(alloc, &opening.head.reference, out)?;
    push_text("tag", opening.head.tag.as_str(), out)
}

/// Appends an opening.
pub fn push_opening(
    alloc: Global,
    opening: OpeningParts<'_>,
    out: &mut Spelling,
) -> Result<(), Memory>
    ensures ok { OnOk result (out.new.text ≡ out.old.text ++ lent_opening_json opening.entry) }
    ensures before { out.new.before ≡ out.old.before }
{
    out.push_byte(b'{')?;
    push_attrs(alloc, opening.head.attrs.as_slice(), out)?;
    push_generated(opening.generated, out)?;
    push_marks(alloc, opening.marks, out)?;
    push_kind("open", opening.kind, out)?;
    push_later(alloc, opening, out)?;
    out.push_byte(b'}')
}

/// Appends a closing.
pub fn push_closing(kind: Kind, pre: &str, out: &mut Spelling) -> Result<(), Memory>
    ensures ok { OnOk result (out.new.text ≡ out.old.text ++ closing_json kind pre.now) }
    ensures before { out.new.before ≡ out.old.before }
{
    out.push_byte(b'{')?;
    push_kind("close", kind, out)?;
    push_text("pre", pre, out)?;
    out.push_byte(b'}')
}
