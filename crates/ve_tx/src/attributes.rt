// One attribute of an opening: whether it may be changed, and its change in a list.
ghost use Rattle.std.specs.Prelude.{◌≡◌, ◌≤◌, ◌↔◌, length, drop, None, Some, All, IsSome, IsTrue, OnOk};
ghost use Rattle.std.specs.Str.{chars};
ghost use Rattle.model_items.specs.Plain.{plain, plain_list, head_in, value_at, CitesHead, CitesWell};
ghost use Rattle.model_items.specs.Same.{text_same, option_same};
ghost use Rattle.model_change.specs.Attributes as attributes;
ghost use Rattle.model_change.specs.Attributes.{value_of, position_of, attr_added, attr_replaced, attr_removed};
ghost use Rattle.model_change.specs.Fault.{first_allows};
ghost use Rattle.ve_tx.specs.Checked.{change_of};
ghost use Rattle.ve_tx.specs.Searched.{SearchesIn, attrs_in, first_attrs};

use crate::lookup::Search;
use crate::normal::same_text;
use ve_base::{Attr, Memory, Text, Value, ValueId};
use ve_items::{Item, Linear};
use ve_kinds::is_element;
use ve_store::Store;

/// Whether a name has the characters of a word.
fn spells(name: &str, word: &str) -> bool
    ensures { IsTrue result ↔ (chars name.now ≡ chars word.now) }
{
    name == word
}

/// Whether a name says what a node is, so that it is not set like others.
pub fn is_reserved(name: &str) -> bool
    ensures { result ≡ attributes.is_reserved (chars name.now) }
{
    spells(name, "about") || spells(name, "typeof")
}

/// The attributes of the head that an opening cites.
pub fn attrs_of<'s>(store: &'s Store, head: Option<ValueId>) -> &'s [Attr]
    requires { CitesHead store.now head }
    ensures { result.now ≡ (head_in (value_at store.now head)).attrs }
{
    let Some(id) = head else {
        return &[];
    };
    match store.get(id) {
        Value::Head(head) => head.attrs.as_slice(),
        Value::White(_) | Value::Marks(_) => &[],
    }
}

fn same_value(one: &Text, value: &Option<Text>) -> bool
    ensures { result ≡ option_same text_same (Some one.now) value.now }
{
    match value {
        Some(value) => same_text(one, value),
        None => false,
    }
}

/// Whether the attribute of this name has this value, or is absent where that is none.
fn has_value<'s>(search: &Search<'s>, attrs: &'s [Attr], name: &Text, value: &Option<Text>) -> bool
    requires { SearchesIn attrs.now search.now }
    ensures { result ≡ option_same text_same (value_of name.now attrs.now) value.now }
{
    match search.value(attrs, name) {
        Some(present) => same_value(present, value),
        None => value.is_none(),
    }
}

/// Whether an item allows that an attribute which has the value `from` is changed.
fn allows<'s>(
    store: &'s Store,
    item: Item,
    search: &Search<'s>,
    name: &Text,
    from: &Option<Text>,
) -> bool
    requires cites { CitesWell store.now item }
    requires search { SearchesIn (attrs_in (plain store.now item)) search.now }
    ensures { result
        ≡ attributes.allows (change_of name.now from.now None None) (plain store.now item) }
{
    match item {
        Item::Opening { kind, head, .. } => {
            is_element(kind)
                && has_value(search, attrs_of(store, head), name, from)
                && !is_reserved(name.as_str())
        }
        Item::Char { .. } | Item::Closing { .. } => false,
    }
}

/// The same of the item at a position; past the end there is none that allows it.
pub fn may_change<'s>(
    list: &Linear,
    store: &'s Store,
    at: usize,
    search: &Search<'s>,
    name: &Text,
    from: &Option<Text>,
) -> bool
    requires cites { All (CitesWell store.now) list.now.items }
    requires search { SearchesIn (first_attrs (plain_list store.now (drop at list.now.items)))
        search.now }
    ensures { result
        ≡ first_allows (change_of name.now from.now None None) (
        plain_list store.now (drop at list.now.items)) }
{
    at < list.len() && allows(store, list.get(at), search, name, from)
}

/// How many attributes stand before the one of this name; all, where there is none.
pub fn position(attrs: &[Attr], name: &Text) -> usize
    ensures place { result ≡ position_of name.now attrs.now }
    ensures within { result ≤ length attrs.now }
{
    for i in 0..attrs.len() {
        if same_text(&attrs[i].name, name) {
            return i;
        }
    }
    attrs.len()
}

/// Gives the attribute of this name another value.
pub fn set_value(list: &mut Vec<Attr>, name: &Text, value: Text)
    requires { IsSome (value_of name.now list.old.items) }
    ensures { list.new.items ≡ attr_replaced name.now value list.old.items }
{
    let at = position(list.as_slice(), name);
    list[at].value = value;
}

/// Takes the attribute of this name out.
pub fn take_out(list: &mut Vec<Attr>, name: &Text)
    requires { IsSome (value_of name.now list.old.items) }
    ensures { list.new.items ≡ attr_removed name.now list.old.items }
{
    let at = position(list.as_slice(), name);
    list.remove(at);
}

/// Puts an attribute in at the position kept for it, or else at the end.
pub fn put_in(list: &mut Vec<Attr>, kept: Option<usize>, attr: Attr) -> Result<(), Memory>
    ensures { OnOk result (list.new.items ≡ attr_added kept attr list.old.items) }
{
    match kept {
        Some(at) => list.insert(at.min(list.len()), attr)?,
        None => list.push(attr)?,
    }
    Ok(())
}
