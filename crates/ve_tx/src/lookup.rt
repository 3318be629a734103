// Attributes that are found by name.
ghost use Rattle.std.specs.Prelude.{◌≡◌, List, drop, All, option_copied, IfOk};
ghost use Rattle.ve_base.specs.declared.attrs.Attr.{Attr};
ghost use Rattle.model_items.specs.Plain.{plain, plain_list, CitesWell};
ghost use Rattle.model_change.specs.Attributes.{value_of};
ghost use Rattle.ve_tx.specs.Searched as searched;
ghost use Rattle.ve_tx.specs.Searched.{SearchesIn, first_attrs};

use crate::attributes::attrs_of;
use crate::normal::same_text;
use std::alloc::Global;
use std::collections::BTreeMap;
use std::marker::Model;
use ve_base::{Attr, Memory, Text};
use ve_items::{Item, Linear};
use ve_store::Store;

/// So many times the attributes of one opening are walked along for a name.
const FEW_WALKS: usize = 16;

/// Attributes of a list, found by name: a sorted map of the names, each with the position of the
/// first attribute that has it. They are lent, not copied.
pub struct Lookup<'s> {
    attrs: &'s [Attr],
    positions: BTreeMap<&'s str, usize>,
}

impl<'s> Drop for Lookup<'s> {
    fn drop(self) {
        let Lookup {
            attrs: _,
            positions,
        } = self;
        drop(positions);
    }
}

impl<'s> Model for Lookup<'s> {
    ghost use Rattle.std.specs.Prelude.{List};
    ghost use Rattle.ve_base.specs.declared.attrs.Attr.{Attr};
    ghost use Rattle.ve_tx.specs.Looked.{HasPlaces};

    ghost Value = { List Attr };

    ghost view = { λ lookup. lookup.attrs.now };

    ghost invariant = { λ lookup. HasPlaces 0 lookup.attrs.now lookup.positions };
}

impl<'s> Lookup<'s> {
    /// Notes the names of a list, from the last one back: of two that are the same the first stays.
    pub fn of(alloc: Global, attrs: &'s [Attr]) -> Result<Lookup<'s>, Memory>
        ensures { IfOk result (λ lookup. lookup ≡ attrs.now) }
    {
        let mut positions = BTreeMap::new(alloc);
        let mut i = attrs.len();
        while i > 0 {
            i -= 1;
            positions.insert(attrs[i].name.as_str(), i)?;
        }
        Ok(Lookup { attrs, positions })
    }

    /// Lends the value of the first attribute of this name.
    pub fn value(&self, name: &Text) -> Option<&'s Text>
        ensures { option_copied result ≡ value_of name.now self.now }
    {
        let attrs = self.attrs;
        match self.positions.get(name.as_str()) {
            Some(at) => Some(&attrs[*at].value),
            None => None,
        }
    }
}

/// The same by a walk along the attributes.
fn value_in<'s>(attrs: &'s [Attr], name: &Text) -> Option<&'s Text>
    ensures { option_copied result ≡ value_of name.now attrs.now }
{
    for attr in attrs {
        if same_text(&attr.name, name) {
            return Some(&attr.value);
        }
    }
    None
}

/// The attributes of an opening; another item has none.
fn attrs_in<'s>(store: &'s Store, item: Item) -> &'s [Attr]
    requires { CitesWell store.now item }
    ensures { result.now ≡ searched.attrs_in (plain store.now item) }
{
    match item {
        Item::Opening { head, .. } => attrs_of(store, head),
        Item::Char { .. } | Item::Closing { .. } => &[],
    }
}

/// The attributes of the item at a position; past the end there are none.
pub fn attrs_at<'s>(list: &Linear, store: &'s Store, at: usize) -> &'s [Attr]
    requires { All (CitesWell store.now) list.now.items }
    ensures { result.now ≡ first_attrs (plain_list store.now (drop at list.now.items)) }
{
    if at >= list.len() {
        return &[];
    }
    attrs_in(store, list.get(at))
}

/// How the attributes of one opening are searched for names.
#[derive(Drop)]
pub enum Search<'s> {
    /// By walks along them, of which so many more are made.
    Walks(usize),
    /// By a map of the names.
    Names(Lookup<'s>),
}

impl<'s> Search<'s> {
    /// The search of the attributes of any opening.
    pub fn new() -> Search<'s>
        ensures { (attrs : List Attr) → SearchesIn attrs result }
    {
        Search::Walks(FEW_WALKS)
    }

    /// The search of the same attributes for one more name. After `FEW_WALKS` of them it is made by
    /// a map. Where there is no memory for one, as many walks are made again.
    pub fn next(self, alloc: Global, attrs: &'s [Attr]) -> Search<'s>
        requires { SearchesIn attrs.now self }
        ensures { SearchesIn attrs.now result }
    {
        match self {
            Search::Walks(0) => match Lookup::of(alloc, attrs) {
                Ok(lookup) => Search::Names(lookup),
                Err(Memory) => Search::Walks(FEW_WALKS),
            },
            Search::Walks(more) => Search::Walks(more - 1),
            Search::Names(lookup) => Search::Names(lookup),
        }
    }

    /// Lends the value of the first attribute of this name.
    pub fn value(&self, attrs: &'s [Attr], name: &Text) -> Option<&'s Text>
        requires { SearchesIn attrs.now self.now }
        ensures { option_copied result ≡ value_of name.now attrs.now }
    {
        match self {
            Search::Walks(_) => value_in(attrs, name),
            Search::Names(lookup) => lookup.value(name),
        }
    }
}
