// Notes of the references of a list, taken item by item.
ghost use Rattle.std.specs.Prelude.{◌≡◌, ◌+◌, ◌^◌, ◌<◌, ◌∷◌, [], suc, length, All, IfOk, OnOk};
ghost use Rattle.indexmap.specs.IndexMap.{get};
ghost use Rattle.model_items.specs.Same.{ref_key_same, text_same};
ghost use Rattle.model_items.specs.Plain.{CitesHead, CitesWell, head_in, plain, plain_list, value_at};
ghost use Rattle.ve_internal.specs.Noted.{counted, place_if, seen_again, carrier_place, Counts, NotesBody, NotesItems, NotesOpening, NotesReference, SeesKey, HasNoted};

use crate::key::{LentGroup, LentKey};
use indexmap::IndexMap;
use model_items::Item;
use std::alloc::Global;
use ve_base::{Hashing, Memory, RefKey, Text, Value, ValueId};
use ve_items::Linear;
use ve_kinds::Kind;
use ve_store::Store;

/// The notes of a key: its number among the keys of its group, from 1, and where its first
/// reference and its first owner stand.
#[derive(Clone, Copy)]
pub struct Seen {
    pub number: u32,
    pub first: usize,
    pub owner: Option<usize>,
}

/// A reference: its position, and its key in the store.
#[derive(Clone, Copy)]
pub struct Cited<'a> {
    pub at: usize,
    pub key: &'a RefKey,
}

/// The references in order, the notes of each key, how many keys a group has, and where the first
/// body of a key opens.
#[derive(Drop)]
pub struct Notes<'a> {
    pub refs: Vec<Cited<'a>>,
    pub keys: IndexMap<LentKey<'a>, Seen, Hashing>,
    pub groups: IndexMap<LentGroup<'a>, u32, Hashing>,
    pub bodies: IndexMap<LentKey<'a>, usize, Hashing>,
}

/// Counts a new key of a group, and answers its number. A count that no `u32` holds is a want of
/// memory like any other.
fn count_in<'a>(
    groups: &mut IndexMap<LentGroup<'a>, u32, Hashing>,
    group: &'a Text,
) -> Result<u32, Memory>
    ensures number { IfOk result (λ number. number ≡ suc (counted groups.old group.now)) }
    ensures counts { OnOk result (Counts groups.old groups.new group.now) }
{
    let count = match groups.get(&LentGroup { group }) {
        Some(count) => *count,
        None => 0,
    };
    let Some(number) = count.checked_add(1) else {
        return Err(Memory);
    };
    groups.insert(LentGroup { group }, number)?;
    Ok(number)
}

fn place_if(owner: bool, at: usize) -> Option<usize>
    ensures { result ≡ place_if owner at }
{
    if owner { Some(at) } else { None }
}

impl Seen {
    /// The same key, where a later reference to it stands.
    fn again(self, at: usize, owner: bool) -> Seen
        ensures { result ≡ seen_again self at owner }
    {
        let owner = match self.owner {
            Some(place) => Some(place),
            None => place_if(owner, at),
        };
        Seen {
            number: self.number,
            first: self.first,
            owner,
        }
    }

    /// Where the reference stands that carries the key's body.
    pub fn carrier(self) -> usize
        ensures { result ≡ carrier_place self }
    {
        match self.owner {
            Some(place) => place,
            None => self.first,
        }
    }
}

/// The notes of a key after one more reference to it.
fn see<'a>(
    keys: &IndexMap<LentKey<'a>, Seen, Hashing>,
    groups: &mut IndexMap<LentGroup<'a>, u32, Hashing>,
    cited: Cited<'a>,
    owner: bool,
) -> Result<Seen, Memory>
    ensures { SeesKey keys.now groups.old groups.new cited.entry owner result }
{
    if let Some(seen) = keys.get(&LentKey { key: cited.key }) {
        return Ok(seen.again(cited.at, owner));
    }
    let number = count_in(groups, &cited.key.group)?;
    Ok(Seen {
        number,
        first: cited.at,
        owner: place_if(owner, cited.at),
    })
}

/// Notes where the body of a key opens, unless one opened before.
fn note_body<'a>(
    bodies: &mut IndexMap<LentKey<'a>, usize, Hashing>,
    key: &'a RefKey,
    at: usize,
) -> Result<(), Memory>
    ensures { OnOk result (NotesBody bodies.old bodies.new key.now at) }
{
    if bodies.get(&LentKey { key }).is_some() {
        return Ok(());
    }
    bodies.insert(LentKey { key }, at)?;
    Ok(())
}

impl<'a> Notes<'a> {
    fn new(alloc: Global) -> Notes<'a>
        ensures { HasNoted result [] }
    {
        Notes {
            refs: Vec::new(alloc),
            keys: IndexMap::with_hasher(alloc, Hashing::new()),
            groups: IndexMap::with_hasher(alloc, Hashing::new()),
            bodies: IndexMap::with_hasher(alloc, Hashing::new()),
        }
    }

    fn note_reference(&mut self, cited: Cited<'a>, owner: bool) -> Result<(), Memory>
        ensures { OnOk result (
            NotesReference self.old self.new cited.entry.at cited.entry.key.now owner) }
    {
        let seen = see(&self.keys, &mut self.groups, cited, owner)?;
        self.keys.insert(LentKey { key: cited.key }, seen)?;
        self.refs.push(cited)?;
        Ok(())
    }

    /// Notes an opening of a kind that cites this head.
    fn note_opening(
        &mut self,
        store: &'a Store,
        at: usize,
        kind: Kind,
        head: Option<ValueId>,
    ) -> Result<(), Memory>
        requires { CitesHead store.now head }
        ensures { OnOk result (
            NotesOpening self.old self.new at kind (head_in (value_at store.now head))) }
    {
        let Some(id) = head else {
            return Ok(());
        };
        let Value::Head(head) = store.get(id) else {
            return Ok(());
        };
        let Some(key) = &head.reference else {
            return Ok(());
        };
        match kind {
            Kind::Ref => {
                self.note_reference(Cited { at, key }, head.owner)?;
                Ok(())
            }
            Kind::InternalItem => {
                note_body(&mut self.bodies, key, at)?;
                Ok(())
            }
            _ => Ok(()),
        }
    }

    fn note_item(&mut self, store: &'a Store, at: usize, item: Item) -> Result<(), Memory>
        requires { CitesWell store.now item }
        ensures { OnOk result (NotesItems self.old self.new at (plain store.now item ∷ [])) }
    {
        match item {
            Item::Opening { kind, head, .. } => {
                self.note_opening(store, at, kind, head)?;
                Ok(())
            }
            Item::Char { .. } => Ok(()),
            Item::Closing { .. } => Ok(()),
        }
    }

    fn note_piece(&mut self, store: &'a Store, at: usize, piece: &[Item]) -> Result<(), Memory>
        requires cites { All (CitesWell store.now) piece.now }
        requires fits { at + length piece.now < 2 ^ 64 }
        ensures { OnOk result (NotesItems self.old self.new at (plain_list store.now piece.now)) }
    {
        for (i, item) in piece.iter().enumerate() {
            self.note_item(store, at + i, *item)?;
        }
        Ok(())
    }
}

/// The notes of a list. It goes over borrowed pieces.
pub fn notes_of<'a>(alloc: Global, list: &Linear, store: &'a Store) -> Result<Notes<'a>, Memory>
    requires { All (CitesWell store.now) list.now.items }
    ensures { IfOk result (λ notes. HasNoted notes (plain_list store.now list.now.items)) }
{
    let mut notes = Notes::new(alloc);
    let mut at = 0;
    while at < list.len() {
        let piece = list.piece(at, list.len());
        notes.note_piece(store, at, piece)?;
        at += piece.len();
    }
    Ok(notes)
}
