// The owners so far, by their keys.
ghost use Rattle.std.specs.Prelude.{◌≡◌, ◌&&◌, ◌<◌, ◌++◌, ◌∷◌, [], false, length, slice_get, Some, IfOk, IfSome, OnOk, OnErr};
ghost use Rattle.std.specs.Str.{encode_utf8_all};
ghost use Rattle.model_page.specs.ReferenceNodes.{is_owned};
ghost use Rattle.ve_reader.specs.Claimed.{claim_of, lent_owner, text_key};
ghost use Rattle.ve_reader.specs.Owned.{count_next};

use crate::key::OwnedKey;
use indexmap::IndexMap;
use std::alloc::Global;
use std::marker::Model;
use ve_base::{Hashing, Key, Memory, RefKey, Text};
use ve_internal::RefRead;

/// The claim of a reference by its `data-mw`: its key, and the text of the body that it owns, if it
/// owns one.
#[derive(Drop)]
pub struct Claim {
    pub key: RefKey,
    pub html: Option<Text>,
}

/// An owner: the byte of the page where it starts, its key, and the text of its body.
#[derive(Clone, Copy)]
pub struct Owner<'a> {
    pub at: usize,
    pub key: &'a RefKey,
    pub html: &'a str,
}

/// Where an owner starts, and the text of its body.
#[derive(Drop)]
struct OwnedBody {
    at: usize,
    html: Text,
}

/// The owners of bodies in the order in which they came, seen as model_page's list of them. Each
/// has its own key.
#[derive(Drop)]
pub struct Owners {
    bodies: IndexMap<OwnedKey, OwnedBody, Hashing>,
    // how many of them have no name
    unnamed: u32,
}

impl Model for Owners {
    ghost use Rattle.std.specs.Prelude.{◌≡◌, List};
    ghost use Rattle.model_page.specs.Pieces.{Owner as PageOwner};
    ghost use Rattle.model_page.specs.ReferenceNodes.{auto_count};
    ghost use Rattle.ve_reader.specs.Owned.{owners_in};

    ghost Value = { List PageOwner };

    ghost view = { λ o. owners_in o.bodies.entries };

    ghost invariant = { λ o. o.unnamed ≡ auto_count (owners_in o.bodies.entries) };
}

/// How many owners have no name, with one more of this key.
fn count_with(unnamed: u32, key: &RefKey) -> Result<u32, Memory>
    ensures { IfOk result (λ count. count ≡ count_next unnamed key.now) }
{
    match &key.key {
        Key::Named(_) => Ok(unnamed),
        Key::Auto(_) => match unnamed.checked_add(1) {
            Some(count) => Ok(count),
            None => Err(Memory),
        },
    }
}

fn is_barred(owns: bool, taken: bool) -> bool
    ensures { result ≡ (owns && taken) }
{
    owns && taken
}

impl Owners {
    /// No owners. It takes no memory.
    pub fn new(alloc: Global) -> Owners
        ensures { result ≡ [] }
    {
        Owners {
            bodies: IndexMap::with_hasher(alloc, Hashing::new()),
            unnamed: 0,
        }
    }

    /// How many owners there are.
    pub fn len(&self) -> usize
        ensures { result ≡ length self.now }
    {
        self.bodies.len()
    }

    /// The owner at a position.
    pub fn get(&self, place: usize) -> Owner<'_>
        requires { place < length self.now }
        ensures { slice_get self.now place ≡ Some (lent_owner result) }
    {
        match self.bodies.get_index(place) {
            Some((owned, body)) => Owner {
                at: body.at,
                key: &owned.key,
                html: body.html.as_str(),
            },
            None => unreachable!(),
        }
    }

    /// The key that a reference gets: its group, and its name or the number of owners without one.
    fn key_for(&self, group: Text, name: Option<Text>) -> RefKey
        ensures { result ≡ text_key self.now group name }
    {
        let key = match name {
            Some(name) => Key::Named(name),
            None => Key::Auto(self.unnamed),
        };
        RefKey { group, key }
    }

    /// The claim of a reference after these owners, by the reading of its `data-mw`. None where it
    /// would own a body that has an owner. It takes no memory.
    pub fn claim(&self, reading: RefRead) -> Option<Claim>
        ensures claim { result ≡ claim_of self.now reading }
        ensures free { IfSome result (λ c. IfSome c.html (λ _. is_owned self.now c.key ≡ false)) }
    {
        let owned = OwnedKey {
            key: self.key_for(reading.group, reading.name),
        };
        let taken = self.bodies.contains_key(&owned);
        if is_barred(reading.html.is_some(), taken) {
            return None;
        }
        Some(Claim {
            key: owned.key,
            html: reading.html,
        })
    }

    /// One owner more, of a key that none has: it starts at a byte of the page, and its body has
    /// this text. An `Err` changes nothing.
    pub fn push(&mut self, at: usize, key: RefKey, html: Text) -> Result<(), Memory>
        requires { is_owned self.old key ≡ false }
        ensures ok { OnOk result (
            self.new
            ≡ self.old ++ record { at = at; key = key; html = encode_utf8_all html } ∷ []) }
        ensures err { OnErr result (self.new ≡ self.old) }
    {
        let unnamed = count_with(self.unnamed, &key)?;
        self.bodies
            .insert(OwnedKey { key }, OwnedBody { at, html })?;
        self.unnamed = unnamed;
        Ok(())
    }
}
