//! The names of a start tag's attributes.

ghost use Rattle.std.specs.Prelude.{◌≡◌, ◌≤◌, ◌<◌, ◌+◌, ◌==◌, ◌||◌, ℕ, List, [], not, length, take, insert, if◌then◌else◌};
ghost use Rattle.model_spelling.specs.Grammar.{name_same};
ghost use Rattle.ve_base.specs.Limits.{max_attributes};
ghost use Rattle.ve_kinds.specs.Tags.{is_one_of};

use std::marker::Model;
use ve_base::MAX_ATTRIBUTES;

/// Names of a tag's attributes, each once. They are kept in the order of their bytes, so that a
/// name is looked for by few comparisons.
#[derive(Drop)]
pub struct AttrNames<'a> {
    sorted: [&'a [u8]; MAX_ATTRIBUTES],
    len: usize,
}

impl<'a> Model for AttrNames<'a> {
    ghost use Rattle.std.specs.Prelude.{◌≤◌, ℕ, List, take};
    ghost use Rattle.ve_base.specs.Limits.{max_attributes};
    ghost use Rattle.ve_html_scan.specs.Names.{texts, CanBeSearched};

    ghost Value = { List (List ℕ) };

    ghost view = { λ names. texts (take names.len names.sorted) };

    ghost invariant = { λ names. (names.len ≤ max_attributes) × CanBeSearched (take names.len names.sorted) };
}

/// Puts a name before those from that position on, where the first `len` are names.
fn put_name<'a>(names: &mut [&'a [u8]], len: usize, place: usize, name: &'a [u8])
    requires place { place ≤ len }
    requires room { len < length names.old }
    ensures { take (len + 1) names.new ≡ insert (take len names.old) place name.entry }
{
    names[len] = name;
    names[place..len + 1].rotate_right(1);
}

impl<'a> AttrNames<'a> {
    pub fn new() -> AttrNames<'a>
        ensures { result ≡ [] }
    {
        AttrNames {
            sorted: [&[]; MAX_ATTRIBUTES],
            len: 0,
        }
    }

    pub fn clear(&mut self)
        ensures { self.new ≡ [] }
    {
        self.len = 0;
    }

    /// Whether there are as many as a tag may have.
    pub fn is_full(&self) -> bool
        ensures value { result ≡ (length self.now == max_attributes) }
        ensures bound { length self.now ≤ max_attributes }
    {
        self.len == MAX_ATTRIBUTES
    }

    /// Adds a name, where it isn't among them; answers whether it was added.
    pub fn insert(&mut self, name: &'a [u8]) -> bool
        requires { length self.old < max_attributes }
        ensures added { result ≡ not (is_one_of self.old name.now) }
        ensures known { (x : List ℕ)
            → is_one_of self.new x ≡ (name_same name.now x || is_one_of self.old x) }
        ensures len { length self.new ≡ (if result then length self.old + 1 else length self.old) }
    {
        let len = self.len;
        match self.sorted[..len].binary_search(&name) {
            Ok(_) => false,
            Err(place) => {
                put_name(&mut self.sorted, len, place, name);
                self.len = len + 1;
                true
            }
        }
    }
}
