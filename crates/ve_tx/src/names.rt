// Names that are noted one after the other.
ghost use Rattle.std.specs.Prelude.{◌≡◌, ◌↔◌, ◌⊎◌, [], ℕ, List, Contains, IsTrue, IfOk, OnOk};

use std::alloc::Global;
use std::collections::BTreeSet;
use std::marker::Model;
use ve_base::{Memory, Text};

/// The names that were noted, each once. They are kept in the order of their bytes, so that a name
/// is looked for by few comparisons. They are lent, not copied.
pub struct Names<'a> {
    noted: BTreeSet<&'a str>,
}

impl<'a> Drop for Names<'a> {
    fn drop(self) {
        let Names { noted } = self;
        drop(noted);
    }
}

impl<'a> Model for Names<'a> {
    ghost use Rattle.std.specs.Prelude.{ℕ, List, All};
    ghost use Rattle.ve_tx.specs.Noted.{IsEncoded, texts_of};

    ghost Value = { List (List ℕ) };

    ghost view = { λ names. texts_of names.noted.keys };

    ghost invariant = { λ names. All IsEncoded names.noted.keys };
}

impl<'a> Names<'a> {
    /// No names. It takes no memory.
    pub fn new(alloc: Global) -> Names<'a>
        ensures { result ≡ [] }
    {
        Names {
            noted: BTreeSet::new(alloc),
        }
    }

    /// Forgets all names.
    pub fn clear(&mut self)
        ensures { self.new ≡ [] }
    {
        self.noted.clear();
    }

    /// Notes a name, and says whether it is new.
    pub fn note(&mut self, name: &'a Text) -> Result<bool, Memory>
        ensures new { IfOk result (λ is_new. IsTrue is_new ↔ (¬ Contains self.old name.now)) }
        ensures noted { OnOk result ((other : List ℕ)
            → Contains self.new other ↔ ((name.now ≡ other) ⊎ Contains self.old other)) }
    {
        let is_new = self.noted.insert(name.as_str())?;
        Ok(is_new)
    }
}
