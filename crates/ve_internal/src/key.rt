// The key of a reference, and its group alone, as keys of hash tables. Both are borrowed, so that
// nothing is copied for a look-up.
ghost use Rattle.std.specs.Prelude.{◌≡◌, ◌↔◌, IsTrue, fold};
ghost use Rattle.ve_base.specs.Digest.{text_input};
ghost use Rattle.ve_internal.specs.Keys.{ref_key_input};

use std::hash::{Hash, Hasher};
use std::marker::Model;
use ve_base::{Key, RefKey, Same, Text};

/// The key of a reference.
#[derive(Drop)]
pub struct LentKey<'a> {
    pub key: &'a RefKey,
}

impl<'a> Model for LentKey<'a> {
    ghost use Rattle.ve_base.specs.declared.head.RefKey.{RefKey as Key};

    ghost Value = { Key };

    ghost view = { λ k. k.key.now };
}

impl<'a> PartialEq for LentKey<'a> {
    ghost use Rattle.model_items.specs.Same.{ref_key_same};
    ghost use Rattle.ve_internal.specs.Keys.{ref_key_same-partial};

    ghost eq = { ref_key_same };

    ghost laws = { ref_key_same-partial };

    fn eq(&self, other: &LentKey<'a>) -> bool {
        self.key.same(other.key)
    }
}

impl<'a> Eq for LentKey<'a> {
    ghost use Rattle.ve_internal.specs.Keys.{ref_key_same-equivalence};

    ghost laws = { ref_key_same-equivalence };
}

impl<'a> Hash for LentKey<'a> {
    ghost use Rattle.ve_internal.specs.Keys.{ref_key_input, ref_key_input-same};

    ghost hash_input = { ref_key_input };

    ghost respects_eq = { ref_key_input-same };

    fn hash<H: Hasher>(&self, state: &mut H) {
        hash_key(self.key, state);
    }
}

fn hash_text<H: Hasher>(text: &Text, state: &mut H)
    ensures { state.new ≡ fold H.write state.old (text_input text.now) }
{
    text.as_str().hash(state);
}

fn hash_key<H: Hasher>(key: &RefKey, state: &mut H)
    ensures { state.new ≡ fold H.write state.old (ref_key_input key.now) }
{
    hash_text(&key.group, state);
    match &key.key {
        Key::Named(name) => hash_text(name, state),
        Key::Auto(number) => state.write_u32(*number),
    }
}

/// The group of a reference.
#[derive(Drop)]
pub struct LentGroup<'a> {
    pub group: &'a Text,
}

impl<'a> Model for LentGroup<'a> {
    ghost use Rattle.std.specs.Prelude.{ℕ, List};

    ghost Value = { List ℕ };

    ghost view = { λ g. g.group.now };
}

impl<'a> PartialEq for LentGroup<'a> {
    ghost use Rattle.model_items.specs.Same.{text_same};
    ghost use Rattle.ve_internal.specs.Keys.{text_same-partial};

    ghost eq = { text_same };

    ghost laws = { text_same-partial };

    fn eq(&self, other: &LentGroup<'a>) -> bool {
        self.group.same(other.group)
    }
}

impl<'a> Eq for LentGroup<'a> {
    ghost use Rattle.ve_internal.specs.Keys.{text_same-equivalence};

    ghost laws = { text_same-equivalence };
}

impl<'a> Hash for LentGroup<'a> {
    ghost use Rattle.ve_internal.specs.Keys.{text_input-same};
    ghost use Rattle.ve_base.specs.Digest.{text_input};

    ghost hash_input = { text_input };

    ghost respects_eq = { text_input-same };

    fn hash<H: Hasher>(&self, state: &mut H) {
        hash_text(self.group, state);
    }
}
