// The key of a body as a key of a hash table.
ghost use Rattle.std.specs.Prelude.{◌≡◌, fold};
ghost use Rattle.ve_base.specs.Digest.{text_input};
ghost use Rattle.ve_internal.specs.Keys.{ref_key_input};

use std::hash::{Hash, Hasher};
use std::marker::Model;
use ve_base::{Key, RefKey, Same, Text};

/// A key that is looked up by its hash. Equal are equal keys alone.
#[derive(Drop)]
pub struct OwnedKey {
    pub key: RefKey,
}

impl Model for OwnedKey {
    ghost use Rattle.ve_base.specs.declared.head.RefKey.{RefKey as Key};

    ghost Value = { Key };

    ghost view = { λ k. k.key };
}

impl PartialEq for OwnedKey {
    ghost use Rattle.model_items.specs.Same.{ref_key_same};
    ghost use Rattle.ve_internal.specs.Keys.{ref_key_same-partial};

    ghost eq = { ref_key_same };

    ghost laws = { ref_key_same-partial };

    fn eq(&self, other: &OwnedKey) -> bool {
        self.key.same(&other.key)
    }
}

impl Eq for OwnedKey {
    ghost use Rattle.ve_internal.specs.Keys.{ref_key_same-equivalence};

    ghost laws = { ref_key_same-equivalence };
}

impl Hash for OwnedKey {
    ghost use Rattle.ve_internal.specs.Keys.{ref_key_input, ref_key_input-same};

    ghost hash_input = { ref_key_input };

    ghost respects_eq = { ref_key_input-same };

    fn hash<H: Hasher>(&self, state: &mut H) {
        hash_text(&self.key.group, state);
        match &self.key.key {
            Key::Named(name) => hash_text(name, state),
            Key::Auto(number) => state.write_u32(*number),
        }
    }
}

fn hash_text<H: Hasher>(text: &Text, state: &mut H)
    ensures { state.new ≡ fold H.write state.old (text_input text.now) }
{
    text.as_str().hash(state);
}
