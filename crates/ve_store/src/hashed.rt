// A value as a key of a hash table.
ghost use Rattle.std.specs.Prelude.{◌≡◌, fold};
ghost use Rattle.ve_store.specs.HashInput.{marks_input, reference_input, head_input, value_input};

use std::hash::{Hash, Hasher};
use std::marker::Model;
use ve_base::{Head, Key, Mark, RefKey, Same, Value};

/// A value that is looked up by its hash. Two are equal exactly where their values are.
#[derive(Drop)]
pub(crate) struct Hashed {
    pub(crate) value: Value,
}

impl Model for Hashed {
    ghost use Rattle.ve_base.specs.declared.value.Value.{Value as Cited};

    ghost Value = { Cited };

    ghost view = { λ h. h.value };
}

fn hash_marks<H: Hasher>(marks: &[Mark], state: &mut H)
    ensures { state.new ≡ fold H.write state.old (marks_input marks.now) }
{
    for mark in marks {
        mark.tag.feed(state);
        state.write_u64(mark.attrs.digest());
    }
}

fn hash_reference<H: Hasher>(reference: &Option<RefKey>, state: &mut H)
    ensures { state.new ≡ fold H.write state.old (reference_input reference.now) }
{
    if let Some(reference) = reference {
        reference.group.feed(state);
        match &reference.key {
            Key::Named(name) => name.feed(state),
            Key::Auto(number) => state.write_u32(*number),
        }
    }
}

fn hash_head<H: Hasher>(head: &Head, state: &mut H)
    ensures { state.new ≡ fold H.write state.old (head_input head.now) }
{
    head.tag.feed(state);
    state.write_u64(head.attrs.digest());
    head.raw.feed(state);
    hash_reference(&head.reference, state);
}

impl PartialEq for Hashed {
    ghost use Rattle.model_items.specs.Same.{value_same};
    ghost use Rattle.ve_store.specs.Laws.{value_same-partial};

    ghost eq = { value_same };

    ghost laws = { value_same-partial };

    fn eq(&self, other: &Hashed) -> bool {
        self.value.same(&other.value)
    }
}

impl Eq for Hashed {
    ghost use Rattle.ve_store.specs.Laws.{value_same-equivalence};

    ghost laws = { value_same-equivalence };
}

impl Hash for Hashed {
    ghost use Rattle.ve_store.specs.Laws.{value_input-same};

    ghost hash_input = { value_input };

    ghost respects_eq = { value_input-same };

    fn hash<H: Hasher>(&self, state: &mut H) {
        match &self.value {
            Value::White(text) => text.feed(state),
            Value::Marks(marks) => hash_marks(marks.as_slice(), state),
            Value::Head(head) => hash_head(head, state),
        }
    }
}
