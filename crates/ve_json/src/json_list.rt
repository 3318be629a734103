// Values that are serialised as JSON, and lists of them.
ghost use Rattle.std.specs.Prelude.{◌≡◌, ◌++◌, ◌∷◌, map, OnOk};
ghost use Rattle.serde_json.specs.Data.{Data};
ghost use Rattle.serde_json.specs.Written.{comma_if, compact_text};
ghost use Rattle.model_world.specs.Shown.{json_list};

use crate::spelling::Spelling;
use std::alloc::Global;
use ve_base::Memory;

/// A value that is serialised as JSON.
pub trait Json {
    /// Its JSON.
    ghost shown: { Self → Data };

    /// Appends it as JSON with no space. An `Err` may leave a part appended.
    fn push_json(&self, alloc: Global, out: &mut Spelling) -> Result<(), Memory>
        ensures ok { OnOk result (out.new.text ≡ out.old.text ++ compact_text (shown self.now)) }
        ensures before { out.new.before ≡ out.old.before };
}

/// Appends a comma, where something stands before.
pub fn push_comma(later: bool, out: &mut Spelling) -> Result<(), Memory>
    ensures ok { OnOk result (out.new.text ≡ out.old.text ++ comma_if later) }
    ensures before { out.new.before ≡ out.old.before }
{
    if later {
        return out.push_byte(b',');
    }
    Ok(())
}

/// Appends a member of a list, after a comma where another stands before it.
fn push_member<T: Json>(
    alloc: Global,
    member: &T,
    later: bool,
    out: &mut Spelling,
) -> Result<(), Memory>
    ensures ok { OnOk result (
        out.new.text ≡ out.old.text ++ (comma_if later ++ compact_text (T.shown member.now))) }
    ensures before { out.new.before ≡ out.old.before }
{
    push_comma(later, out)?;
    member.push_json(alloc, out)
}

/// Appends members as a list of JSON. An `Err` may leave a part appended.
pub fn push_list<T: Json>(alloc: Global, members: &[T], out: &mut Spelling) -> Result<(), Memory>
    ensures ok { OnOk result (
        out.new.text ≡ out.old.text ++ compact_text (json_list (map T.shown members.now))) }
    ensures before { out.new.before ≡ out.old.before }
{
    out.push_byte(b'[')?;
    for i in 0..members.len() {
        push_member(alloc, &members[i], 0 < i, out)?;
    }
    out.push_byte(b']')
}
