// Where an opening comes from, as a line writes it.
ghost use Rattle.std.specs.Prelude.{◌≡◌, None, false, codes, option_map};
ghost use Rattle.serde_json.specs.Find.{as_bool};
ghost use Rattle.serde_json.specs.View.{view, members_view};
ghost use Rattle.model_world.specs.Values as values;
ghost use Rattle.model_world.specs.ItemWords as words;
ghost use Rattle.ve_json.specs.Provenances as provenances;

use crate::values::member;
use serde_json::{Map, Value};
use ve_kinds::{Kind, is_element};

/// The origin of an opening, and whether it was generated.
#[derive(Clone, Copy, Debug, PartialEq, Eq)]
pub struct Provenance {
    pub origin: Option<u32>,
    pub generated: bool,
}

/// An origin: a number.
fn origin_in(json: &Value) -> Option<Option<u32>>
    ensures { result ≡ values.some_number_in (view json.now) }
{
    match json.as_u64() {
        Some(n) if n < 4_294_967_296 => Some(Some(n as u32)),
        _ => None,
    }
}

/// The origin; none where it is absent.
fn origin_among(members: &Map<String, Value>) -> Option<Option<u32>>
    ensures { result
        ≡ values.member_or (codes "origin") None values.some_number_in (
        members_view members.now.entries) }
{
    match member(members, "origin") {
        None => Some(None),
        Some(json) => origin_in(json),
    }
}

/// Whether it was generated; it wasn't where nothing is said.
fn generated_among(members: &Map<String, Value>) -> Option<bool>
    ensures { result
        ≡ values.member_or (codes "gen") false as_bool (members_view members.now.entries) }
{
    match member(members, "gen") {
        None => Some(false),
        Some(json) => json.as_bool(),
    }
}

/// Whether an opening of this kind may come from there: a paragraph alone is generated, and a leaf
/// that no tag spells has an origin.
fn may_come(kind: Kind, provenance: Provenance) -> bool
    ensures { result ≡ words.may_come kind (provenances.meant provenance) }
{
    (!provenance.generated || kind == Kind::P) && (is_element(kind) || provenance.origin.is_some())
}

/// Where an opening of this kind comes from: from nowhere, but where it stands for one that was
/// shown.
pub fn provenance_in(exact: bool, members: &Map<String, Value>, kind: Kind) -> Option<Provenance>
    ensures { option_map provenances.meant result
        ≡ words.provenance_in exact (members_view members.now.entries) kind }
{
    if !exact {
        return Some(Provenance {
            origin: None,
            generated: false,
        });
    }
    let generated = generated_among(members)?;
    let origin = origin_among(members)?;
    let provenance = Provenance { origin, generated };
    if !may_come(kind, provenance) {
        return None;
    }
    Some(provenance)
}
