// The brackets of shapes.
ghost use Rattle.std.specs.Prelude.{◌≡◌, ◌∷◌, [], All, length, IfOk, OnOk};
ghost use Rattle.model_items.specs.Plain.{plain, plain_list, CitesWell};
ghost use Rattle.model_edit.specs.Brackets as brackets;
ghost use Rattle.model_edit.specs.Wrap as model;
ghost use Rattle.ve_store.specs.Following.{Grows, together};
ghost use Rattle.ve_edits.specs.Filled.{IsFilledFor};
ghost use Rattle.ve_build_shape.specs.Round.{AreOpenings, AreClosings, AreBrackets};

use model_edit::Shape;
use std::alloc::Global;
use ve_base::{Memory, TryCopy};
use ve_edits::cite_attrs;
use ve_items::{Item, Items};
use ve_store::{NewValues, Store};

/// The brackets of nodes one inside the other: the openings from the outermost in, and the closings
/// from the innermost out.
#[derive(Drop)]
pub struct Brackets {
    pub openings: Items,
    pub closings: Items,
}

/// The opening of a shape: its kind and all its attributes, and nothing else. `new` takes the head
/// where it is new.
fn opening_of(
    alloc: Global,
    store: &Store,
    new: &mut NewValues,
    shape: &Shape,
) -> Result<Item, Memory>
    requires follows { new.old.after ≡ length store.now }
    ensures means { IfOk result (λ item.
        plain (together store.now new.new) item
        ≡ brackets.opening_of shape.now.kind shape.now.attrs) }
    ensures cites { IfOk result (CitesWell (together store.now new.new)) }
    ensures values { OnOk result (
        IsFilledFor store.now new.old new.new (
        brackets.opening_of shape.now.kind shape.now.attrs ∷ [])) }
    ensures grows { Grows new.old new.new }
{
    let attrs = shape.attrs.copy(alloc)?;
    let head = cite_attrs(alloc, store, new, attrs)?;
    Ok(Item::Opening {
        kind: shape.kind,
        head,
        marks: None,
        pre: None,
        origin: None,
        generated: false,
    })
}

/// The openings of shapes, in their order.
fn openings_of(
    alloc: Global,
    store: &Store,
    new: &mut NewValues,
    shapes: &[Shape],
) -> Result<Items, Memory>
    requires follows { new.old.after ≡ length store.now }
    ensures made { IfOk result (AreOpenings store.now new.old new.new shapes.now) }
    ensures grows { Grows new.old new.new }
{
    let mut openings = Items::new(alloc);
    for shape in shapes {
        let opening = opening_of(alloc, store, new, shape)?;
        openings.push(opening)?;
    }
    Ok(openings)
}

/// The closings of shapes, from the last shape back.
fn closings_of(alloc: Global, shapes: &[Shape]) -> Result<Items, Memory>
    ensures means { IfOk result (AreClosings shapes.now) }
    ensures cites { IfOk result (λ items. (values : _) → All (CitesWell values) items) }
{
    let mut closings = Items::new(alloc);
    let mut left = shapes.len();
    while left > 0 {
        left -= 1;
        let kind = shapes[left].kind;
        closings.push(Item::Closing { kind, pre: None })?;
    }
    Ok(closings)
}

/// The brackets of shapes. `new` takes the heads that are new.
pub fn brackets_of(
    alloc: Global,
    store: &Store,
    new: &mut NewValues,
    shapes: &[Shape],
) -> Result<Brackets, Memory>
    requires follows { new.old.after ≡ length store.now }
    ensures means { IfOk result (AreBrackets (together store.now new.new) shapes.now) }
    ensures values { OnOk result (
        IsFilledFor store.now new.old new.new (model.openings_of shapes.now)) }
    ensures grows { Grows new.old new.new }
{
    let openings = openings_of(alloc, store, new, shapes)?;
    let closings = closings_of(alloc, shapes)?;
    Ok(Brackets { openings, closings })
}
