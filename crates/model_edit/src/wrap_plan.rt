// The kinds that a wrap puts round nodes and takes off them.
use std::alloc::Global;
use ve_base::{Attrs, ListOf, Memory, TryCopy};
use ve_kinds::Kind;

/// Kinds of nodes one inside the other, the outermost first.
pub type Kinds = ListOf<Kind>;

/// A node to be put round others: its kind and its attributes.
#[derive(Drop)]
pub struct Shape {
    pub kind: Kind,
    pub attrs: Attrs,
}

impl TryCopy for Shape {
    fn copy(&self, alloc: Global) -> Result<Shape, Memory> {
        Ok(Shape {
            kind: self.kind,
            attrs: self.attrs.copy(alloc)?,
        })
    }
}

/// Nodes one inside the other, the outermost first.
pub type Shapes = ListOf<Shape>;

/// The kinds that are taken off a range of sibling nodes and off each of them, and those that are
/// put round them instead.
#[derive(Drop)]
pub struct WrapPlan {
    /// The nodes that now stand round the range.
    pub unwrap_outer: Kinds,
    /// Those that are to stand there.
    pub wrap_outer: Shapes,
    /// The nodes that each sibling now begins and ends with, itself first.
    pub unwrap_each: Kinds,
    /// Those that it is to begin and end with.
    pub wrap_each: Shapes,
}
