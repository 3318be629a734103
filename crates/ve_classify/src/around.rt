// Surroundings of parts, and the fit of a part there.
use ve_kinds::Kind;

/// Where parts stand: in a flow parent, in a structural parent, or in content.
#[derive(Clone, Copy, Debug, PartialEq, Eq)]
pub enum Around {
    Flow(Kind),
    Structural(Kind),
    Content,
}

/// The fit of a text, a comment, an element or a group.
#[derive(Clone, Copy, Debug, PartialEq, Eq)]
pub enum Fit {
    /// Whitespace before the next item: a text in a structural parent.
    White,
    /// The characters of a text in content.
    Chars,
    /// A mark on what is in it.
    Annotation,
    /// `br` or `img`.
    Leaf(Kind),
    /// A branch of the kind.
    Branch(Kind),
    /// A leaf of the kind, which keeps its source.
    Whole(Kind),
    /// A part of a run in a flow parent. What it becomes there is its fit in content.
    Inline,
}
