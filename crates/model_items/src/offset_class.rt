// The class of an offset: characters, nodes or nothing may stand there.

/// The class of an offset, by the innermost node round it.
#[derive(Clone, Copy, Debug, PartialEq, Eq)]
pub enum OffsetClass {
    /// In a node that holds characters.
    Content,
    /// In any other node that holds nodes, or in the root.
    Structural,
    /// In a leaf, where nothing may stand.
    Inside,
}
