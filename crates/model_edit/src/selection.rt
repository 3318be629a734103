// Selections, and the moves of a caret.

/// The two ends of what is selected, as offsets in a list of items. A caret has both at one
/// position.
#[derive(Clone, Copy, Debug, PartialEq, Eq)]
pub struct Selection {
    /// The end at which selecting began.
    pub anchor: usize,
    /// The end that moves.
    pub focus: usize,
}

/// On which side of what is inserted at an offset the offset stays.
#[derive(Clone, Copy, Debug, PartialEq, Eq)]
pub enum Bias {
    /// Before it.
    Left,
    /// After it.
    Right,
}

/// Which way a caret moves.
#[derive(Clone, Copy, Debug, PartialEq, Eq)]
pub enum Dir {
    /// Towards the list's beginning.
    Back,
    /// Towards the list's end.
    Ahead,
}

/// How far a caret moves.
#[derive(Clone, Copy, Debug, PartialEq, Eq)]
pub enum By {
    /// To the next boundary of a grapheme cluster.
    Cluster,
    /// To the next boundary of a word.
    Word,
}
