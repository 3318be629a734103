// Faults of a text whose tokens can't be read to its end.
use thiserror::Error;

/// A character or a construct that no spelling allows. It is found from left to right, and the
/// first that is found decides.
#[derive(Clone, Copy, Debug, PartialEq, Eq)]
pub enum ScanWhat {
    /// `<` begins no tag and no comment, or the name of a tag isn't allowed.
    BadTag,
    /// Neither a whole attribute nor the end of the tag follows.
    BadAttribute,
    /// The name stood before in this tag.
    DuplicateAttribute,
    /// As many attributes as a tag may have stand before it.
    TooManyAttributes,
    /// `&` doesn't start one of the six references.
    BadReference,
    /// U+0000 or U+000D.
    BadChar,
    /// The text ends inside a tag.
    UnclosedTag,
    /// The text ends inside a comment.
    UnclosedComment,
    /// The text ends before a raw element's end tag.
    UnclosedRaw,
    /// A doctype in a body.
    Doctype,
    /// A whole page without a body.
    NoBody,
}

/// The first fault from the left, and the number of the byte that it names.
#[derive(Clone, Copy, Debug, PartialEq, Eq, Error)]
#[error("{what:?} at byte {at}")]
pub struct ScanFault {
    pub at: usize,
    pub what: ScanWhat,
}
