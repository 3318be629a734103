// One item of a page's flat list, with its values written out.
use ve_base::{Head, Marks, Text};
use ve_kinds::Kind;

/// An item by value: what an `Item` means over the list of values that it cites. An empty head is
/// no head.
#[derive(Drop)]
pub enum PlainItem {
    /// One Unicode scalar value, with the marks on it, outermost first.
    Char {
        ch: char,
        marks: Marks,
    },
    /// Where a node begins.
    Opening {
        kind: Kind,
        head: Head,
        marks: Marks,
        pre: Text,
        origin: Option<u32>,
        generated: bool,
    },
    /// Where a node ends.
    Closing {
        kind: Kind,
        pre: Text,
    },
}
