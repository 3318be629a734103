// An opening that is to come.
use ve_base::Head;
use ve_kinds::Kind;

/// An opening without its marks and its whitespace.
#[derive(Drop)]
pub struct Opening {
    pub kind: Kind,
    pub head: Head,
    /// The number of a node of the page that was opened.
    pub origin: Option<u32>,
    /// Of a paragraph: it was made for text that stood in none.
    pub generated: bool,
}
