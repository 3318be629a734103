// What a site tells whoever keeps a copy of its list.

/// How many patches a site tells one by one. Where there are more, one stands for all.
pub const MAX_PATCHES: usize = 1_000;

/// From a position of a list on, so many items went, and so many came in their place. Patches come
/// one after the other: a position counts the items of the list that the patches before this one
/// gave, and of what this one's transaction put in so far.
#[derive(Clone, Copy, Debug, PartialEq, Eq)]
pub struct Patch {
    pub at: usize,
    pub removed: usize,
    pub inserted: usize,
}
