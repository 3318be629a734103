// One position at which a list is changed.
use ve_items::Items;

/// One splice of a list: from `at` on, in items of the old list, these items replace so many that
/// are there.
#[derive(Drop)]
pub struct Splice {
    pub at: usize,
    pub removed: usize,
    pub items: Items,
}
