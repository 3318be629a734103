// A page as it is read: its list, the tree of the list, and the values.
use ve_items::Linear;
use ve_store::Store;
use ve_tree::Tree;

/// A page's list with its tree and the values that its items cite, borrowed together. Each call
/// that takes it asks that the tree is the list's.
#[derive(Clone, Copy)]
pub struct Doc<'a> {
    pub list: &'a Linear,
    pub tree: &'a Tree,
    pub store: &'a Store,
}
