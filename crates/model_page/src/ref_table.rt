// The references of a page, as a table.
use std::alloc::Global;
use ve_base::{ListOf, Memory, RefKey, TryCopy};

/// A reference of a list of items. Positions count the items before them.
#[derive(Drop)]
pub struct RefRow {
    /// Where its opening stands.
    pub at: usize,
    /// Which body it names.
    pub key: RefKey,
    /// The position of its key, from 1, among the keys of its group in the order of their first
    /// references.
    pub number: u32,
    /// Whether the page that is written has the body at this reference: it is the first owner of
    /// the key, or else the first reference.
    pub carrier: bool,
    /// Where the body's internal item opens, where there is one.
    pub body_at: Option<usize>,
}

/// The references of a list, in order.
pub type RefTable = ListOf<RefRow>;

impl TryCopy for RefRow {
    fn copy(&self, alloc: Global) -> Result<RefRow, Memory> {
        Ok(RefRow {
            at: self.at,
            key: self.key.copy(alloc)?,
            number: self.number,
            carrier: self.carrier,
            body_at: self.body_at,
        })
    }
}
