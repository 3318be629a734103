// Messages between sites and server.
use crate::Parcels;

/// A submission of a site: its entries, made on a list with the first `base` committed entries.
#[derive(Drop)]
pub struct Submit {
    /// The number of the site that sends it.
    pub site: u32,
    pub base: usize,
    pub parcels: Parcels,
}

/// A message of the server to a site.
#[derive(Drop)]
pub enum Feed {
    /// Entries of another site, at least one.
    Foreign(Parcels),
    /// How many entries of a submission of its own were accepted.
    Ack(usize),
}
