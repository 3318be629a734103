// A message that a site took from its queue.

/// The message that a site took.
#[derive(Clone, Copy, Debug, PartialEq, Eq)]
pub enum Taken {
    /// Entries of other sites; so many of the site's pending entries were dropped for them.
    Foreign { entries: usize, dropped: usize },
    /// The answer to what the site sent: so many of its entries were accepted.
    Acked { accepted: usize },
}
