// What transactions leave at the ends of a list.
ghost use Rattle.std.specs.Prelude.{◌≡◌, ◌≤◌, map};
ghost use Rattle.model_change.specs.Replay.{flattened};
ghost use Rattle.model_site.specs.Entries.{parcels};
ghost use Rattle.model_site.specs.Site.{pending};
ghost use Rattle.ve_editor.specs.Edited.{entry_by_value};
ghost use Rattle.ve_site.specs.Ends.{LeaveEnds, LeavesEnds, ends_left_by, least_ends, lesser_ends};
ghost use Rattle.ve_tx.specs.ByValue.{parcel_by_value};
ghost use Rattle.ve_tx.specs.Operation.{by_value};

use crate::Site;
use ve_rebase::span_of;
use ve_tx::{Entry, Parcel, Transaction};

/// How many items a list's changes leave as they were, at its beginning and at its end: the least
/// that one of them leaves there.
#[derive(Clone, Copy, Debug)]
pub struct Ends {
    pub prefix: usize,
    pub suffix: usize,
}

impl Ends {
    /// What is left of these ends after one more transaction.
    fn under_one(self, tx: &Transaction) -> Ends
        ensures least { (values : _)
            → result ≡ lesser_ends self (ends_left_by (by_value values tx.now)) }
        ensures within { (result.prefix ≤ self.prefix) × (result.suffix ≤ self.suffix) }
        ensures left { (values : _) → LeavesEnds result (by_value values tx.now) }
    {
        let span = span_of(tx);
        // the range may cover the first item of the last retain: one of which an attribute changes
        let rest = span.removed + span.last;
        let behind = rest.saturating_sub(span.reach);
        let prefix = self.prefix.min(span.first);
        let suffix = self.suffix.min(behind);
        Ends { prefix, suffix }
    }

    /// What is left of these ends after more transactions. One that changes nothing leaves all of a
    /// list at the beginning, and nothing at the end. It takes no memory.
    pub fn under(self, txs: &[Transaction]) -> Ends
        ensures least { (values : _) → result ≡ least_ends self (map (by_value values) txs.now) }
        ensures within { (result.prefix ≤ self.prefix) × (result.suffix ≤ self.suffix) }
        ensures left { (values : _) → LeaveEnds result (map (by_value values) txs.now) }
    {
        let mut ends = self;
        for tx in txs {
            ends = ends.under_one(tx);
        }
        ends
    }

    /// What is left of these ends after entries.
    fn under_entries(self, entries: &[Entry]) -> Ends
        ensures least { (values : _)
            → result
            ≡ least_ends self (flattened (parcels (map (entry_by_value values) entries.now))) }
        ensures within { (result.prefix ≤ self.prefix) × (result.suffix ≤ self.suffix) }
        ensures left { (values : _)
            → LeaveEnds result (flattened (parcels (map (entry_by_value values) entries.now))) }
    {
        let mut ends = self;
        for entry in entries {
            ends = ends.under(entry.txs.as_slice());
        }
        ends
    }
}

/// What is left of ends after entries that are serialised. It takes no memory.
pub fn ends_under(most: Ends, entries: &[Parcel]) -> Ends
    ensures least { result ≡ least_ends most (flattened (map parcel_by_value entries.now)) }
    ensures within { (result.prefix ≤ most.prefix) × (result.suffix ≤ most.suffix) }
    ensures left { LeaveEnds result (flattened (map parcel_by_value entries.now)) }
{
    let mut ends = most;
    for parcel in entries {
        ends = ends.under(parcel.entry.txs.as_slice());
    }
    ends
}

impl Site {
    /// What its pending entries leave of these ends. It takes no memory.
    pub fn ends(&self, most: Ends) -> Ends
        ensures least { result ≡ least_ends most (flattened (parcels (pending self.now.site))) }
        ensures within { (result.prefix ≤ most.prefix) × (result.suffix ≤ most.suffix) }
        ensures left { LeaveEnds result (flattened (parcels (pending self.now.site))) }
    {
        let sent = most.under_entries(self.sent.as_slice());
        sent.under_entries(self.history.done())
    }
}
