//! Joining of changes on one list, and whether they conflict. `conflict` is the model's `conflict`:
//! two transactions that set attributes alone conflict where operations of theirs meet at a
//! position, all others where their active ranges overlap. `pair` is the model's `join`, or both
//! active ranges where they conflict. `lists` is the model's `join_list`, or the ranges of the
//! first two that conflict: it keeps a span for each transaction and writes each result once.
//! `entry_over_list` is the same of entries, each of which cites its own values.
//! `entries_over_list` joins entries one after the other up to the first conflict (the model's
//! `join_entries`), as a server accepts them. `entries_under` joins a site's entries so over an
//! entry of another site, as a site keeps them. `entries_under_all` does it over several such
//! entries, up to the first of these that is in conflict, and writes the site's once.
//!
//! It knows transactions by their operations and reads no value that these cite. So its clauses
//! hold over every list of values. It knows neither lists of items nor stores.
//!
//! Definitions, in reading order. `Span` is what a transaction leaves before and after its active
//! range, and the lengths between. `Totals` and `Places` are the results of one pass over
//! operations. `Pair` has both results by value, and when they are refused. `Lists` says when lists
//! may be joined, and what a refusal names. `Entries` has entries by value, and what stays of them.
//! `Shifted` has transactions as joining has moved them so far, and rows of them joined. `Until`
//! joins entries up to the first conflict. `Under` joins a site's entries so over another's and over
//! several, with the outcomes for that. `Moved` has what the private functions of the latter make.
//! Then come `Laws`.
//!
//! Laws: `spans_decide` says that the spans of two joined transactions, their lengths and whether
//! their ranges overlap are found from the two spans alone. `joined_stay_normal` says that joined
//! transactions keep the bound of 2^60 where the list with all that both sides insert is within it.
//!
//! What is moved along as spans is copied before an entry that may conflict, or before several that
//! are tried at once. A conflict leaves it half moved, and what was joined up to it has to stand: the
//! other's transactions over entries of a site, or these over entries of others.
#![tactic(auto)]

mod all_under;
mod entries;
mod fault;
mod join;
mod join_lists;
mod laws;
mod places;
mod read;
mod shifted;
mod span;
mod totals;
mod under;
mod until;

pub use all_under::{EntriesUnderAll, entries_under_all};
pub use entries::entry_over_list;
pub use fault::RebaseFault;
pub use join::{conflict, pair};
pub use join_lists::lists;
pub use laws::{joined_stay_normal, spans_decide};
pub use read::span_of;
pub use span::ActiveSpan;
pub use under::{EntriesUnder, entries_under, entry_in};
pub use until::{JoinedEntries, entries_over_list};
