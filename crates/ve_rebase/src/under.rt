// A site's entries joined over an entry of another site, until two transactions conflict.
ghost use Rattle.std.specs.Prelude.{◌≡◌, ◌<◌, ◌+◌, ◌++◌, All, length, slice_get, Some, IfOk, IfErr, OnErr};
ghost use Rattle.ve_tx.specs.ByValue.{parcel_by_value};
ghost use Rattle.ve_rebase.specs.Entries.{parcels_by_value};
ghost use Rattle.ve_rebase.specs.Lists.{RunFromOneLength};
ghost use Rattle.ve_rebase.specs.Shifted.{IsShifted};
ghost use Rattle.ve_rebase.specs.Under.{all_over, AreUnder, IsJoinedUnder, IsRefusedUnder, MeetUnder, WereJoined};

use crate::RebaseFault;
use crate::entries::parcel_with;
use crate::join_lists::rows;
use crate::shifted::{Shifted, begun, written};
use std::alloc::Global;
use ve_base::Memory;
use ve_tx::{Entry, EntryList, Parcel};

/// A site's entries over an entry of another site, up to the first conflict.
#[derive(Drop)]
pub struct EntriesUnder {
    /// The other's entry, as it is over the entries that are kept.
    pub committed: Parcel,
    /// The entries before the first conflict, or all, as they are over the other's entry.
    pub kept: EntryList,
}

/// The entry at a position of two lists, the one after the other.
pub fn entry_in<'a>(first: &'a [Entry], second: &'a [Entry], at: usize) -> &'a Entry
    requires { at < length first.now + length second.now }
    ensures { slice_get (first.now ++ second.now) at ≡ Some result.now }
{
    if at < first.len() {
        return &first[at];
    }
    &second[at - first.len()]
}

/// Transactions as they are moved so far, to be moved on.
fn copied<'a>(alloc: Global, over: &[Shifted<'a>]) -> Result<Vec<Shifted<'a>>, Memory>
    ensures { IfOk result (λ all. all.items ≡ over.now) }
{
    let mut all = Vec::new(alloc);
    all.extend_from_slice(over)?;
    Ok(all)
}

/// The next entry joined over the other's transactions as they are by now. At an `Err` these stay
/// as they are.
fn joined_under(
    alloc: Global,
    over: &mut Vec<Shifted<'_>>,
    mine: &Entry,
) -> Result<Entry, RebaseFault>
    requires shifted { All IsShifted over.old.items }
    requires meet { MeetUnder over.old.items mine.now }
    ensures joined { IfOk result (λ made.
        IsJoinedUnder over.old.items mine.now over.new.items made) }
    ensures kept { OnErr result (over.new.items ≡ over.old.items) }
    ensures refused { IfErr result (IsRefusedUnder over.old.items mine.now) }
{
    let mut moved = copied(alloc, over.as_slice())?;
    let mut entry = begun(alloc, mine.txs.as_slice())?;
    rows(&mut moved, &mut entry)?;
    let txs = written(alloc, entry.as_slice())?;
    *over = moved;
    Ok(Entry {
        txs,
        store_before: mine.store_before,
        store_after: mine.store_after,
        takes_back: mine.takes_back,
    })
}

/// The entries of both lists joined over the other's, one after the other, up to the first
/// conflict: the other's transactions moved over those before it, and these.
fn joined_all<'a>(
    alloc: Global,
    foreign: &'a Parcel,
    sent: &[Entry],
    unsent: &[Entry],
) -> Result<(Vec<Shifted<'a>>, EntryList), Memory>
    requires { (values : _)
        → RunFromOneLength (parcel_by_value foreign.now) (
        parcels_by_value (all_over values (sent.now ++ unsent.now))) }
    ensures { IfOk result (λ two.
        WereJoined foreign.now (sent.now ++ unsent.now) two.0.items two.1) }
{
    let Some(count) = sent.len().checked_add(unsent.len()) else {
        return Err(Memory);
    };
    let mut over = begun(alloc, foreign.entry.txs.as_slice())?;
    let mut kept = EntryList::new(alloc);
    for i in 0..count {
        match joined_under(alloc, &mut over, entry_in(sent, unsent, i)) {
            Ok(made) => kept.push(made)?,
            Err(RebaseFault::Conflict { .. }) => return Ok((over, kept)),
            Err(RebaseFault::Memory) => return Err(Memory),
        }
    }
    Ok((over, kept))
}

/// The entries that a site sent and those that it didn't send, joined over an entry of another
/// site, one after the other, up to the first conflict. The result is those before it, and the
/// other's entry over them. Each entry that is kept keeps both numbers, the other's its values, and
/// each has as many transactions as before.
///
/// The only `Err` is want of memory, which is also the answer where a joined transaction would be
/// longer than a transaction may be. The other's transactions are moved along as a span each, and
/// written once.
pub fn entries_under(
    alloc: Global,
    foreign: &Parcel,
    sent: &[Entry],
    unsent: &[Entry],
) -> Result<EntriesUnder, Memory>
    requires { (values : _)
        → RunFromOneLength (parcel_by_value foreign.now) (
        parcels_by_value (all_over values (sent.now ++ unsent.now))) }
    ensures { IfOk result (AreUnder foreign.now (sent.now ++ unsent.now)) }
{
    let (over, kept) = joined_all(alloc, foreign, sent, unsent)?;
    let committed = parcel_with(alloc, foreign, over.as_slice())?;
    Ok(EntriesUnder { committed, kept })
}
