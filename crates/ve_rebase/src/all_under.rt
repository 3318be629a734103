// A site's entries joined over entries of other sites, until one of these is in conflict.
ghost use Rattle.std.specs.Prelude.{◌≡◌, ◌≤◌, ◌++◌, All, map, IfOk, IfErr, OnOk, OnErr};
ghost use Rattle.ve_tx.specs.ByValue.{parcel_by_value};
ghost use Rattle.ve_rebase.specs.Entries.{parcels_by_value};
ghost use Rattle.ve_rebase.specs.Lists.{RunFromOneLength};
ghost use Rattle.ve_rebase.specs.Shifted.{IsShifted, operations};
ghost use Rattle.ve_rebase.specs.Under.{all_over, AreAllUnder};
ghost use Rattle.ve_rebase.specs.Moved.{all_operations, AreBegun, AreMoved, AreWrittenInto, IsMovedOver, IsMoveRefused, IsWrittenInto, MeetMoved, WereMoved};

use crate::RebaseFault;
use crate::entries::{all_begun, parcel_with, parcels_with};
use crate::join_lists::rows;
use crate::shifted::{Shifted, begun, written};
use crate::under::entry_in;
use std::alloc::Global;
use std::mem::swap;
use ve_base::Memory;
use ve_tx::{Entry, EntryList, Parcel, ParcelList};

// How many entries of others are tried at once, at most: their spans stay in the nearest cache.
const AT_ONCE: usize = 64;

/// A site's entries over entries of other sites, up to the first of these that is in conflict.
#[derive(Drop)]
pub struct EntriesUnderAll {
    /// The others' entries before the first that is in conflict, or all: each as it is over the
    /// site's entries by then.
    pub committed: ParcelList,
    /// All of the site's entries, as they are over those.
    pub kept: EntryList,
}

/// The transactions of the entries of both lists, before any is moved.
fn both_begun<'a>(
    alloc: Global,
    sent: &'a [Entry],
    unsent: &'a [Entry],
) -> Result<Vec<Shifted<'a>>, Memory>
    ensures { IfOk result (λ all. AreBegun (sent.now ++ unsent.now) all.items) }
{
    let Some(count) = sent.len().checked_add(unsent.len()) else {
        return Err(Memory);
    };
    let mut all = Vec::new(alloc);
    for i in 0..count {
        let entry = entry_in(sent, unsent, i);
        let mut some = begun(alloc, entry.txs.as_slice())?;
        all.append(&mut some)?;
    }
    Ok(all)
}

/// Puts these into the buffer, in the place of what it holds.
fn put_into<'a>(buffer: &mut Vec<Shifted<'a>>, all: &[Shifted<'a>]) -> Result<(), Memory>
    ensures { OnOk result (buffer.new.items ≡ all.now) }
{
    buffer.clear();
    buffer.extend_from_slice(all)?;
    Ok(())
}

/// Mine moved over an entry of another site, and that entry over mine. At an `Err` mine stay as
/// they are. The buffer is for a copy of them, since a conflict leaves what is joined half moved.
fn moved_over<'a>(
    alloc: Global,
    foreign: &Parcel,
    mine: &mut Vec<Shifted<'a>>,
    buffer: &mut Vec<Shifted<'a>>,
) -> Result<Parcel, RebaseFault>
    requires shifted { All IsShifted mine.old.items }
    requires meet { MeetMoved (parcel_by_value foreign.now) mine.old.items }
    ensures moved { IfOk result (IsMovedOver foreign.now mine.old.items mine.new.items) }
    ensures kept { OnErr result (mine.new.items ≡ mine.old.items) }
    ensures refused { IfErr result (IsMoveRefused foreign.now mine.old.items) }
{
    let mut over = begun(alloc, foreign.entry.txs.as_slice())?;
    put_into(buffer, mine.as_slice())?;
    rows(&mut over, buffer)?;
    let made = parcel_with(alloc, foreign, over.as_slice())?;
    swap(mine, buffer);
    Ok(made)
}

/// Mine moved over all of these entries at once, and these over mine: the same as one after the
/// other, where none is in conflict. At an `Err` mine stay as they are.
fn moved_at_once<'a>(
    alloc: Global,
    foreign: &[Parcel],
    mine: &mut Vec<Shifted<'a>>,
    buffer: &mut Vec<Shifted<'a>>,
) -> Result<ParcelList, RebaseFault>
    requires shifted { All IsShifted mine.old.items }
    requires meet { MeetMoved (parcels_by_value foreign.now) mine.old.items }
    ensures moved { IfOk result (AreMoved foreign.now mine.old.items mine.new.items) }
    ensures kept { OnErr result (mine.new.items ≡ mine.old.items) }
{
    let mut all = all_begun(alloc, foreign)?;
    put_into(buffer, mine.as_slice())?;
    rows(&mut all, buffer)?;
    let made = parcels_with(alloc, foreign, all.as_slice())?;
    swap(mine, buffer);
    Ok(made)
}

/// How many entries are tried at once after so many that were in no conflict.
fn longer(count: usize) -> usize
    requires { 1 ≤ count }
    ensures { 1 ≤ result }
{
    if count < AT_ONCE { count * 2 } else { count }
}

/// So many, or all where fewer are left.
fn within(count: usize, left: usize) -> usize
    requires some { 1 ≤ count }
    requires more { 1 ≤ left }
    ensures some { 1 ≤ result }
    ensures left { result ≤ left }
{
    if count < left { count } else { left }
}

/// Mine moved over entries of other sites, one after the other, up to the first that is in
/// conflict with one of them: the others' before it, each over mine as they are by then.
// Several at once cost less: so they are tried, and more of them as long as none is in conflict. One
// that is costs what was tried with it, which is about as much as went before.
fn moved_over_all(
    alloc: Global,
    foreign: &[Parcel],
    mine: &mut Vec<Shifted<'_>>,
) -> Result<ParcelList, Memory>
    requires shifted { All IsShifted mine.old.items }
    requires meet { MeetMoved (parcels_by_value foreign.now) mine.old.items }
    ensures { IfOk result (WereMoved foreign.now mine.old.items mine.new.items) }
{
    let mut buffer = Vec::with_capacity(alloc, mine.len())?;
    let mut committed = ParcelList::new(alloc);
    let mut at = 0;
    let mut count = 1;
    while at < foreign.len() {
        let end = at + within(count, foreign.len() - at);
        match moved_at_once(alloc, &foreign[at..end], mine, &mut buffer) {
            Ok(some) => {
                committed.append(some)?;
                at = end;
                count = longer(count);
                continue;
            }
            Err(RebaseFault::Conflict { .. }) => {}
            Err(RebaseFault::Memory) => return Err(Memory),
        }
        match moved_over(alloc, &foreign[at], mine, &mut buffer) {
            Ok(made) => committed.push(made)?,
            Err(RebaseFault::Conflict { .. }) => return Ok(committed),
            Err(RebaseFault::Memory) => return Err(Memory),
        }
        at += 1;
        count = 1;
    }
    Ok(committed)
}

/// An entry with these transactions in the place of its own.
fn entry_with(alloc: Global, entry: &Entry, all: &[Shifted<'_>]) -> Result<Entry, Memory>
    requires shifted { All IsShifted all.now }
    requires kept { map operations all.now ≡ entry.now.txs }
    ensures { IfOk result (IsWrittenInto entry.now all.now) }
{
    Ok(Entry {
        txs: written(alloc, all)?,
        store_before: entry.store_before,
        store_after: entry.store_after,
        takes_back: entry.takes_back,
    })
}

/// The entries of both lists with these transactions, in order, in the place of their own.
fn both_with(
    alloc: Global,
    sent: &[Entry],
    unsent: &[Entry],
    all: &[Shifted<'_>],
) -> Result<EntryList, Memory>
    requires shifted { All IsShifted all.now }
    requires kept { map operations all.now ≡ all_operations (sent.now ++ unsent.now) }
    ensures { IfOk result (AreWrittenInto (sent.now ++ unsent.now) all.now) }
{
    let Some(count) = sent.len().checked_add(unsent.len()) else {
        return Err(Memory);
    };
    let mut made = EntryList::new(alloc);
    let mut left = all;
    for i in 0..count {
        let entry = entry_in(sent, unsent, i);
        let size = entry.txs.as_slice().len();
        made.push(entry_with(alloc, entry, &left[..size])?)?;
        left = &left[size..];
    }
    Ok(made)
}

/// The entries that a site sent and those that it didn't send, joined over entries of other sites,
/// one after the other, up to the first of these that is in conflict with one of them. The result
/// is the others' before it, and all of the site's over those. Each of the site's keeps both
/// numbers, each of the others' its values and numbers, and each has as many transactions as
/// before.
///
/// The only `Err` is want of memory, which is also the answer where a joined transaction would be
/// longer than a transaction may be. The site's transactions are moved along as a span each, over
/// all of the others', and written once.
pub fn entries_under_all(
    alloc: Global,
    foreign: &[Parcel],
    sent: &[Entry],
    unsent: &[Entry],
) -> Result<EntriesUnderAll, Memory>
    requires { (values : _)
        → RunFromOneLength (parcels_by_value foreign.now) (
        parcels_by_value (all_over values (sent.now ++ unsent.now))) }
    ensures { IfOk result (AreAllUnder foreign.now (sent.now ++ unsent.now)) }
{
    let mut all = both_begun(alloc, sent, unsent)?;
    let committed = moved_over_all(alloc, foreign, &mut all)?;
    let kept = both_with(alloc, sent, unsent, all.as_slice())?;
    Ok(EntriesUnderAll { committed, kept })
}
