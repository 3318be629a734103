// An entry taken back under the entries after it that still count.
ghost use Rattle.std.specs.Prelude.{◌≡◌, ◌<◌, [], false, All, Ok, Some, length, map, IfOk, IfErr, IfSome, OnOk};
ghost use Rattle.model_change.specs.Replay.{reversal as reversal_of};
ghost use Rattle.model_site.specs.Live.{all_standing, is_back, live_from, stand};
ghost use Rattle.ve_tx.specs.ByValue.{parcel_by_value, ParcelCites};
ghost use Rattle.ve_rebase.specs.Entries.{parcels_by_value};
ghost use Rattle.ve_rebase.specs.Lists.{RunFromOneLength};
ghost use Rattle.ve_peer_undo.specs.Counted.{AreKept, counted, EachMayLeave, IsLeft, IsTakenOut, position_of};
ghost use Rattle.ve_peer_undo.specs.Counting.{hinted_parcel, revoke_first, RunFromPage};
ghost use Rattle.ve_peer_undo.specs.Refusal.{IsLiveRefusal};
ghost use Rattle.ve_peer_undo.specs.Walked.{AreCounted, IsCounted};

use crate::LiveFault;
use crate::alike::have_one_effect;
use crate::undo::{inverse_of, over_later};
use std::alloc::Global;
use std::mem::replace;
use ve_base::{Memory, TryCopy};
use ve_rebase::{RebaseFault, entry_over_list};
use ve_tx::{Parcel, ParcelList};

/// The entries after one, as they are where `back` takes that one back; nothing where it doesn't.
fn left_without(
    alloc: Global,
    after: &ParcelList,
    taken: &Parcel,
    back: &Parcel,
) -> Result<Option<ParcelList>, Memory>
    requires after { All ParcelCites after.now }
    requires taken { ParcelCites taken.now }
    requires back { ParcelCites back.now }
    requires run { RunFromOneLength (parcels_by_value after.now)
        (reversal_of (parcel_by_value taken.now)) }
    ensures { IfOk result (IsLeft after.now taken.now back.now) }
{
    let reversed = inverse_of(alloc, taken)?;
    let (left, made) = match entry_over_list(alloc, after, &reversed) {
        Ok(both) => both,
        Err(RebaseFault::Conflict { .. }) => return Ok(None),
        Err(RebaseFault::Memory) => return Err(Memory),
    };
    if !have_one_effect(&made, back) {
        return Ok(None);
    }
    Ok(Some(left))
}

/// The first position of a number.
fn position(numbers: &[usize], number: usize) -> Option<usize>
    ensures first { result ≡ position_of number numbers.now }
    ensures within { IfSome result (λ at. at < length numbers.now) }
{
    for i in 0..numbers.len() {
        if numbers[i] == number {
            return Some(i);
        }
    }
    None
}

/// Takes the entry of a number out of those that count, where `back` takes it back. Says whether it
/// did.
fn take_out(
    alloc: Global,
    numbers: &mut Vec<usize>,
    parcels: &mut ParcelList,
    number: usize,
    back: &Parcel,
) -> Result<bool, Memory>
    requires kept { AreKept numbers.old.items parcels.old }
    requires back { ParcelCites back.now }
    requires run { EachMayLeave (counted numbers.old.items parcels.old) }
    ensures same { IfOk result (λ taken. taken ≡ false →
        (numbers.new.items ≡ numbers.old.items) × (parcels.new ≡ parcels.old)) }
    ensures taken { IfOk result (
        IsTakenOut (Some number) (parcel_by_value back.now)
        (counted numbers.old.items parcels.old) (counted numbers.new.items parcels.new)) }
    ensures kept { OnOk result (AreKept numbers.new.items parcels.new) }
{
    let Some(at) = position(numbers.as_slice(), number) else {
        return Ok(false);
    };
    let all = parcels.as_slice();
    let after = ParcelList::copy_of(alloc, &all[at + 1..])?;
    let Some(left) = left_without(alloc, &after, &all[at], back)? else {
        return Ok(false);
    };
    numbers.remove(at);
    let mut rest = replace(parcels, ParcelList::new(alloc)).into_vec();
    rest.truncate(at);
    rest.append(&mut left.into_vec())?;
    *parcels = ParcelList::from_vec(rest);
    Ok(true)
}

/// Takes out what an entry takes back, if it takes one back that counts.
fn take_back(
    alloc: Global,
    numbers: &mut Vec<usize>,
    parcels: &mut ParcelList,
    entry: &Parcel,
) -> Result<bool, Memory>
    requires kept { AreKept numbers.old.items parcels.old }
    requires entry { ParcelCites entry.now }
    requires run { EachMayLeave (counted numbers.old.items parcels.old) }
    ensures taken { IfOk result (
        IsTakenOut entry.now.entry.takes_back (parcel_by_value entry.now)
        (counted numbers.old.items parcels.old) (counted numbers.new.items parcels.new)) }
    ensures kept { OnOk result (AreKept numbers.new.items parcels.new) }
    ensures same { IfOk result (λ taken. taken ≡ false →
        (numbers.new.items ≡ numbers.old.items) × (parcels.new ≡ parcels.old)) }
{
    let Some(taken) = entry.entry.takes_back else {
        return Ok(false);
    };
    take_out(alloc, numbers, parcels, taken, entry)
}

/// Goes past one more entry: it takes one of those back that count, or counts itself.
fn pass(
    alloc: Global,
    numbers: &mut Vec<usize>,
    parcels: &mut ParcelList,
    number: usize,
    entry: &Parcel,
) -> Result<(), Memory>
    requires kept { AreKept numbers.old.items parcels.old }
    requires entry { ParcelCites entry.now }
    requires run { EachMayLeave (counted numbers.old.items parcels.old) }
    ensures passed { OnOk result (
        counted numbers.new.items parcels.new
        ≡ stand number (hinted_parcel entry.now) (counted numbers.old.items parcels.old)) }
    ensures kept { OnOk result (AreKept numbers.new.items parcels.new) }
{
    if take_back(alloc, numbers, parcels, entry)? {
        return Ok(());
    }
    numbers.push(number)?;
    parcels.push(entry.copy(alloc)?)?;
    Ok(())
}

/// Whether an entry takes the first one back.
fn takes_first(
    alloc: Global,
    first: usize,
    own: &Parcel,
    entry: &Parcel,
    numbers: &[usize],
    parcels: &ParcelList,
) -> Result<bool, Memory>
    requires kept { AreKept numbers.now parcels.now }
    requires own { ParcelCites own.now }
    requires entry { ParcelCites entry.now }
    requires run { RunFromOneLength (all_standing (counted numbers.now parcels.now))
        (reversal_of (parcel_by_value own.now)) }
    ensures { IfOk result (λ taken. taken
        ≡ is_back first (parcel_by_value own.now) (hinted_parcel entry.now)
        (counted numbers.now parcels.now)) }
{
    if entry.entry.takes_back != Some(first) {
        return Ok(false);
    }
    Ok(left_without(alloc, parcels, own, entry)?.is_some())
}

/// The entries that count behind the first, as they run after it, and their numbers.
fn counting(
    alloc: Global,
    number: usize,
    entries: &[Parcel],
) -> Result<(Vec<usize>, ParcelList), LiveFault>
    requires some { 0 < length entries.now }
    requires cite { All ParcelCites entries.now }
    requires run { RunFromPage (map parcel_by_value entries.now) }
    ensures ok { IfOk result (λ two. AreCounted number entries.now two.0.items two.1) }
    ensures refused { IfErr result (IsCounted number entries.now) }
{
    let mut numbers = Vec::new(alloc);
    let mut parcels = ParcelList::new(alloc);
    for k in 1..entries.len() {
        let Some(next) = number.checked_add(k) else {
            return Err(LiveFault::Memory);
        };
        let entry = &entries[k];
        if takes_first(
            alloc,
            number,
            &entries[0],
            entry,
            numbers.as_slice(),
            &parcels,
        )? {
            return Err(LiveFault::TakenBack { by: next });
        }
        pass(alloc, &mut numbers, &mut parcels, next, entry)?;
    }
    Ok((numbers, parcels))
}

/// The parcel that takes the first of these entries back, which has that number, under those behind
/// it that still count: what took each other back leaves nothing. It runs on the list that all
/// entries make, and names the entry that it takes back.
///
/// `TakenBack` comes exactly where one of them took it back already. Else `Conflict` comes exactly
/// where one that counts conflicts with it, and names the first two ranges that do.
pub fn live_reversal(alloc: Global, number: usize, entries: &[Parcel]) -> Result<Parcel, LiveFault>
    requires some { 0 < length entries.now }
    requires cite { All ParcelCites entries.now }
    requires run { RunFromPage (map parcel_by_value entries.now) }
    ensures back { IfOk result (λ back.
        revoke_first number (map hinted_parcel entries.now) ≡ Ok (parcel_by_value back)) }
    ensures takes_back { IfOk result (λ back. back.entry.takes_back ≡ Some number) }
    ensures cites { IfOk result ParcelCites }
    ensures refused { IfErr result (
        IsLiveRefusal (revoke_first number (map hinted_parcel entries.now))) }
{
    let (_numbers, parcels) = counting(alloc, number, entries)?;
    let back = inverse_of(alloc, &entries[0])?;
    let mut made = over_later(alloc, parcels.as_slice(), &back)?;
    made.entry.takes_back = Some(number);
    Ok(made)
}
