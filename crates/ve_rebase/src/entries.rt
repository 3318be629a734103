// An entry joined with the entries before it.
ghost use Rattle.std.specs.Prelude.{◌≡◌, All, Ok, length, map, IfOk, IfErr};
ghost use Rattle.ve_tx.specs.Cites.{TxCites};
ghost use Rattle.ve_rebase.specs.Entries.{joined_entries, both_entries, parcels_by_value, outline, operations_of};
ghost use Rattle.ve_tx.specs.ByValue.{parcel_by_value, ParcelCites};
ghost use Rattle.ve_rebase.specs.Lists.{RunFromOneLength, IsRefusedAs};
ghost use Rattle.ve_rebase.specs.Shifted.{IsShifted, AreWritten, operations};

use crate::RebaseFault;
use crate::join_lists::rows;
use crate::shifted::{Shifted, begun, written};
use std::alloc::Global;
use ve_base::{Memory, TryCopy};
use ve_tx::{Entry, Parcel, ParcelList};

/// The transactions of all parcels, before any is joined.
pub fn all_begun<'a>(alloc: Global, parcels: &'a [Parcel]) -> Result<Vec<Shifted<'a>>, Memory>
    ensures shifted { IfOk result (λ all. All IsShifted all.items) }
    ensures written { IfOk result (λ all. AreWritten (operations_of parcels.now) all.items) }
    ensures kept { IfOk result (λ all. map operations all.items ≡ operations_of parcels.now) }
{
    let mut all = Vec::new(alloc);
    for parcel in parcels {
        let mut some = begun(alloc, parcel.entry.txs.as_slice())?;
        all.append(&mut some)?;
    }
    Ok(all)
}

/// A parcel with these transactions in the place of its own.
pub fn parcel_with(alloc: Global, parcel: &Parcel, all: &[Shifted<'_>]) -> Result<Parcel, Memory>
    requires shifted { All IsShifted all.now }
    requires kept { map operations all.now ≡ parcel.now.entry.txs }
    ensures written { IfOk result (λ made. AreWritten made.entry.txs all.now) }
    ensures outline { IfOk result (λ made. outline made ≡ outline parcel.now) }
    ensures cites { IfOk result (λ made. ParcelCites parcel.now → ParcelCites made) }
{
    Ok(Parcel {
        entry: Entry {
            txs: written(alloc, all)?,
            store_before: parcel.entry.store_before,
            store_after: parcel.entry.store_after,
            takes_back: parcel.entry.takes_back,
        },
        values: parcel.values.copy(alloc)?,
    })
}

/// Parcels with these transactions, in order, in the place of their own.
pub fn parcels_with(
    alloc: Global,
    parcels: &[Parcel],
    all: &[Shifted<'_>],
) -> Result<ParcelList, Memory>
    requires shifted { All IsShifted all.now }
    requires kept { map operations all.now ≡ operations_of parcels.now }
    ensures written { IfOk result (λ made. AreWritten (operations_of made) all.now) }
    ensures outlines { IfOk result (λ made. map outline made ≡ map outline parcels.now) }
    ensures cite { IfOk result (λ made. All ParcelCites parcels.now → All ParcelCites made) }
{
    let mut made = ParcelList::new(alloc);
    let mut left = all;
    for parcel in parcels {
        let count = parcel.entry.txs.as_slice().len();
        made.push(parcel_with(alloc, parcel, &left[..count])?)?;
        left = &left[count..];
    }
    Ok(made)
}

/// An entry joined with committed ones: these as they are after mine, and mine as it is after them.
/// Each parcel keeps all but its transactions, and has as many of these as before.
///
/// The transactions of all committed entries are joined with those of mine as `lists` joins them,
/// with the same refusal, but each entry cites its own values.
pub fn entry_over_list(
    alloc: Global,
    committed: &ParcelList,
    mine: &Parcel,
) -> Result<(ParcelList, Parcel), RebaseFault>
    requires { RunFromOneLength (parcels_by_value committed.now) (parcel_by_value mine.now) }
    ensures joined { IfOk result (λ two.
        joined_entries committed.now mine.now ≡ Ok (both_entries two)) }
    ensures outlines { IfOk result (λ two. map outline two.0 ≡ map outline committed.now) }
    ensures mine_outline { IfOk result (λ two. outline two.1 ≡ outline mine.now) }
    ensures cite { IfOk result (λ two. All ParcelCites committed.now → All ParcelCites two.0) }
    ensures mine_cites { IfOk result (λ two. ParcelCites mine.now → ParcelCites two.1) }
    ensures refused { IfErr result (λ why.
        IsRefusedAs (joined_entries committed.now mine.now) why) }
{
    let mut over = all_begun(alloc, committed.as_slice())?;
    let mut mine_over = begun(alloc, mine.entry.txs.as_slice())?;
    rows(&mut over, &mut mine_over)?;
    Ok((
        parcels_with(alloc, committed.as_slice(), over.as_slice())?,
        parcel_with(alloc, mine, mine_over.as_slice())?,
    ))
}
