// An entry taken back under the entries after it.
ghost use Rattle.std.specs.Prelude.{◌≡◌, ◌<◌, [], All, Ok, Some, length, map, slice_get, IfOk, IfErr};
ghost use Rattle.model_change.specs.Join.{join_list};
ghost use Rattle.model_change.specs.Replay.{entry_at, made_after, mine_of, reversal as reversal_of, revoke};
ghost use Rattle.ve_tx.specs.ByValue.{parcel_by_value, ParcelCites};
ghost use Rattle.ve_rebase.specs.Entries.{outline, parcels_by_value};
ghost use Rattle.ve_rebase.specs.Lists.{RunFromOneLength};
ghost use Rattle.ve_peer_undo.specs.Refusal.{IsRevokeRefusal};

use crate::RevokeFault;
use std::alloc::Global;
use std::slice::from_ref;
use ve_base::{Memory, TryCopy};
use ve_rebase::{JoinedEntries, entries_over_list};
use ve_tx::{Entry, Parcel, TxList};

/// The parcel that takes another back just after it: the inverses of its transactions, the last one
/// first.
pub(crate) fn inverse_of(alloc: Global, parcel: &Parcel) -> Result<Parcel, Memory>
    requires { ParcelCites parcel.now }
    ensures back { IfOk result (λ back.
        parcel_by_value back ≡ reversal_of (parcel_by_value parcel.now)) }
    ensures outline { IfOk result (λ back. outline back ≡ outline parcel.now) }
    ensures cites { IfOk result ParcelCites }
{
    let txs = parcel.entry.txs.as_slice();
    let mut back = TxList::new(alloc);
    for n in 0..txs.len() {
        let tx = &txs[txs.len() - 1 - n];
        back.push(tx.inverse(alloc)?)?;
    }
    Ok(Parcel {
        entry: Entry {
            txs: back,
            store_before: parcel.entry.store_before,
            store_after: parcel.entry.store_after,
            takes_back: parcel.entry.takes_back,
        },
        values: parcel.values.copy(alloc)?,
    })
}

/// A parcel joined over later ones, which are moved along and never written out.
pub(crate) fn over_later(
    alloc: Global,
    later: &[Parcel],
    back: &Parcel,
) -> Result<Parcel, RevokeFault>
    requires run { RunFromOneLength (parcels_by_value later.now) (parcel_by_value back.now) }
    requires cites { ParcelCites back.now }
    ensures joined { IfOk result (λ made.
        mine_of (join_list (parcels_by_value later.now) (parcel_by_value back.now))
        ≡ Ok (parcel_by_value made)) }
    ensures outline { IfOk result (λ made. outline made ≡ outline back.now) }
    ensures cites { IfOk result ParcelCites }
    ensures refused { IfErr result (
        IsRevokeRefusal (
        mine_of (join_list (parcels_by_value later.now) (parcel_by_value back.now)))) }
{
    let JoinedEntries { kept, clash } = entries_over_list(alloc, later, from_ref(back))?;
    if let Some(clash) = clash {
        return Err(RevokeFault::Conflict {
            later: clash.committed,
            reversal: clash.submitted,
        });
    }
    let Some(made) = kept.into_vec().pop() else {
        unreachable!();
    };
    Ok(made)
}

/// The parcel that takes back entry `i` under all later ones: it runs on the list that all entries
/// make. It has as many transactions as the entry, and keeps all else of it.
///
/// `Conflict` comes exactly where a later entry conflicts with it, and names the first two ranges
/// that do.
pub fn reversal(alloc: Global, entries: &[Parcel], i: usize) -> Result<Parcel, RevokeFault>
    requires within { i < length entries.now }
    requires cite { All ParcelCites entries.now }
    requires run { RunFromOneLength (made_after (map parcel_by_value entries.now) i)
        (reversal_of (entry_at (map parcel_by_value entries.now) i)) }
    ensures back { IfOk result (λ back.
        revoke (map parcel_by_value entries.now) i ≡ Ok (parcel_by_value back)) }
    ensures outline { IfOk result (λ back.
        slice_get (map outline entries.now) i ≡ Some (outline back)) }
    ensures cites { IfOk result ParcelCites }
    ensures refused { IfErr result (IsRevokeRefusal (revoke (map parcel_by_value entries.now) i)) }
{
    let back = inverse_of(alloc, &entries[i])?;
    over_later(alloc, &entries[i + 1..], &back)
}
