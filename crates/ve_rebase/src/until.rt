// Entries joined over committed ones, until two transactions conflict.
ghost use Rattle.std.specs.Prelude.{All, IfOk, IfErr};
ghost use Rattle.ve_rebase.specs.Entries.{parcels_by_value};
ghost use Rattle.ve_tx.specs.ByValue.{parcel_by_value};
ghost use Rattle.ve_rebase.specs.Lists.{RunFromOneLength};
ghost use Rattle.ve_rebase.specs.Shifted.{IsShifted};
ghost use Rattle.ve_rebase.specs.Until.{AreJoined, IsJoinedOver, IsRefusedOver, Meet};

use crate::RebaseFault;
use crate::entries::{all_begun, parcel_with};
use crate::join_lists::rows;
use crate::shifted::{Shifted, begun};
use model_site::Clash;
use std::alloc::Global;
use ve_base::Memory;
use ve_tx::{Parcel, ParcelList};

/// Entries joined over committed ones up to the first conflict.
#[derive(Drop)]
pub struct JoinedEntries {
    /// The entries before the first conflict, or all, as they are over the committed ones.
    pub kept: ParcelList,
    /// The active ranges of the first two transactions that conflict, if there are such.
    pub clash: Option<Clash>,
}

/// The next entry joined over the committed ones as they are by now.
fn joined_over(
    alloc: Global,
    over: &mut Vec<Shifted<'_>>,
    mine: &Parcel,
) -> Result<Parcel, RebaseFault>
    requires shifted { All IsShifted over.old.items }
    requires meet { Meet over.old.items (parcel_by_value mine.now) }
    ensures joined { IfOk result (λ made.
        IsJoinedOver over.old.items mine.now over.new.items made) }
    ensures refused { IfErr result (IsRefusedOver over.old.items mine.now) }
{
    let mut entry = begun(alloc, mine.entry.txs.as_slice())?;
    rows(over, &mut entry)?;
    let made = parcel_with(alloc, mine, entry.as_slice())?;
    Ok(made)
}

/// Entries joined over committed ones, one after the other, up to the first conflict: those before
/// it, and the ranges that conflict. Each entry that is kept keeps its values and both numbers, and
/// has as many transactions as before.
///
/// The only `Err` is want of memory, which is also the answer where a joined transaction would be
/// longer than a transaction may be. The committed ones are moved along as a span each, and never
/// written out.
pub fn entries_over_list(
    alloc: Global,
    committed: &[Parcel],
    mine: &[Parcel],
) -> Result<JoinedEntries, Memory>
    requires { RunFromOneLength (parcels_by_value committed.now) (parcels_by_value mine.now) }
    ensures { IfOk result (λ made. AreJoined committed.now mine.now made) }
{
    let mut over = all_begun(alloc, committed)?;
    let mut kept = ParcelList::new(alloc);
    for one in mine {
        match joined_over(alloc, &mut over, one) {
            Ok(made) => kept.push(made)?,
            Err(RebaseFault::Conflict { a_range, b_range }) => {
                let clash = Some(Clash {
                    committed: a_range,
                    submitted: b_range,
                });
                return Ok(JoinedEntries { kept, clash });
            }
            Err(RebaseFault::Memory) => return Err(Memory),
        }
    }
    Ok(JoinedEntries { kept, clash: None })
}
