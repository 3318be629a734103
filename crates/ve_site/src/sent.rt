// Entries as they travel.
ghost use Rattle.std.specs.Prelude.{◌≡◌, All, map, IfOk};
ghost use Rattle.model_site.specs.Entries.{hints, parcels};
ghost use Rattle.ve_editor.specs.Edited.{entry_by_value, EntryCites};

use std::alloc::Global;
use ve_base::Memory;
use ve_server::Parcels;
use ve_store::Store;
use ve_tx::{Entry, Parcel, ParcelList};

/// The parcels of entries over a store, which say what these take back.
pub fn parcels_of(alloc: Global, entries: &[Entry], store: &Store) -> Result<Parcels, Memory>
    requires { All (EntryCites store.now) entries.now }
    ensures entries { IfOk result (λ sent.
        sent.entries ≡ parcels (map (entry_by_value store.now) entries.now)) }
    ensures hints { IfOk result (λ sent.
        sent.hints ≡ hints (map (entry_by_value store.now) entries.now)) }
{
    let mut list = ParcelList::new(alloc);
    for entry in entries {
        list.push(Parcel::of(alloc, entry, store)?)?;
    }
    Ok(Parcels::from_list(list))
}
