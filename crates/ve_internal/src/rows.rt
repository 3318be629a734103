// The table of the references of a list.
ghost use Rattle.std.specs.Prelude.{◌≡◌, All, IfOk};
ghost use Rattle.model_items.specs.Plain.{CitesWell, plain_list};
ghost use Rattle.model_page.specs.References.{table};
ghost use Rattle.ve_internal.specs.Noted.{AllKnown, AreRows, IsKnown, IsRowOf};

use crate::key::LentKey;
use crate::notes::{Cited, Notes, notes_of};
use model_page::{RefRow, RefTable};
use std::alloc::Global;
use ve_base::{Memory, TryCopy};
use ve_items::Linear;
use ve_store::Store;

fn row_of(alloc: Global, notes: &Notes<'_>, cited: &Cited<'_>) -> Result<RefRow, Memory>
    requires { IsKnown notes.now cited.now }
    ensures { IfOk result (IsRowOf notes.now cited.now) }
{
    let Some(seen) = notes.keys.get(&LentKey { key: cited.key }) else {
        unreachable!()
    };
    let body_at = notes.bodies.get(&LentKey { key: cited.key }).copied();
    Ok(RefRow {
        at: cited.at,
        key: cited.key.copy(alloc)?,
        number: seen.number,
        carrier: seen.carrier() == cited.at,
        body_at,
    })
}

fn rows_of(alloc: Global, notes: &Notes<'_>) -> Result<RefTable, Memory>
    requires { AllKnown notes.now }
    ensures { IfOk result (AreRows notes.now notes.now.refs.items) }
{
    let mut rows = RefTable::new(alloc);
    for cited in &notes.refs {
        rows.push(row_of(alloc, notes, cited)?)?;
    }
    Ok(rows)
}

/// A row for each reference of the list, in order: which body it names, its number, whether the
/// body is written at it, and where the body opens. Its time goes with the length of the list, as
/// keys are found by their hashes. A number past those of a `u32` is a want of memory like any
/// other; no list within the limits of a page reaches it.
pub fn table(alloc: Global, list: &Linear, store: &Store) -> Result<RefTable, Memory>
    requires { All (CitesWell store.now) list.now.items }
    ensures { IfOk result (λ rows. rows ≡ table (plain_list store.now list.now.items)) }
{
    let notes = notes_of(alloc, list, store)?;
    let rows = rows_of(alloc, &notes)?;
    Ok(rows)
}
