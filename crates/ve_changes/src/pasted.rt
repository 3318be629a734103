// A fragment that is pasted, as a draft.
ghost use Rattle.std.specs.Prelude.{◌≡◌, false, IfErr};
ghost use Rattle.model_edit.specs.Insert.{is_bad_offset};
ghost use Rattle.model_world.specs.Edits.{fragment_inserted};
ghost use Rattle.ve_editor.specs.Page.{IsPage};
ghost use Rattle.ve_offsets.specs.Docs.{page_items};
ghost use Rattle.ve_changes.specs.Drafts.{Drafts};

use crate::ChangeStop;
use model_world::Refusal;
use std::alloc::Global;
use ve_base::Text;
use ve_build_insert::{insertion, open_at};
use ve_offsets::Doc;
use ve_read::fragment;
use ve_store::NewValues;
use ve_tx::Draft;

/// A fragment put in, as it is where the nodes at the offset are open. The offset is judged first,
/// then the spelling, then the marks, and then where the fragment may stand. Want of memory never
/// comes in the place of `BadOffset`.
pub fn pasted_draft(
    alloc: Global,
    doc: Doc<'_>,
    at: usize,
    html: &Text,
) -> Result<Draft, ChangeStop>
    requires page { IsPage doc.store.now doc.list.now.items doc.tree.now }
    ensures drafts { Drafts doc.entry.store.now
        (fragment_inserted (page_items doc.entry) at html.now) result }
    ensures memory { IfErr result (λ stop.
        stop ≡ ChangeStop.Memory → is_bad_offset (page_items doc.entry) at ≡ false) }
{
    let Some(state) = open_at(doc, at) else {
        return Err(ChangeStop::Refused(Refusal::BadOffset { at }));
    };
    let mut values = NewValues::new(alloc, doc.store);
    let pieces = fragment(alloc, html.as_str(), &state, doc.store, &mut values)?;
    let tx = insertion(alloc, doc, at, pieces.as_slice(), &mut values)?;
    Ok(Draft { tx, values })
}
