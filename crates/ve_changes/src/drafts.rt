// Changes as drafts.
ghost use Rattle.std.specs.Prelude.{◌≡◌, false, IfOk, IfErr};
ghost use Rattle.std.specs.Str.{chars};
ghost use Rattle.model_edit.specs.Insert.{is_bad_offset};
ghost use Rattle.model_world.specs.Edits.{built_transaction, change_of, text_typed};
ghost use Rattle.model_world_law.specs.Fit.{IsWritten};
ghost use Rattle.ve_build_shape.specs.Setting.{value_spelled};
ghost use Rattle.ve_editor.specs.Page.{IsPage};
ghost use Rattle.ve_offsets.specs.Docs.{page_items};
ghost use Rattle.ve_changes.specs.Stops.{IsRefused};
ghost use Rattle.ve_changes.specs.Drafts.{Drafts, IsDrafted, MayWantDraft};

use crate::ChangeStop;
use crate::applied::applied_draft;
use crate::built::{
    attribute_draft, conversion_draft, marking_draft, plain_text, removal_draft, split_draft,
    text_like_left, unmarking_draft, wrap_draft,
};
use crate::pasted::pasted_draft;
use model_world::{EditCommand, Refusal, TextMarks};
use std::alloc::Global;
use ve_base::Text;
use ve_offsets::Doc;
use ve_tx::Draft;

/// A text put in, with the marks that are asked for.
fn typed(
    alloc: Global,
    doc: Doc<'_>,
    at: usize,
    text: &Text,
    marks: TextMarks,
) -> Result<Draft, ChangeStop>
    requires page { IsPage doc.store.now doc.list.now.items doc.tree.now }
    ensures drafts { Drafts doc.entry.store.now
        (built_transaction (text_typed marks (page_items doc.entry) at text.now)) result }
    ensures memory { IfErr result (λ stop.
        stop ≡ ChangeStop.Memory → is_bad_offset (page_items doc.entry) at ≡ false) }
{
    match marks {
        TextMarks::Left => text_like_left(alloc, doc, at, text.as_str()),
        TextMarks::Plain => plain_text(alloc, doc, at, text.as_str()),
    }
}

/// The text of an attribute's value, if there is one.
fn spelled(value: &Option<Text>) -> Option<&str>
    ensures { value_spelled result ≡ value.now }
{
    match value {
        Some(text) => Some(text.as_str()),
        None => None,
    }
}

/// The draft that a change of a page is, over the page's store. Its values follow the store's, and
/// are just those that the store takes. Nothing is performed.
///
/// It is refused as the change's builder refuses, with the position, the range or the depth that
/// the builder names. Operations as they are written are refused with the lengths where these
/// differ. They have to be in normal form, as a line that was read writes them.
///
/// Want of memory comes only where `MayWantDraft` says so: mostly where nothing else refuses it.
pub fn change_draft(alloc: Global, doc: Doc<'_>, change: &EditCommand) -> Result<Draft, ChangeStop>
    requires written { IsWritten change.now }
    requires page { IsPage doc.store.now doc.list.now.items doc.tree.now }
    ensures ok { IfOk result (
        IsDrafted doc.entry.store.now (change_of (page_items doc.entry) change.now)) }
    ensures refused { IfErr result (λ why.
        IsRefused why (change_of (page_items doc.entry) change.now)) }
    ensures memory { IfErr result (λ why.
        why ≡ ChangeStop.Memory → MayWantDraft (page_items doc.entry) change.now) }
{
    match change {
        EditCommand::Text { at, text, marks } => typed(alloc, doc, *at, text, *marks),
        EditCommand::Remove { from, to } => removal_draft(alloc, doc, *from, *to),
        EditCommand::Split { at, depth } => split_draft(alloc, doc, *at, *depth),
        EditCommand::Mark { from, to, mark } => marking_draft(alloc, doc, *from, *to, mark),
        EditCommand::Unmark { from, to, mark } => unmarking_draft(alloc, doc, *from, *to, mark),
        EditCommand::Wrap { from, to, plan } => wrap_draft(alloc, doc, *from, *to, plan),
        EditCommand::Convert { at, kind } => conversion_draft(alloc, doc, *at, *kind),
        EditCommand::Attr { at, name, to } => {
            attribute_draft(alloc, doc, *at, name.as_str(), spelled(to))
        }
        EditCommand::Insert { at, html } => pasted_draft(alloc, doc, *at, html),
        EditCommand::Apply { ops } => applied_draft(alloc, doc, ops.as_slice()),
        EditCommand::NoOrigin { origin } => Err(ChangeStop::Refused(Refusal::BadOrigin {
            origin: *origin,
        })),
    }
}
