// A text typed at a site: its caret stands after the text then.
ghost use Rattle.std.specs.Prelude.{◌≡◌, ◌≢◌, ◌<◌, ◌≤◌, ◌+◌, IfErr, IfOk, OnErr};
ghost use Rattle.model_world.specs.Answers.{lower};
ghost use Rattle.model_world.specs.Edits.{change_of};
ghost use Rattle.model_world.specs.declared.edit_command.EditCommand.TheVariants as change;
ghost use Rattle.model_world.specs.declared.edit_command.TextMarks.TheVariants.{Left};
ghost use Rattle.model_world.specs.declared.command.Request.TheVariants as request;
ghost use Rattle.ve_changes.specs.Drafts.{IsDrafted};
ghost use Rattle.ve_changes.specs.Stops.{IsRefused};
ghost use Rattle.ve_editor.specs.Page.{IsPage};
ghost use Rattle.ve_offsets.specs.Docs.{page_items};
ghost use Rattle.ve_session.specs.Asked.{cost_completed, IsAnswered, IsStopped};
ghost use Rattle.ve_session.specs.Turning.{MayTurn};
ghost use Rattle.ve_sites.specs.Shared.{member_at, site_at, sites};

use crate::edits::{doc_at, len_at};
use crate::faults::of_typing;
use model_edit::Selection;
use model_world::TextMarks;
use model_world_law::layers_fit;
use std::alloc::Global;
use std::sync::ledger::Ledger;
use ve_base::{Steps, Text, TryCopy};
use ve_changes::{ChangeStop, EditCommand, Typing, after_inserted, change_draft};
use ve_json::Answer;
use ve_offsets::Doc;
use ve_sites::Sites;
use ve_tx::Draft;

/// The draft by which a text is put at a position, with the marks to the left.
fn put_draft(alloc: Global, doc: Doc<'_>, at: usize, text: &Text) -> Result<Draft, ChangeStop>
    requires page { IsPage doc.store.now doc.list.now.items doc.tree.now }
    ensures ok { IfOk result (
        IsDrafted doc.entry.store.now (
        change_of (page_items doc.entry) (change.Text at text.now Left))) }
    ensures refused { IfErr result (λ why.
        IsRefused why (change_of (page_items doc.entry) (change.Text at text.now Left))) }
{
    let change = EditCommand::Text {
        at,
        text: text.copy(alloc)?,
        marks: TextMarks::Left,
    };
    change_draft(alloc, doc, &change)
}

/// A text typed at a caret, where nothing is selected: one change, made in place.
fn type_here<L: Ledger>(
    alloc: Global,
    session: &mut Sites,
    k: usize,
    at: usize,
    text: &Text,
    steps: &mut Steps<L>,
) -> Result<Answer<'static>, ChangeStop>
    requires site { k < sites session.old }
    requires may { MayTurn (request.TypeText text.now) (site_at session.old k).replica }
    requires caret { (site_at session.old k).replica.selection.anchor
        ≡ (site_at session.old k).replica.selection.focus }
    requires at { at ≡ lower (site_at session.old k).replica.selection }
    ensures answer { IfOk result (λ answer.
        IsAnswered (request.TypeText text.now) k session.old answer session.new) }
    ensures refused { IfErr result (IsStopped (request.TypeText text.now) k session.old) }
    ensures kept { OnErr result (session.new ≡ session.old) }
    ensures counted { steps.old ≤ steps.new }
    ensures steps { IfErr result (λ stop. stop ≢ ChangeStop.Memory)
        → steps.new
        ≤ steps.old
        + cost_completed session.old.session (member_at session.old k) (
        request.TypeText text.now) }
{
    layers_fit();
    let draft = put_draft(alloc, doc_at(session, k), at, text)?;
    let caret = after_inserted(&draft.tx)?;
    match session.edit(k, &draft, steps) {
        Ok(()) => {}
        Err(fault) => return Err(ChangeStop::from(fault)),
    }
    session.select(
        k,
        Selection {
            anchor: caret,
            focus: caret,
        },
    );
    Ok(Answer::Length(len_at(session, k)))
}

/// Types a text over the selection of a site: two changes that are one entry.
fn type_over<L: Ledger>(
    alloc: Global,
    session: &mut Sites,
    k: usize,
    text: &Text,
    steps: &mut Steps<L>,
) -> Result<Answer<'static>, ChangeStop>
    requires site { k < sites session.old }
    requires may { MayTurn (request.TypeText text.now) (site_at session.old k).replica }
    requires range { (site_at session.old k).replica.selection.anchor
        ≢ (site_at session.old k).replica.selection.focus }
    ensures answer { IfOk result (λ answer.
        IsAnswered (request.TypeText text.now) k session.old answer session.new) }
    ensures refused { IfErr result (IsStopped (request.TypeText text.now) k session.old) }
    ensures kept { OnErr result (session.new ≡ session.old) }
    ensures counted { steps.old ≤ steps.new }
    ensures steps { IfErr result (λ stop. stop ≢ ChangeStop.Memory)
        → steps.new
        ≤ steps.old
        + cost_completed session.old.session (member_at session.old k) (
        request.TypeText text.now) }
{
    let caret = match session.attempt(k, &Typing::new(alloc, text), steps) {
        Ok(caret) => caret,
        Err(stop) => return Err(of_typing(stop)),
    };
    session.select(
        k,
        Selection {
            anchor: caret,
            focus: caret,
        },
    );
    Ok(Answer::Length(len_at(session, k)))
}

/// Types a text over the selection of a site, or at its caret; its caret stands after the text
/// then.
pub fn type_at<L: Ledger>(
    alloc: Global,
    session: &mut Sites,
    k: usize,
    text: &Text,
    steps: &mut Steps<L>,
) -> Result<Answer<'static>, ChangeStop>
    requires site { k < sites session.old }
    requires may { MayTurn (request.TypeText text.now) (site_at session.old k).replica }
    ensures answer { IfOk result (λ answer.
        IsAnswered (request.TypeText text.now) k session.old answer session.new) }
    ensures refused { IfErr result (IsStopped (request.TypeText text.now) k session.old) }
    ensures kept { OnErr result (session.new ≡ session.old) }
    ensures counted { steps.old ≤ steps.new }
    ensures steps { IfErr result (λ stop. stop ≢ ChangeStop.Memory)
        → steps.new
        ≤ steps.old
        + cost_completed session.old.session (member_at session.old k) (
        request.TypeText text.now) }
{
    let selection = session.site(k).editor().selection();
    if selection.anchor == selection.focus {
        let at = selection.anchor.min(selection.focus);
        type_here(alloc, session, k, at, text, steps)
    } else {
        type_over(alloc, session, k, text, steps)
    }
}
