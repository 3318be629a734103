// Changes of a site's list, each as one entry.
ghost use Rattle.std.specs.Prelude.{◌≡◌, ◌≢◌, ◌<◌, ◌≤◌, ◌+◌, true, length, Ok, IfErr, IfOk, OnErr};
ghost use Rattle.model_change.specs.Transaction.{InsertedApart};
ghost use Rattle.model_world.specs.declared.command.Request.TheVariants as request;
ghost use Rattle.model_world.specs.Edits.{checked_transaction};
ghost use Rattle.model_change.specs.Cost.{cost_of_transactions};
ghost use Rattle.model_world.specs.Cost.{made_of};
ghost use Rattle.ve_changes.specs.Moves.{is_move};
ghost use Rattle.ve_changes.specs.Stops.{IsRefused};
ghost use Rattle.ve_editor.specs.Edited.{drafted, IsDraftOf};
ghost use Rattle.ve_editor.specs.Page.{IsPage};
ghost use Rattle.ve_offsets.specs.Docs.{page_items};
ghost use Rattle.ve_session.specs.Asked.{cost_completed, IsAnswered, IsPerformed, IsStopped, MayWant};
ghost use Rattle.ve_session.specs.Turning.{MayTurn};
ghost use Rattle.ve_sites.specs.Shared.{member_at, site_at, sites};

use model_edit::{By, Dir};
use model_world_law::layers_fit;
use std::alloc::Global;
use std::sync::ledger::Ledger;
use ve_base::Steps;
use ve_changes::{
    ChangeStop, EditCommand, change_draft, erased_range, move_draft, moves_are_asked,
};
use ve_json::{Answer, Request};
use ve_offsets::Doc;
use ve_sites::Sites;
use ve_tx::Draft;

/// Lends list, tree and store of a site.
pub fn doc_at(session: &Sites, k: usize) -> Doc<'_>
    requires site { k < sites session.now }
    ensures items { page_items result ≡ (site_at session.entry.now k).replica.items }
    ensures store { result.store.now ≡ (site_at session.entry.now k).replica.store }
    ensures page { IsPage result.store.now result.list.now.items result.tree.now }
{
    session.site(k).doc()
}

/// How many items the list of a site has.
pub fn len_at(session: &Sites, k: usize) -> usize
    requires site { k < sites session.now }
    ensures { result ≡ length (site_at session.now k).replica.items }
{
    doc_at(session, k).list.len()
}

/// Performs a draft as a new entry of a site.
fn perform<L: Ledger>(
    session: &mut Sites,
    k: usize,
    draft: &Draft,
    steps: &mut Steps<L>,
) -> Result<Answer<'static>, ChangeStop>
    requires site { k < sites session.old }
    requires draft { IsDraftOf (site_at session.old k).replica.store draft.now }
    requires apart { InsertedApart (drafted (site_at session.old k).replica.store draft.now) }
    ensures answer { IfOk result (λ answer.
        IsPerformed (drafted (site_at session.old k).replica.store draft.now) k session.old
        answer session.new) }
    ensures refused { IfErr result (λ stop.
        IsRefused stop (
        checked_transaction (site_at session.old k).replica (
        Ok (drafted (site_at session.old k).replica.store draft.now)))) }
    ensures kept { OnErr result (session.new ≡ session.old) }
    ensures counted { steps.old ≤ steps.new }
    ensures steps { IfErr result (λ stop. stop ≢ ChangeStop.Memory)
        → steps.new
        ≤ steps.old
        + cost_of_transactions (
        made_of (
        checked_transaction (site_at session.old k).replica (
        Ok (drafted (site_at session.old k).replica.store draft.now)))) (
        site_at session.old k).replica.items }
{
    match session.edit(k, draft, steps) {
        Ok(()) => Ok(Answer::Length(len_at(session, k))),
        Err(fault) => Err(ChangeStop::from(fault)),
    }
}

/// A change of a site's list.
pub fn edit<L: Ledger>(
    alloc: Global,
    session: &mut Sites,
    k: usize,
    change: &EditCommand,
    steps: &mut Steps<L>,
) -> Result<Answer<'static>, ChangeStop>
    requires site { k < sites session.old }
    requires may { MayTurn (request.Edit change.now) (site_at session.old k).replica }
    ensures answer { IfOk result (λ answer.
        IsAnswered (request.Edit change.now) k session.old answer session.new) }
    ensures refused { IfErr result (IsStopped (request.Edit change.now) k session.old) }
    ensures memory { IfErr result (λ stop.
        stop ≡ ChangeStop.Memory → MayWant (request.Edit change.now) session.old k) }
    ensures kept { OnErr result (session.new ≡ session.old) }
    ensures counted { steps.old ≤ steps.new }
    ensures steps { IfErr result (λ stop. stop ≢ ChangeStop.Memory)
        → steps.new
        ≤ steps.old
        + cost_completed session.old.session (member_at session.old k) (
        request.Edit change.now) }
{
    layers_fit();
    let draft = change_draft(alloc, doc_at(session, k), change)?;
    perform(session, k, &draft, steps)
}

/// A row, a column or a list item of a site's list moved.
pub fn move_part<L: Ledger>(
    alloc: Global,
    session: &mut Sites,
    k: usize,
    request: &Request,
    steps: &mut Steps<L>,
) -> Result<Answer<'static>, ChangeStop>
    requires site { k < sites session.old }
    requires moves { is_move request.now ≡ true }
    requires may { MayTurn request.now (site_at session.old k).replica }
    ensures answer { IfOk result (λ answer.
        IsAnswered request.now k session.old answer session.new) }
    ensures refused { IfErr result (IsStopped request.now k session.old) }
    ensures kept { OnErr result (session.new ≡ session.old) }
    ensures counted { steps.old ≤ steps.new }
    ensures steps { IfErr result (λ stop. stop ≢ ChangeStop.Memory)
        → steps.new
        ≤ steps.old
        + cost_completed session.old.session (member_at session.old k) request.now }
{
    layers_fit();
    moves_are_asked();
    let draft = move_draft(alloc, doc_at(session, k), request)?;
    perform(session, k, &draft, steps)
}

/// Erases the selection of a site, or the range from its caret to the next position.
pub fn erase<L: Ledger>(
    alloc: Global,
    session: &mut Sites,
    k: usize,
    dir: Dir,
    by: By,
    steps: &mut Steps<L>,
) -> Result<Answer<'static>, ChangeStop>
    requires site { k < sites session.old }
    requires may { MayTurn (request.Erase dir by) (site_at session.old k).replica }
    ensures answer { IfOk result (λ answer.
        IsAnswered (request.Erase dir by) k session.old answer session.new) }
    ensures refused { IfErr result (IsStopped (request.Erase dir by) k session.old) }
    ensures kept { OnErr result (session.new ≡ session.old) }
    ensures counted { steps.old ≤ steps.new }
    ensures steps { IfErr result (λ stop. stop ≢ ChangeStop.Memory)
        → steps.new
        ≤ steps.old
        + cost_completed session.old.session (member_at session.old k) (
        request.Erase dir by) }
{
    layers_fit();
    let selection = session.site(k).selection();
    let range = erased_range(alloc, doc_at(session, k), selection, dir, by)?;
    let removal = EditCommand::Remove {
        from: range.anchor.min(range.focus),
        to: range.anchor.max(range.focus),
    };
    let draft = change_draft(alloc, doc_at(session, k), &removal)?;
    perform(session, k, &draft, steps)
}
