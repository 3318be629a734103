// Undo and redo of a site.
ghost use Rattle.std.specs.Prelude.{◌≡◌, ◌<◌, ◌≤◌, ◌+◌, IfErr, IfOk, OnErr};
ghost use Rattle.model_world.specs.declared.command.Request.TheVariants as request;
ghost use Rattle.ve_session.specs.Asked.{cost_completed, IsAnswered, IsStopped, MayWant};
ghost use Rattle.ve_session.specs.Turning.{MayTurn};
ghost use Rattle.ve_sites.specs.Shared.{member_at, site_at, sites};

use crate::edits::len_at;
use crate::faults::{of_redo, of_revoke, of_undo};
use model_world::Refusal;
use std::sync::ledger::Ledger;
use ve_base::Steps;
use ve_changes::ChangeStop;
use ve_json::Answer;
use ve_sites::Sites;

/// The last unsent entry of a site taken back.
pub fn undo<L: Ledger>(
    session: &mut Sites,
    k: usize,
    steps: &mut Steps<L>,
) -> Result<Answer<'static>, ChangeStop>
    requires site { k < sites session.old }
    requires may { MayTurn request.Undo (site_at session.old k).replica }
    ensures answer { IfOk result (λ answer.
        IsAnswered request.Undo k session.old answer session.new) }
    ensures refused { IfErr result (IsStopped request.Undo k session.old) }
    ensures memory { IfErr result (λ stop.
        stop ≡ ChangeStop.Memory → MayWant request.Undo session.old k) }
    ensures kept { OnErr result (session.new ≡ session.old) }
    ensures counted { steps.old ≤ steps.new }
    ensures steps { steps.new
        ≤ steps.old
        + cost_completed session.old.session (member_at session.old k) request.Undo }
{
    match session.undo(k, steps) {
        Ok(()) => Ok(Answer::Length(len_at(session, k))),
        Err(fault) => Err(of_undo(fault)),
    }
}

/// Makes the entry again that a site undid last.
pub fn redo<L: Ledger>(
    session: &mut Sites,
    k: usize,
    steps: &mut Steps<L>,
) -> Result<Answer<'static>, ChangeStop>
    requires site { k < sites session.old }
    requires may { MayTurn request.Redo (site_at session.old k).replica }
    ensures answer { IfOk result (λ answer.
        IsAnswered request.Redo k session.old answer session.new) }
    ensures refused { IfErr result (IsStopped request.Redo k session.old) }
    ensures memory { IfErr result (λ stop.
        stop ≡ ChangeStop.Memory → MayWant request.Redo session.old k) }
    ensures kept { OnErr result (session.new ≡ session.old) }
    ensures counted { steps.old ≤ steps.new }
    ensures steps { steps.new
        ≤ steps.old
        + cost_completed session.old.session (member_at session.old k) request.Redo }
{
    match session.redo(k, steps) {
        Ok(()) => Ok(Answer::Length(len_at(session, k))),
        Err(fault) => Err(of_redo(fault)),
    }
}

/// A committed entry that a site has seen taken back under all later ones, or where `live` under
/// those that still count.
pub fn revoke<L: Ledger>(
    session: &mut Sites,
    k: usize,
    entry: usize,
    live: bool,
    steps: &mut Steps<L>,
) -> Result<Answer<'static>, ChangeStop>
    requires site { k < sites session.old }
    requires may { MayTurn (request.Revoke entry live) (site_at session.old k).replica }
    ensures answer { IfOk result (λ answer.
        IsAnswered (request.Revoke entry live) k session.old answer session.new) }
    ensures refused { IfErr result (IsStopped (request.Revoke entry live) k session.old) }
    ensures memory { IfErr result (λ stop.
        stop ≡ ChangeStop.Memory → MayWant (request.Revoke entry live) session.old k) }
    ensures kept { OnErr result (session.new ≡ session.old) }
    ensures counted { steps.old ≤ steps.new }
    ensures steps { steps.new
        ≤ steps.old
        + cost_completed session.old.session (member_at session.old k) (
        request.Revoke entry live) }
{
    let seen = session.site(k).seen();
    if entry >= seen {
        return Err(ChangeStop::Refused(Refusal::BadEntry { entry, seen }));
    }
    match session.revoke(k, entry, live, steps) {
        Ok(()) => Ok(Answer::Length(len_at(session, k))),
        Err(fault) => Err(of_revoke(entry, fault)),
    }
}
