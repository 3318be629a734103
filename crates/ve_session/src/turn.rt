// A request that may change a site or the queues.
ghost use Rattle.std.specs.Prelude.{◌≡◌, ◌≢◌, ◌<◌, ◌≤◌, ◌+◌, false, IfErr, IfOk, OnErr, OnOk};
ghost use Rattle.ve_json.specs.Answers.{AnswerCites};
ghost use Rattle.ve_session.specs.Asked.{cost_completed, is_shown, IsAnswered, IsStopped, MayWant};
ghost use Rattle.ve_session.specs.Turning.{MayTurn};
ghost use Rattle.ve_sites.specs.Shared.{member_at, site_at, sites};

use crate::batches::batch;
use crate::edits::{edit, erase, move_part};
use crate::history::{redo, revoke, undo};
use crate::queues::{send, serve, take};
use crate::selections::{move_caret, select};
use crate::told::tell;
use crate::typing::type_at;
use std::alloc::Global;
use std::sync::ledger::Ledger;
use ve_base::{Memory, Steps};
use ve_changes::ChangeStop;
use ve_json::{Answer, Request};
use ve_sites::Sites;

/// The effect of a request to a site, which is completed, and its answer.
fn done<L: Ledger>(
    alloc: Global,
    session: &mut Sites,
    k: usize,
    request: &Request,
    steps: &mut Steps<L>,
) -> Result<Answer<'static>, ChangeStop>
    requires acts { is_shown request.now ≡ false }
    requires site { k < sites session.old }
    requires may { MayTurn request.now (site_at session.old k).replica }
    ensures answer { IfOk result (λ answer.
        IsAnswered request.now k session.old answer session.new) }
    ensures refused { IfErr result (IsStopped request.now k session.old) }
    ensures memory { IfErr result (λ stop.
        stop ≡ ChangeStop.Memory → MayWant request.now session.old k) }
    ensures kept { OnErr result (session.new ≡ session.old) }
    ensures counted { steps.old ≤ steps.new }
    ensures steps { IfErr result (λ stop. stop ≢ ChangeStop.Memory)
        → steps.new
        ≤ steps.old
        + cost_completed session.old.session (member_at session.old k) request.now }
{
    match request {
        Request::Edit { change } => edit(alloc, session, k, change, steps),
        Request::Batch { cmds } => batch(alloc, session, k, cmds, steps),
        Request::TypeText { text } => type_at(alloc, session, k, text, steps),
        Request::Erase { dir, by } => erase(alloc, session, k, *dir, *by, steps),
        Request::Select { anchor, focus } => select(session, k, *anchor, *focus),
        Request::Move { dir, by, keep } => move_caret(alloc, session, k, *dir, *by, *keep),
        Request::Undo => undo(session, k, steps),
        Request::Redo => redo(session, k, steps),
        Request::Revoke { entry, live } => revoke(session, k, *entry, *live, steps),
        Request::Send => send(session, k),
        Request::Serve => serve(session, k),
        Request::Take => take(session, k, steps),
        Request::Tell => tell(session, k),
        _ => move_part(alloc, session, k, request, steps),
    }
}

/// The answer of a site to a completed request that may change it, or its refusal. A refusal changes
/// nothing, and memory is wanting only where `MayWant` says that it may be.
pub fn turn<L: Ledger>(
    alloc: Global,
    session: &mut Sites,
    k: usize,
    request: &Request,
    steps: &mut Steps<L>,
) -> Result<Answer<'static>, Memory>
    requires site { k < sites session.old }
    requires acts { is_shown request.now ≡ false }
    requires may { MayTurn request.now (site_at session.old k).replica }
    ensures answer { IfOk result (λ answer.
        IsAnswered request.now k session.old answer session.new) }
    ensures cites { IfOk result AnswerCites }
    ensures memory { OnErr result (MayWant request.now session.old k) }
    ensures kept { OnErr result (session.new ≡ session.old) }
    ensures counted { steps.old ≤ steps.new }
    ensures steps { OnOk result (
        steps.new
        ≤ steps.old
        + cost_completed session.old.session (member_at session.old k) request.now) }
{
    match done(alloc, session, k, request, steps) {
        Ok(answer) => Ok(answer),
        Err(ChangeStop::Refused(refusal)) => Ok(Answer::No(refusal)),
        Err(ChangeStop::Memory) => Err(Memory),
    }
}
