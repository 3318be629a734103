// Turns between a site and the server.
ghost use Rattle.std.specs.Prelude.{◌≡◌, ◌<◌, ◌≤◌, ◌+◌, IfErr, IfOk, OnErr, option_map};
ghost use Rattle.model_world.specs.Answers.{ranges, taken_reply};
ghost use Rattle.model_world.specs.declared.command.Request.TheVariants as request;
ghost use Rattle.ve_json.specs.Answers.{reply_of};
ghost use Rattle.ve_session.specs.Asked.{cost_completed, IsAnswered, IsStopped, MayWant};
ghost use Rattle.ve_session.specs.Turning.{MayTurn};
ghost use Rattle.ve_sites.specs.Shared.{member_at, site_at, sites};

use crate::faults::of_send;
use model_site::{Clash, Taken};
use model_world::Refusal;
use std::sync::ledger::Ledger;
use ve_base::Steps;
use ve_changes::ChangeStop;
use ve_json::Answer;
use ve_sites::Sites;

/// Both ranges that are in conflict, if there are some.
fn ranges(clash: Option<Clash>) -> Option<((usize, usize), (usize, usize))>
    ensures { result ≡ ranges clash }
{
    match clash {
        Some(clash) => Some((clash.committed, clash.submitted)),
        None => None,
    }
}

/// The answer to a site's turn at its feeds.
fn taken_answer(taken: Taken) -> Answer<'static>
    ensures { reply_of result ≡ taken_reply taken }
{
    match taken {
        Taken::Foreign { entries, dropped } => Answer::TookForeign { entries, dropped },
        Taken::Acked { accepted } => Answer::TookAck { accepted },
    }
}

/// All unsent entries of a site sent.
pub fn send(session: &mut Sites, k: usize) -> Result<Answer<'static>, ChangeStop>
    requires site { k < sites session.old }
    requires may { MayTurn request.Send (site_at session.old k).replica }
    ensures answer { IfOk result (λ answer.
        IsAnswered request.Send k session.old answer session.new) }
    ensures refused { IfErr result (IsStopped request.Send k session.old) }
    ensures memory { IfErr result (λ stop.
        stop ≡ ChangeStop.Memory → MayWant request.Send session.old k) }
    ensures kept { OnErr result (session.new ≡ session.old) }
{
    match session.send(k) {
        Ok(entries) => Ok(Answer::Sent(entries)),
        Err(fault) => Err(of_send(fault)),
    }
}

/// The server's turn at the next submission of a site.
pub fn serve(session: &mut Sites, k: usize) -> Result<Answer<'static>, ChangeStop>
    requires site { k < sites session.old }
    requires may { MayTurn request.Serve (site_at session.old k).replica }
    ensures answer { IfOk result (λ answer.
        IsAnswered request.Serve k session.old answer session.new) }
    ensures refused { IfErr result (IsStopped request.Serve k session.old) }
    ensures memory { IfErr result (λ stop.
        stop ≡ ChangeStop.Memory → MayWant request.Serve session.old k) }
    ensures kept { OnErr result (session.new ≡ session.old) }
{
    let Some(served) = session.serve(k)? else {
        return Err(ChangeStop::Refused(Refusal::NothingQueued));
    };
    Ok(Answer::Served {
        accepted: served.accepted,
        total: served.total,
        clash: ranges(served.clash),
    })
}

/// A site's turn at its next feed.
pub fn take<L: Ledger>(
    session: &mut Sites,
    k: usize,
    steps: &mut Steps<L>,
) -> Result<Answer<'static>, ChangeStop>
    requires site { k < sites session.old }
    requires may { MayTurn request.Take (site_at session.old k).replica }
    ensures answer { IfOk result (λ answer.
        IsAnswered request.Take k session.old answer session.new) }
    ensures refused { IfErr result (IsStopped request.Take k session.old) }
    ensures memory { IfErr result (λ stop.
        stop ≡ ChangeStop.Memory → MayWant request.Take session.old k) }
    ensures kept { OnErr result (session.new ≡ session.old) }
    ensures counted { steps.old ≤ steps.new }
    ensures steps { steps.new
        ≤ steps.old
        + cost_completed session.old.session (member_at session.old k) request.Take }
{
    let Some(taken) = session.take(k, steps)? else {
        return Err(ChangeStop::Refused(Refusal::NothingQueued));
    };
    Ok(taken_answer(taken))
}
