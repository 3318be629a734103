// Several changes of a site's list as one entry.
ghost use Rattle.std.specs.Prelude.{◌≡◌, ◌≢◌, ◌<◌, ◌≤◌, ◌+◌, IfErr, IfOk, OnErr};
ghost use Rattle.model_world.specs.declared.command.Request.TheVariants as request;
ghost use Rattle.ve_session.specs.Asked.{cost_completed, IsAnswered, IsStopped};
ghost use Rattle.ve_session.specs.Turning.{MayTurn};
ghost use Rattle.ve_sites.specs.Shared.{member_at, site_at, sites};

use crate::edits::len_at;
use model_world::EditCommandList;
use std::alloc::Global;
use std::sync::ledger::Ledger;
use ve_base::Steps;
use ve_changes::{Batch, BatchStop, ChangeStop};
use ve_json::Answer;
use ve_sites::Sites;

/// Changes made in turn, all of them or none.
pub fn batch<L: Ledger>(
    alloc: Global,
    session: &mut Sites,
    k: usize,
    changes: &EditCommandList,
    steps: &mut Steps<L>,
) -> Result<Answer<'static>, ChangeStop>
    requires site { k < sites session.old }
    requires may { MayTurn (request.Batch changes.now) (site_at session.old k).replica }
    ensures answer { IfOk result (λ answer.
        IsAnswered (request.Batch changes.now) k session.old answer session.new) }
    ensures refused { IfErr result (IsStopped (request.Batch changes.now) k session.old) }
    ensures kept { OnErr result (session.new ≡ session.old) }
    ensures counted { steps.old ≤ steps.new }
    ensures steps { IfErr result (λ stop. stop ≢ ChangeStop.Memory)
        → steps.new
        ≤ steps.old
        + cost_completed session.old.session (member_at session.old k) (
        request.Batch changes.now) }
{
    let batch = Batch::new(alloc, changes.as_slice());
    match session.attempt(k, &batch, steps) {
        Ok(()) => Ok(Answer::Length(len_at(session, k))),
        Err(BatchStop::Refused { at, refusal }) => Ok(Answer::NoBatch { at, refusal }),
        Err(BatchStop::Memory) => Err(ChangeStop::Memory),
    }
}
