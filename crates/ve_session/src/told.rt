// What changed in a site's list.
ghost use Rattle.std.specs.Prelude.{◌≡◌, ◌<◌, IfErr, IfOk, OnErr};
ghost use Rattle.model_world.specs.declared.command.Request.TheVariants as request;
ghost use Rattle.ve_session.specs.Asked.{IsAnswered, IsStopped};
ghost use Rattle.ve_session.specs.Turning.{MayTurn};
ghost use Rattle.ve_sites.specs.Shared.{site_at, sites};

use crate::edits::len_at;
use model_world::PatchList;
use ve_changes::ChangeStop;
use ve_json::Answer;
use ve_sites::Sites;

/// What changed in a site's list since the site last told it; from then on it has told it.
pub fn tell(session: &mut Sites, k: usize) -> Result<Answer<'static>, ChangeStop>
    requires site { k < sites session.old }
    requires may { MayTurn request.Tell (site_at session.old k).replica }
    ensures answer { IfOk result (λ answer.
        IsAnswered request.Tell k session.old answer session.new) }
    ensures refused { IfErr result (IsStopped request.Tell k session.old) }
    ensures kept { OnErr result (session.new ≡ session.old) }
{
    let patches = session.told(k)?;
    let count = len_at(session, k);
    session.tell(k);
    Ok(Answer::Told {
        count,
        patches: PatchList::from_vec(patches),
    })
}
