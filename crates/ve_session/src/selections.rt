// The selection of a site.
ghost use Rattle.std.specs.Prelude.{◌≡◌, ◌<◌, IfErr, IfOk, OnErr};
ghost use Rattle.model_world.specs.declared.command.Request.TheVariants as request;
ghost use Rattle.model_site.specs.Site.{with_selection};
ghost use Rattle.model_site_law.specs.SelectionLaws.{StandsIn};
ghost use Rattle.ve_session.specs.Asked.{IsAnswered, IsStopped, MayWant};
ghost use Rattle.ve_session.specs.Turning.{MayTurn};
ghost use Rattle.ve_sites.specs.Shared.{site_at, sites, with_site_at};

use crate::edits::doc_at;
use model_edit::{By, Dir, Selection};
use std::alloc::Global;
use ve_changes::{ChangeStop, carets_are_asked, may_select, next_place};
use ve_json::Answer;
use ve_sites::Sites;

/// Selects, and tells where.
fn set_selection(session: &mut Sites, k: usize, selection: Selection) -> Answer<'static>
    requires site { k < sites session.old }
    requires stands { StandsIn (site_at session.old k).replica.items selection }
    ensures answer { result ≡ Answer.Caret selection.anchor selection.focus }
    ensures session { session.new
        ≡ with_site_at k (with_selection selection (site_at session.old k)) session.old }
{
    session.select(k, selection);
    Answer::Caret {
        anchor: selection.anchor,
        focus: selection.focus,
    }
}

/// Both ends of a site's selection set.
pub fn select(
    session: &mut Sites,
    k: usize,
    anchor: usize,
    focus: usize,
) -> Result<Answer<'static>, ChangeStop>
    requires site { k < sites session.old }
    requires may { MayTurn (request.Select anchor focus) (site_at session.old k).replica }
    ensures answer { IfOk result (λ answer.
        IsAnswered (request.Select anchor focus) k session.old answer session.new) }
    ensures refused { IfErr result (IsStopped (request.Select anchor focus) k session.old) }
    ensures memory { IfErr result (λ stop.
        stop ≡ ChangeStop.Memory → MayWant (request.Select anchor focus) session.old k) }
    ensures kept { OnErr result (session.new ≡ session.old) }
{
    carets_are_asked();
    match may_select(doc_at(session, k), anchor, focus) {
        Ok(selection) => Ok(set_selection(session, k, selection)),
        Err(refusal) => Err(ChangeStop::Refused(refusal)),
    }
}

/// The end of a site's selection that moves set to its next position, and the other with it unless
/// it is kept.
pub fn move_caret(
    alloc: Global,
    session: &mut Sites,
    k: usize,
    dir: Dir,
    by: By,
    keep: bool,
) -> Result<Answer<'static>, ChangeStop>
    requires site { k < sites session.old }
    requires may { MayTurn (request.Move dir by keep) (site_at session.old k).replica }
    ensures answer { IfOk result (λ answer.
        IsAnswered (request.Move dir by keep) k session.old answer session.new) }
    ensures refused { IfErr result (IsStopped (request.Move dir by keep) k session.old) }
    ensures kept { OnErr result (session.new ≡ session.old) }
{
    let selection = session.site(k).editor().selection();
    let at = next_place(alloc, doc_at(session, k), selection.focus, dir, by)?;
    let anchor = if keep { selection.anchor } else { at };
    Ok(set_selection(session, k, Selection { anchor, focus: at }))
}
