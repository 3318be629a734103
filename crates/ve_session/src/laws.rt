// Laws of a world's replies. Each function does nothing, and its contract is the law.
ghost use Rattle.ve_session.specs.Laws.{ChangesLead, LeadsAsDefined, UneditedIsTold, WritesAsDefined};

use model_line_law::pages_of_lines_stand;
use model_world_law::lines_show;

/// Where lines lead to a page, and a site's list is as it was opened, `html` gives that page to it,
/// byte for byte.
pub fn unedited_page_is_told()
    ensures { UneditedIsTold }
{
    pages_of_lines_stand();
}

/// What a site answers to `changes` leads from the list that it told last to its list, whatever the
/// lines: what comes is holes, and all else is where it was.
pub fn changes_lead_on()
    ensures { ChangesLead }
{
    lines_show();
}

/// The output of a world for a script, as a machine, is that of the definitions from the same
/// world, and the world after it is theirs.
#[tactic(auto, using(crate::proofs::PlainLemmas::writes_as_defined, crate::proofs::PlainLemmas::leads_as_defined))]
pub fn world_answers_as_defined()
    ensures writes { WritesAsDefined }
    ensures leads { LeadsAsDefined }
{}
