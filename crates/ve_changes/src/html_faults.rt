// Which refusal the fault of the text of a page or of a fragment is.
ghost use Rattle.std.specs.Prelude.{◌≡◌};

use crate::ChangeStop;
use model_world::{HtmlWord, Refusal};
use ve_html_tree::HtmlFault;
use ve_read::FragmentFault;

fn html_word(word: HtmlWord, at: usize) -> ChangeStop
    ensures { result ≡ ChangeStop.Refused (Refusal.Html word at) }
{
    ChangeStop::Refused(Refusal::Html { word, at })
}

impl From<HtmlFault> for ChangeStop {
    ghost use Rattle.std.specs.Prelude.{◌≡◌};
    ghost use Rattle.ve_changes.specs.HtmlStops.{html_stop};

    ghost from_gives = { λ fault given. given ≡ html_stop fault };

    fn from(fault: HtmlFault) -> Self {
        match fault {
            HtmlFault::Scan(fault) => html_word(HtmlWord::Scan(fault.what), fault.at),
            HtmlFault::Mismatched { at } => html_word(HtmlWord::Mismatched, at),
            HtmlFault::Unclosed { at } => html_word(HtmlWord::Unclosed, at),
            HtmlFault::Stray { at } => html_word(HtmlWord::Stray, at),
            HtmlFault::TooDeep { at } => html_word(HtmlWord::TooDeep, at),
            HtmlFault::Memory => ChangeStop::Memory,
        }
    }
}

impl From<FragmentFault> for ChangeStop {
    ghost use Rattle.std.specs.Prelude.{◌≡◌};
    ghost use Rattle.ve_changes.specs.HtmlStops.{fragment_stop};

    ghost from_gives = { λ fault given. given ≡ fragment_stop fault };

    fn from(fault: FragmentFault) -> Self {
        match fault {
            FragmentFault::Html(fault) => ChangeStop::from(fault),
            FragmentFault::TooManyMarks { at } => ChangeStop::Refused(Refusal::TooManyMarks { at }),
            FragmentFault::Memory => ChangeStop::Memory,
        }
    }
}
