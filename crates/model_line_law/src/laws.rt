// Laws of the worlds that lines lead to. Each function does nothing, and its contract is a law that
// is proved.
ghost use Rattle.model_line_law.specs.Pages.{ItemsStandAfterLines, OpenedIsUtf8, OpenedItemsStand, UneditedPageIsWrittenBack};
ghost use Rattle.model_line_law.specs.Texts.{StringsAreUtf8};

/// Every string of a line that is read as JSON, and every name of a member, is UTF-8.
pub fn texts_of_lines_are_utf8()
    ensures { StringsAreUtf8 }
{}

/// In every world that lines lead to, the page that was opened is UTF-8.
pub fn opened_pages_are_utf8()
    ensures { OpenedIsUtf8 }
{}

/// With no premise on the page, its items are a sound list, and each of them may stand. So may each
/// item of each site's list. A site that has the page's items writes the page as it was opened, byte
/// for byte.
pub fn pages_of_lines_stand()
    ensures opened { OpenedItemsStand }
    ensures items { ItemsStandAfterLines }
    ensures written { UneditedPageIsWrittenBack }
{}
