// The laws of worlds, each on a function that does nothing.
ghost use Rattle.model_world_law.specs.Fit.{LinesAreWritten, CompletedFit, ChangesFit, ChangesStand, MovesFit, MovesStand, PagesAreSound, PagesStand};
ghost use Rattle.model_world_law.specs.Causes.{StoreFullIsFull, MovesFillStore};
ghost use Rattle.model_world_law.specs.Standing.{FragmentsOver, FragmentsWithin, PagesWithin};
ghost use Rattle.model_world_law.specs.Written.{ReferencesAreWritten};
ghost use Rattle.model_world_law.specs.Pasted.{FragmentsAreChildren, PastingStaysLawful};
ghost use Rattle.model_world_law.specs.ShownLaws.{ShownIsRead};
ghost use Rattle.model_world_law.specs.Redone.{LinesRedo};
ghost use Rattle.model_world_law.specs.ViewLines.{LinesShow};
ghost use Rattle.model_world_law.specs.PutBack.{ExactIsRead, OriginsStay, PutBackStays};
ghost use Rattle.model_world_law.specs.Writable.{EveryItemIsWritable, WorldsPutBack, WorldsPutElsewhere};
ghost use Rattle.model_world_law.specs.AheadLaws.{LinesOfTwoSitesSwap};
ghost use Rattle.model_world_law.specs.Reached.{EveryItemStands, EveryWorldIsReached, EverySiteHolds, QuietSitesMeet, SitesMeet, UneditedIsWrittenBack};

use model_edit_law::fragment_stays_lawful;

/// A line that is read asks for operations in normal form, and for no opening with two attributes
/// of one name. It asks for characters and elements alone, with at most 64 marks, and for leaves
/// that no tag spells, each by its origin. Completed from the page, all that it asks for may stand.
/// A sound list is lawful and has names apart. On one, every well-written change gives a reduced
/// transaction that puts in names apart. So do rows, columns and moved list items. Every page that
/// opens is a sound list.
pub fn layers_fit()
    ensures lines { LinesAreWritten }
    ensures completed { CompletedFit }
    ensures changes { ChangesFit }
    ensures moves { MovesFit }
    ensures pages { PagesAreSound }
{}

/// Items that a line can write, elements without origin with well-written attributes, marks and
/// whitespace, are shown so that they are read back.
#[tactic(auto, using(crate::proofs::ShownItemLemmas::shown_is_read))]
pub fn shown_is_read()
    ensures { ShownIsRead }
{}

/// Items that a reply shows are read back by a line with `exact`, but for the heads of leaves that
/// no tag spells. Put anywhere in a list, just these items come to stand there. So they do in every
/// world, where each opening that no tag spells has an origin, but for brackets of the internal list.
/// Put back where they were, they leave the list as it is, and that is accepted where the store is
/// within its limit. For a line can write each item, and each opening with an origin stays one that
/// the page was read with.
pub fn put_back_stays()
    ensures read { ExactIsRead }
    ensures stays { PutBackStays }
    ensures origins { OriginsStay }
    ensures writable { EveryItemIsWritable }
    ensures worlds { WorldsPutBack }
    ensures elsewhere { WorldsPutElsewhere }
{}

/// Want of memory is never the cause of a refusal of a change, a row, a column or a moved list
/// item. Neither is an item that is not the one to be removed. `store_full` is told only where the
/// store would have too many values.
#[tactic(auto, using(crate::proofs::CauseLemmas::store_full_is_full, crate::proofs::CauseLemmas::moves_fill_store))]
pub fn store_full_is_full()
    ensures changes { StoreFullIsFull }
    ensures moves { MovesFillStore }
{}

/// Whatever lines a world is given, it is the result of some events on the sites that began on its
/// page. The laws of sites and server speak of these events. One of the lines opened the page, for
/// just so many sites as there are.
#[tactic(auto, using(crate::proofs::ReachLemmas::every_world_is_reached))]
pub fn every_world_is_reached()
    ensures { EveryWorldIsReached }
{}

/// So each site of every world has a sound list, the replay of what it has seen and made. It has
/// seen no more than is committed. Its store has what the list cites, and each value once. Its
/// selection stands in the list. The server's answers count what it still holds as sent. An entry
/// that it takes back, under all later ones or under those that still count, leaves the list
/// without it. With everything undone, and nothing taken, it has the page's items and the first
/// store.
pub fn every_site_holds()
    ensures { EverySiteHolds }
{}

/// Where a list's items may stand, so may all that a change, a row, a column or a moved list item
/// inserts. These are references that are editable and have their keys, and items with at most 64
/// marks. So may the items of a page that is UTF-8.
pub fn insertions_stand()
    ensures changes { ChangesStand }
    ensures moves { MovesStand }
    ensures pages { PagesStand }
{}

/// A fragment is within its limit exactly where no item has more than 64 marks. Of a page one way
/// is claimed: within its limits none has.
#[tactic(auto, using(crate::proofs::FewMarks::fragment_few, crate::proofs::FewMarks::page_few, crate::proofs::OverMarks::fragment_over))]
pub fn limits_hold()
    ensures fragments { FragmentsWithin }
    ensures over { FragmentsOver }
    ensures pages { PagesWithin }
{}

/// A reference that may stand is written as an element of its group and name. That has the body
/// that the reference carries, where a forest of at most 200 levels spells the body's text, and is
/// not editable where none does. Where the reference carries none, the element uses one by its
/// name, and is not editable where it has no name.
#[tactic(auto, using(crate::proofs::CarriedLemmas::references_are_written))]
pub fn references_are_written()
    ensures { ReferencesAreWritten }
{}

/// So in every world whose page is UTF-8 each item of each site's list may stand.
pub fn every_item_stands()
    ensures { EveryItemStands }
{}

/// A site that has taken nothing and has nothing undone may undo and redo, line by line and in any
/// order. Once nothing is undone again, its list and its store are as before.
#[tactic(auto, using(crate::proofs::RedoneLemmas::lines_redo))]
pub fn lines_redo()
    ensures { LinesRedo }
{}

/// What a site would tell leads from the list that it told last to its list, whatever the lines: what
/// comes is holes, and all else is where it was. So whoever keeps the items and fetches the holes has
/// the list.
pub fn lines_show()
    ensures { LinesShow }
{}

/// Two lines that name two different sites may come in either order, unless the server has its turn
/// in one of them and the other is a turn, too. Each has the same reply, and one world comes of
/// them.
pub fn lines_of_two_sites_swap()
    ensures { LinesOfTwoSitesSwap }
{}

/// Sites that have seen as much, and have nothing pending, have one list, and so write one page.
#[tactic(auto, using(crate::proofs::ReachLemmas::all_sites_meet))]
pub fn sites_meet()
    ensures { SitesMeet }
{}

/// Sites to which no feed waits, and that have nothing pending, have one list, and so write one
/// page.
pub fn quiet_sites_meet()
    ensures { QuietSitesMeet }
{}

/// A site that has the page's items again writes the page as it was opened, byte for byte.
#[tactic(auto, using(crate::proofs::ReachLemmas::unedited_is_written_back))]
pub fn unedited_is_written_back()
    ensures { UneditedIsWrittenBack }
{}

/// The items of a fragment are children of some kind, whatever kinds are open. So pasting one
/// leaves a lawful list lawful, unless nodes are then nested over 100 deep.
pub fn pasting_stays_lawful()
    ensures pieces { FragmentsAreChildren }
    ensures lawful { PastingStaysLawful }
{
    fragment_stays_lawful();
}
