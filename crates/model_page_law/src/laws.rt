// The laws of pages, each the contract of a function that does nothing.
ghost use Rattle.model_page_law.specs.Composed.{ComposedIsBarred, ComposedIsRead, ComposedIsSame, ComposedKeepsBody, ComposedKeepsMembers, ComposedOwns, ComposedReuses, ComposedTwice};
ghost use Rattle.model_page_law.specs.Lawful.{BadPageHasFault, LimitedIsLawful, ReadIsLawful, ReadIsWithin, WithinIsRead};
ghost use Rattle.model_page_law.specs.Origins.{OriginsNumberSpans};
ghost use Rattle.model_page_law.specs.ReadBack.{FreshIsReadBack, FreshOpensAsItself};
ghost use Rattle.model_page_law.specs.Referring.{EditsRefer, FragmentsRefer, InversesRefer, JoinListsRefer, JoinsRefer, OpenedRefers, ReplaysRefer, ReversalsRefer, RevokesRefer, SpelledRefers};
ghost use Rattle.model_page_law.specs.Replaced.{BodyIsReplaced, WrittenIsReadBack, WrittenOpens};
ghost use Rattle.model_page_law.specs.Spans.{BodyIsCut, OriginsStand, RangesAreCompared, SpansAreParts};
ghost use Rattle.model_page_law.specs.WritesFresh.{WholeRangeIsFresh, WritesFresh};
ghost use Rattle.model_page_law.specs.WrittenReference.{ReferenceHasBody, ReferenceIsWritten};
ghost use Rattle.model_page_law.specs.WrittenBack.{FaultlessOpens, OpenedIsFaultless, OpenedIsWrittenBack, OpensAsItsForest, SpelledIsWrittenBack};

/// A page opens exactly where it has no fault, and then as what its forest is converted to.
#[tactic(auto, using(crate::proofs::OpenLemmas::faultless_opens, crate::proofs::OpenLemmas::opened_is_faultless, crate::proofs::OpenLemmas::opens_as_its_forest))]
pub fn page_opens()
    ensures faultless { FaultlessOpens }
    ensures opened { OpenedIsFaultless }
    ensures forest { OpensAsItsForest }
{}

/// A page is read exactly where it opens within all limits, and then as a lawful list. One that is
/// refused for its spelling is refused with its first fault.
#[tactic(auto, using(crate::proofs::OpenPageLemmas::read_is_within, crate::proofs::OpenPageLemmas::read_is_lawful, crate::proofs::OpenPageLemmas::within_is_read, crate::proofs::OpenPageLemmas::bad_page_has_fault, crate::proofs::LawfulLemmas::limited_is_lawful))]
pub fn page_is_read()
    ensures within { ReadIsWithin }
    ensures lawful { ReadIsLawful }
    ensures complete { WithinIsRead }
    ensures fault { BadPageHasFault }
    ensures forest { LimitedIsLawful }
{}

/// The origins of an opened page are the numbers of its spans, each once and in order.
#[tactic(auto, using(crate::proofs::OriginLemmas::origins_number_spans))]
pub fn origins_number_spans()
    ensures { OriginsNumberSpans }
{}

/// The body of an opened page is a range of its whole characters, and so is the span of each
/// origin: a part of the body that is not empty.
pub fn spans_are_parts()
    ensures body { BodyIsCut }
    ensures spans { SpansAreParts }
{}

/// The node of each origin stands in the list of the opened page, from its opening to the closing
/// of that. A node of that origin is compared with the items there, where it may be kept.
pub fn origins_stand()
    ensures stands { OriginsStand }
    ensures compared { RangesAreCompared }
{}

/// Each reference of an opened page has its key and an editable `data-mw`, and each internal item
/// has its key.
#[tactic(auto, using(crate::proofs::PageRefers::opened_refers, crate::proofs::PageRefers::spelled_refers))]
pub fn references_are_editable()
    ensures opened { OpenedRefers }
    ensures spelled { SpelledRefers }
{}

/// Edits keep this. A transaction that inserts only such items keeps it of every list, whatever
/// attributes it sets. Where it is undone, joined with others or taken back under later ones, only
/// such items are inserted. Fragments are such items.
pub fn edits_keep_references()
    ensures edited { EditsRefer }
    ensures undone { InversesRefer }
    ensures joined { JoinsRefer }
    ensures replayed { ReplaysRefer }
    ensures reversed { ReversalsRefer }
    ensures lists { JoinListsRefer }
    ensures revoked { RevokesRefer }
    ensures fragments { FragmentsRefer }
{}

/// A `data-mw` that is composed with another body is read as it was, with that body. So it is
/// editable, of the same group and name, and has that body, where a forest spells the body's text.
pub fn composed_reads_back()
    ensures value { ComposedIsRead }
    ensures members { ComposedKeepsMembers }
    ensures body { ComposedKeepsBody }
    ensures twice { ComposedTwice }
    ensures owns { ComposedOwns }
    ensures same { ComposedIsSame }
    ensures barred { ComposedIsBarred }
    ensures reuses { ComposedReuses }
{}

/// A reference is written as an element of its tag and its source, with the attributes of its head
/// but for the composed `data-mw`. So the element is editable, of the same group and name, and has
/// the body that the reference carries, where a forest spells that body's text.
pub fn reference_is_written()
    ensures written { ReferenceIsWritten }
    ensures body { ReferenceHasBody }
{}

/// A page that opens, and is written with the items that it has, is that page, byte for byte.
#[tactic(auto, using(crate::proofs::KeptLemmas::opened_is_written_back, crate::proofs::KeptLemmas::spelled_is_written_back))]
pub fn page_is_written_back()
    ensures opened { OpenedIsWrittenBack }
    ensures spelled { SpelledIsWrittenBack }
{}

/// A lawful list that was written fresh is read back, up to origins and the flag generated, where
/// it has nothing that is kept whole.
#[tactic(auto, using(crate::proofs::FormLemmas::fresh_is_read_back, crate::proofs::FreshOpens::fresh_opens_as_itself))]
pub fn fresh_is_read_back()
    ensures forest { FreshIsReadBack }
    ensures page { FreshOpensAsItself }
{}

/// Where no node is kept, the page is its prefix, the fresh text and its suffix.
#[tactic(auto, using(crate::proofs::FreshLemmas::writes_fresh))]
pub fn writes_fresh()
    ensures { WritesFresh }
{}

/// The range of all items is written fresh as the list is.
#[tactic(auto, using(crate::proofs::WholeRangeLemmas::whole_range_is_fresh))]
pub fn whole_range_is_fresh()
    ensures { WholeRangeIsFresh }
{}

/// A page with another body that a forest spells opens with that body: its prefix and its suffix
/// are found again. So does the page that is written of any list. Where the list is of the form
/// above, and no node of it is kept, the whole page is read back as the list.
pub fn written_page_opens()
    ensures replaced { BodyIsReplaced }
    ensures opens { WrittenOpens }
    ensures read_back { WrittenIsReadBack }
{}
