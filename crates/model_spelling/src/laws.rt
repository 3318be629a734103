// The laws of the spelling of a page: they speak of the definitions alone.
ghost use Rattle.model_spelling.specs.Canonical.{WritesRight, CanWrite};
ghost use Rattle.model_spelling.specs.Laws.{ReadIsSpelled, SpelledIsRead, RawReadIsSpelled, RawSpelledIsRead, EmptyRawIsNoToken, FaultlessIsSpelled, SpelledIsFaultless, OneForestSpells, SpellingIsReadBack, ReadForestSpells, BodyInside, PartsAreThePage, BodyIsFound, BodyIsOnly};
ghost use Rattle.model_spelling.specs.Standing.{FaultStands, UnclosedGoes, LastsOrMayGo, CutReferenceGoes, CutDoctypeGoes};
ghost use Rattle.model_spelling.specs.Utf8.{DecodesUtf8, ForestUtf8};

/// Tokens are read exactly where they are spelled so.
#[tactic(auto, using(crate::proofs::Proved::law_token_found, crate::proofs::Proved::law_token_only, crate::proofs::Proved::law_raw_found, crate::proofs::Proved::law_raw_only, crate::proofs::Proved::law_raw_none))]
pub fn token_laws()
    ensures found { ReadIsSpelled }
    ensures only { SpelledIsRead }
    ensures raw_found { RawReadIsSpelled }
    ensures raw_only { RawSpelledIsRead }
    ensures raw_none { EmptyRawIsNoToken }
{}

/// A text without a fault is spelled by one forest, and by no other.
#[tactic(auto, using(crate::proofs::Proved::law_found, crate::proofs::Proved::law_only, crate::proofs::Proved::law_unique, crate::proofs::Proved::law_reads_back, crate::proofs::Proved::law_reads_right))]
pub fn forest_laws()
    ensures found { FaultlessIsSpelled }
    ensures only { SpelledIsFaultless }
    ensures unique { OneForestSpells }
    ensures reads_back { SpellingIsReadBack }
    ensures reads_right { ReadForestSpells }
{}

/// Each fault stands however the text goes on, or it is one of the text's end, and some text after
/// it makes it go: U+0000 where something is unclosed, the rest of a reference or a doctype where
/// the end cuts it.
#[tactic(auto, using(crate::proofs::Proved::law_fault_stands, crate::proofs::Proved::law_unclosed_goes, crate::proofs::Proved::law_stands_or_goes, crate::proofs::Proved::law_cut_reference_goes, crate::proofs::Proved::law_cut_doctype_goes))]
pub fn prefix_laws()
    ensures stands { FaultStands }
    ensures goes { UnclosedGoes }
    ensures each { LastsOrMayGo }
    ensures cut_reference { CutReferenceGoes }
    ensures cut_doctype { CutDoctypeGoes }
{}

/// The canonical spelling is read back, with the decoded values that were written.
#[tactic(auto, using(crate::proofs::Proved::law_writes_right, crate::proofs::Proved::law_can_write))]
pub fn canonical_laws()
    ensures writes { WritesRight }
    ensures can_write { CanWrite }
{}

/// The body of a page lies in it, and the three parts are the page. In a whole page the body is
/// what stands between its first body start tag and the last `</body>` after that, and nothing
/// else.
#[tactic(auto, using(crate::proofs::Proved::law_body_inside, crate::proofs::Proved::law_parts_are_the_page, crate::proofs::Proved::law_body_is_found))]
pub fn page_laws()
    ensures inside { BodyInside }
    ensures parts { PartsAreThePage }
    ensures found { BodyIsFound }
    ensures only { BodyIsOnly }
{}

/// Decoding a UTF-8 text gives UTF-8, and so is each node of it.
#[tactic(auto, using(crate::proofs::Proved::law_decodes_utf8, crate::proofs::Proved::law_forest_utf8))]
pub fn utf8_laws()
    ensures decodes { DecodesUtf8 }
    ensures nodes { ForestUtf8 }
{}
