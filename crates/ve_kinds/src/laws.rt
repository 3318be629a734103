// The laws of kinds and tags, each the contract of a function that does nothing.
ghost use Rattle.ve_kinds.specs.Laws.{KindsHaveOneClass, TagsSpellElements, KindsHaveTheirTags, LeavesAreEmpty, InlineLeavesStandInContent, FlowHoldsBlocks};

/// Each kind is a content branch, a flow kind, a structural kind, a block leaf or an inline leaf,
/// and only one of these.
pub fn kinds_have_one_class()
    ensures { KindsHaveOneClass }
{}

/// The tag of an element kind spells that kind, no other kind has a tag, and a tag spells no kind
/// but its own.
pub fn tags_spell_kinds()
    ensures tag_then_kind { TagsSpellElements }
    ensures kind_then_tag { KindsHaveTheirTags }
{}

/// The classes in words of the table: what leaves, content branches and flow kinds hold.
pub fn classes_hold()
    ensures leaves { LeavesAreEmpty }
    ensures content { InlineLeavesStandInContent }
    ensures flow { FlowHoldsBlocks }
{}
