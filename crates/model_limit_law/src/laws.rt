// Where pages are over their limits. Each function does nothing, and its contract is a law that is
// proved.
ghost use Rattle.model_limit_law.specs.Counted.{MarksHavePlaces, OpeningsAreCounted};
ghost use Rattle.model_limit_law.specs.First.{FirstIsRefused, FragmentsAtFirst, OpeningTellsLimits, RefusedIsFirst};
ghost use Rattle.model_limit_law.specs.Items.{FirstItemIsOver, LimitsAreOfItems};

/// Counts of a page are those of its list: each opening, with the kinds that are open at it, and as
/// many starts of marks as each marked item has marks.
pub fn counts_are_of_items()
    ensures openings { OpeningsAreCounted }
    ensures marks { MarksHavePlaces }
{}

/// A page is refused for its nesting or its marks exactly where something of it is over these
/// limits, and at the first such thing. That is the first opening inside of 100 kinds, or the
/// element that gives the first item with more than 64 marks its 65th, whichever begins first. So
/// is a fragment for its marks. The line that opens a page is answered so, and in no other case.
pub fn over_limit_is_first()
    ensures first { RefusedIsFirst }
    ensures refused { FirstIsRefused }
    ensures fragments { FragmentsAtFirst }
    ensures told { OpeningTellsLimits }
{}

/// A page is within these limits exactly where its list is lawful and no item has more than 64
/// marks. Else one item decides the limit, reference bodies and all: the first that has more than
/// 64 marks or opens inside of 100 kinds.
pub fn limits_are_of_items()
    ensures within { LimitsAreOfItems }
    ensures over { FirstItemIsOver }
{}
