// Laws of transactions and of whole histories. Each function does nothing, and its contract is a
// law that is proved.
ghost use Rattle.model_change.specs.Attributes.{ChangeIsUndone, FilledPutsBack, ChangesCommute};
ghost use Rattle.model_change.specs.Fault.{FaultIsFirst, FaultIsOnly, GivesNewLength, NamesStayApart};
ghost use Rattle.model_change.specs.Inverse.{InverseUndoes, InverseIsReduced, InverseIsNormal, FillingIsNeutral};
ghost use Rattle.model_change.specs.Join.{OnlyActiveChanges, ConflictIsSymmetric, JoinsAgree, JoinsLawful, JoinsReduced, JoinsLengths, JoinsNormal, JoinsRestorable, JoinsApart};
ghost use Rattle.model_change.specs.Replay.{JoinListsAgree, JoinListsWithin, ReversalUndoes, RevokeTakesBack, RevokeOfLast, RevokeIsWithin};
ghost use Rattle.model_change.specs.Store.{FillAppends, HeadsAreChanged, BroughtIsNew};
ghost use Rattle.model_change.specs.Touch.{NodesAreCounted, RetainedStays};

/// One attribute's change. The change back undoes it where names are apart and what it removes is
/// put back. Keeping the position of what it removes sees to that. Two changes of one item that do
/// not clash may be made in either order.
pub fn attributes_change_back()
    ensures undone { ChangeIsUndone }
    ensures filled { FilledPutsBack }
    ensures commute { ChangesCommute }
{}

/// Where a reduced transaction does not apply, the cause that is given is the first, in positions
/// of the old list, and the only one. First come lengths that do not add up. Next is the first
/// removed item that the list does not have at its position. Last is the first attribute operation
/// that the item there does not allow.
pub fn faults_are_first()
    ensures first { FaultIsFirst }
    ensures only { FaultIsOnly }
{}

/// A transaction that applies gives a list of its new length. All outside its active range is as it
/// was. Names are apart in it where they were, and where they are in the inserted items.
pub fn transactions_give()
    ensures length { GivesNewLength }
    ensures active { OnlyActiveChanges }
    ensures apart { NamesStayApart }
{}

/// The inverse gives the old list back. The transaction is reduced and applies, the list's names
/// are apart, and each removed attribute would be put back at its position. A filled transaction
/// would put them back, and does the same as before. The inverse keeps the normal form.
pub fn transactions_are_undone()
    ensures undone { InverseUndoes }
    ensures reduced { InverseIsReduced }
    ensures normal { InverseIsNormal }
    ensures filled { FillingIsNeutral }
{}

/// Two reduced transactions that apply to one list and do not conflict, joined: each applies after
/// the other, and either order gives one list. It is lawful where the list is and either change
/// alone leaves it lawful. What is joined is reduced, inserts what it did, and can put back what it
/// removes where it could. It keeps the bound of the normal form where the list with all that both
/// insert is within it.
pub fn joins_agree()
    ensures symmetric { ConflictIsSymmetric }
    ensures agree { JoinsAgree }
    ensures lawful { JoinsLawful }
    ensures reduced { JoinsReduced }
    ensures lengths { JoinsLengths }
    ensures normal { JoinsNormal }
    ensures restorable { JoinsRestorable }
    ensures apart { JoinsApart }
{}

/// The same of whole lists of transactions that run from one lawful list, of their reversal, and of
/// an entry that is taken back under later ones. Each transaction is reduced, applies, leaves a
/// lawful list, can put back what it removes, and inserts names apart.
pub fn histories_agree()
    ensures joined { JoinListsAgree }
    ensures within { JoinListsWithin }
    ensures reversed { ReversalUndoes }
    ensures revoked { RevokeTakesBack }
    ensures last { RevokeOfLast }
    ensures short { RevokeIsWithin }
{}

/// Filling a list of values appends those that are new, each once, and then holds all of them. A
/// reduced transaction, on a list that is long enough, brings the values that its inserted items
/// cite. It also brings the heads, in the new list, of the openings whose attributes it changes,
/// and nothing else.
pub fn values_are_filled()
    ensures filled { FillAppends }
    ensures heads { HeadsAreChanged }
    ensures brought { BroughtIsNew }
{}

/// Touched nodes are found by retained positions: what is retained stands at its new position with
/// the shape that it had, and the inverse leads back. All nodes are counted. (`model_change_law`
/// says what becomes of the rest of it: attributes change, nothing else.)
pub fn retained_items_stay()
    ensures retained { RetainedStays }
    ensures counted { NodesAreCounted }
{}
