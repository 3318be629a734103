// Laws of entries that are taken back: the contract of a function that does nothing.
ghost use Rattle.model_change.specs.Replay.{RevokeTakesBack};
ghost use Rattle.ve_peer_undo.specs.Counting.{EarlierDoNotCount};
ghost use Rattle.ve_peer_undo.specs.Laws.{EarlierDoNotMatter, RevokesRun};

/// Entries that run one after the other from a page meet the precondition of `reversal`, whichever
/// is taken back. Its parcel runs on the list with all entries; the list is then the one that the
/// later entries give without that entry. The parcel is the same where only that entry and the
/// later ones are given; so it is where those alone that count stand above.
pub fn entries_are_taken_back()
    ensures run { RevokesRun }
    ensures back { RevokeTakesBack }
    ensures later { EarlierDoNotMatter }
    ensures counting { EarlierDoNotCount }
{}
