// Laws of sites and server, whatever happens. Each function does nothing, and its contract is a law
// that is proved.
ghost use Rattle.model_site_law.specs.Laws.{AckCounts, CommittedRun, EntriesJoin, EntriesRun, EntriesWithin, FirstReplicaOpens, FirstStoreIsDistinct, HintsStandBeside, JoinedUntilConflict, ListIsReplay, ListIsSound, LiveRevokeGivesBack, LiveRevokeIsWithout, OneList, RedoIsAccepted, RedoneIsAsBefore, RevokeLeavesOut, SeenIsCommitted, SitesStay, StoreHolds, StoreIsDistinct, UndoIsAccepted, UndoneAtOnce, UndoneIsFirst};
ghost use Rattle.model_site_law.specs.LiveLaws.{LiveRevokeLeavesOut, NothingStandsAbove, OwnStepsAreFree, OwnStepsGiveBack, StepsRun, TakenBackCountsNoMore, WhatCountsIsAll};
ghost use Rattle.model_site_law.specs.SelectionLaws.{FirstSelectionStands, MovedStands, SelectionStands};
ghost use Rattle.model_site_law.specs.MayHappen.{EditMayRun};
ghost use Rattle.model_site_law.specs.ItemLaws.{ItemsKeep, RevocationsKeep};
ghost use Rattle.model_site_law.specs.KeptLaws.{EventsKeep, HoldsAtFirst};
ghost use Rattle.model_site_law.specs.StoreLaws.{StoreBegins};
ghost use Rattle.model_site_law.specs.QuietLaws.{QuietSitesMeet, ServingLowers, TakingLowers};
ghost use Rattle.model_site_law.specs.ViewLaws.{PatchesCount, PatchesLead, TellsWhatWasMade, ViewHolds};

/// Entries are joined over committed transactions up to the first conflict. The transactions of
/// those kept join as one list, and with the next entry's they have that conflict. So an entry is
/// refused or dropped exactly where it or an earlier one conflicts. Those kept run after a foreign
/// entry; it runs, joined, after those kept, and either way gives one list. "Runs" is said of
/// transactions that are reduced, apply one after the other, each leave a lawful list, and can be
/// undone. Joined, none is longer than the list with all that both sides insert.
pub fn entries_join()
    ensures first { JoinedUntilConflict }
    ensures agree { EntriesJoin }
    ensures within { EntriesWithin }
{}

/// A site's list is the replay of the committed entries that it has seen, of those it has sent and
/// of those unsent, in this order. All of these run from the base, and so do all committed entries,
/// although neither the server nor a take asks for it. So the list is lawful.
pub fn lists_are_replays()
    ensures list { ListIsReplay }
    ensures runs { EntriesRun }
    ensures committed { CommittedRun }
    ensures sound { ListIsSound }
{}

/// A site has seen no more entries than are committed, and there are always as many sites as began.
#[tactic(auto, using(crate::proofs::CountLemmas::seen_is_committed, crate::proofs::CountLemmas::sites_stay))]
pub fn counts_stay_within()
    ensures seen { SeenIsCommitted }
    ensures sites { SitesStay }
{}

/// The number that the server accepts is the number of entries that the site still holds as sent
/// when it takes the answer.
pub fn acks_count()
    ensures { AckCounts }
{}

/// Sites that have seen as many committed entries, and have nothing pending, have one list.
pub fn sites_meet()
    ensures { OneList }
{}

/// Less waits after each turn of the server at a submission, and after each turn of a site at a
/// feed. So turns alone come to where nothing waits, in whatever order. Sites to which no feed waits
/// have seen all that is committed; if they have nothing pending, they have one list.
pub fn turns_come_to_rest()
    ensures serving { ServingLowers }
    ensures taking { TakingLowers }
    ensures meet { QuietSitesMeet }
{}

/// A site's store has every value that its list cites, also after an undo that follows a take, and
/// has each once. The store that a list is opened with has them.
pub fn stores_hold()
    ensures first { FirstReplicaOpens }
    ensures always { StoreHolds }
    ensures distinct { FirstStoreIsDistinct }
    ensures once { StoreIsDistinct }
{}

/// Every site's store begins with the store that was opened, whatever happened. Each pending entry
/// was made on a store that has as many values or more. No undo cuts it shorter, and where a value
/// stood first it stays.
pub fn stores_begin()
    ensures { StoreBegins }
{}

/// A selection that has moved through a transaction stands in the new list, with no end inside a
/// leaf; so a site's selection always stands in its list.
pub fn selections_stand()
    ensures first { FirstSelectionStands }
    ensures moved { MovedStands }
    ensures always { SelectionStands }
{}

/// After an entry is taken back the list is the one that the later entries give without it, joined
/// over its reversal. Where what took each other back does not stand in the way, it is the one that
/// what counts behind the entry gives without it. Where nothing behind it counts, the entry is taken
/// back, and the list is the one before it.
pub fn revokes_leave_out()
    ensures all { RevokeLeavesOut }
    ensures live { LiveRevokeIsWithout }
    ensures before { LiveRevokeGivesBack }
{}

/// The same of every list of entries that run from a page, in whatever order they came. An entry and
/// what counts behind it run, and give the list that all entries give: so what took each other back
/// leaves nothing. What takes the entry back runs on that list, and the list is then as it would be,
/// had the entry never been made.
pub fn what_counts_is_all()
    ensures all { WhatCountsIsAll }
    ensures left_out { LiveRevokeLeavesOut }
    ensures before { NothingStandsAbove }
{}

/// An entry that was taken back counts no more. The one that took it back is told by its number, also
/// where others committed entries in between that took nothing back.
pub fn taken_back_counts_no_more()
    ensures { TakenBackCountsNoMore }
{}

/// A person makes entries, takes back the newest that counts, and makes again the newest that was
/// taken back, in any order and however often; others make entries in between, which take nothing
/// back. Then nothing of the person's own stands in the way of the next step: only what others made
/// can. All entries run where those that are made do. Where nobody else made one, each is taken back,
/// and the list before it is there again.
pub fn steps_are_free()
    ensures free { OwnStepsAreFree }
    ensures runs { StepsRun }
    ensures lists { OwnStepsGiveBack }
{}

/// There are as many hints as entries, of those committed, submitted, undone and known to a site. So
/// each entry has its own beside it.
pub fn hints_stand_beside()
    ensures { HintsStandBeside }
{}

/// An undo is accepted wherever something is unsent, and a redo wherever something is undone. Each
/// takes one entry from there.
#[tactic(auto, using(crate::proofs::HintLemmas::undo_is_accepted, crate::proofs::HintLemmas::redo_is_accepted))]
pub fn turns_are_accepted()
    ensures undo { UndoIsAccepted }
    ensures redo { RedoIsAccepted }
{}

/// Undoing at once leaves list and store as they were, whatever happened before. A site that has
/// taken nothing and has nothing pending has its first list and its first store. One that has taken
/// nothing and has nothing undone may undo and redo, in any order. Once nothing is undone again,
/// its list and its store are as before.
pub fn undo_gives_back()
    ensures once { UndoneAtOnce }
    ensures undone { UndoneIsFirst }
    ensures redone { RedoneIsAsBefore }
{}

/// The invariant of sites, queues and server together, in the terms that the code keeps. It holds
/// at first, and each event that may happen keeps it. A transaction that a site does not refuse may
/// be performed, if it is reduced and inserts names apart, as all transactions of that type are.
pub fn events_keep()
    ensures first { HoldsAtFirst }
    ensures then { EventsKeep }
    ensures edits { EditMayRun }
{}

/// The patches of transactions lead from a list to the one that they give: what they put in are
/// holes, and all else is where it was. So what a site would tell leads from the list that it told
/// last to its list, whatever happened. Whoever keeps the items and fetches the holes has the list.
pub fn views_hold()
    ensures lead { PatchesLead }
    ensures always { ViewHolds }
{}

/// A site tells the patches of the transactions that it made since it told last. They take out and
/// put in as many items as those do, and one for each attribute that is set. Where there are over
/// 1,000 patches, one stands for all.
pub fn patches_count()
    ensures count { PatchesCount }
    ensures made { TellsWhatWasMade }
{}

/// A property that each opened and each inserted item has, and that setting the attributes that are
/// set keeps, holds of each item of every site's list. What is undone, redone, joined and taken back
/// puts in nothing else, and so it is of entries that run from any page.
pub fn items_keep()
    ensures always { ItemsKeep }
    ensures revoked { RevocationsKeep }
{}
