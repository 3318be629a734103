//! Invariants of sites and server, over every list of events. It defines no event: those are
//! `model_site`'s. There are definitions in specs/:
//!
//! - `Sound`: the lists and changes of which the laws speak;
//! - `MayHappen`: the events that they are of. A transaction that is performed is to be reduced, to
//!   apply, to leave a lawful list, and to insert no opening with two attributes of one name. An
//!   entry that is taken back is to be seen, and all else may happen at any time. No limit on items
//!   or values is among the premises;
//! - `Laws`: that each list is a replay, that sites meet, that stores hold what lists cite, what an
//!   undo and a revoke give back;
//! - `LiveLaws`: that what counts of entries gives the list that all give, and what is left where one
//!   is taken back under it; and what a person takes back and makes again, step by step;
//! - `Chain`, `Holds`, `Protocol`: what always holds of a store, of a site, and of sites, queues
//!   and server together;
//! - `SelectionLaws`: where the ends of selections stand;
//! - `ItemLaws`: what holds of each item of every list, since it holds of each that is inserted;
//! - `StoreLaws`: what the store of every site begins with;
//! - `ViewLaws`: what whoever keeps a copy of a list has of it, by the patches that its site tells;
//!   and what these count;
//! - `QuietLaws`: turns of server and sites come to an end, where sites have one list;
//! - `KeptLaws`: all this holds at first and after each event.
//!
//! The laws stand in `laws`: each public function there does nothing, and its contract is a law
//! that is proved.
#![tactic(auto)]

mod laws;

pub use laws::{
    acks_count, counts_stay_within, entries_join, events_keep, hints_stand_beside, items_keep,
    lists_are_replays, patches_count, revokes_leave_out, selections_stand, sites_meet,
    steps_are_free, stores_begin, stores_hold, taken_back_counts_no_more, turns_are_accepted,
    turns_come_to_rest, undo_gives_back, views_hold, what_counts_is_all,
};
