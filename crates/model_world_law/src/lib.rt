//! Invariants of a world, whatever lines it was given. It has laws alone: their subjects are
//! `model_world`'s and the layers' below it. Definitions stand in specs/, in this order:
//!
//! - `Standing`: which items a page under edit may have ([`limits_hold`]);
//! - `Written`: what a reference that may stand is written as ([`references_are_written`]);
//! - `Fit`: what a line that is read can ask, and that what it asks is what the layers below expect
//!   ([`layers_fit`], [`insertions_stand`]);
//! - `ShownLaws`: items that a line can write, and that they are shown so that they are read back
//!   ([`shown_is_read`]);
//! - `PutBack`, `Writable`: items that are put back as they were shown, and that a line can write all
//!   items of every list ([`put_back_stays`]);
//! - `Causes`: when a refusal tells of a full store ([`store_full_is_full`]);
//! - `Pasted`: what a fragment becomes stands together under some kind, so pasting keeps the law
//!   ([`pasting_stays_lawful`]);
//! - `Reached`: the events that make a world ([`every_world_is_reached`]), and what each of its
//!   sites holds ([`every_site_holds`], [`every_item_stands`]). Also when sites have one list
//!   ([`sites_meet`], [`quiet_sites_meet`]), and when a page is written as it was opened ([`unedited_is_written_back`]);
//! - `AheadLaws`: lines that name two sites, in either order ([`lines_of_two_sites_swap`]);
//! - `Redone`: what a site undoes and redoes, line by line ([`lines_redo`]);
//! - `ViewLines`: what whoever keeps a copy of a site's list has of it, by what the site tells
//!   ([`lines_show`]).
#![tactic(auto)]

mod laws;

pub use laws::{
    every_item_stands, every_site_holds, every_world_is_reached, insertions_stand, layers_fit,
    limits_hold, lines_of_two_sites_swap, lines_redo, lines_show, pasting_stays_lawful,
    put_back_stays, quiet_sites_meet, references_are_written, shown_is_read, sites_meet,
    store_full_is_full, unedited_is_written_back,
};
