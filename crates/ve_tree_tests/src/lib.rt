//! The tests of items and tree that the stored run of `vemodel` doesn't show: of ve_items, ve_arena
//! and ve_samples, a module for each. They are proved once as they stand here. There are no other
//! functions and no laws here, and nothing stands on it.
#![tactic(auto)]

#[cfg(test)]
mod arena;
#[cfg(test)]
mod items;
#[cfg(test)]
mod samples;
