//! The tests of people and scripts that the stored run of `vemodel` doesn't show: `entries` of
//! ve_rebase, and `run` of ve_run, which feeds a machine of its own. They are proved once as they
//! stand here. There are no other functions and no laws here, and nothing stands on it.
#![tactic(auto)]

#[cfg(test)]
mod entries;
#[cfg(test)]
mod run;
