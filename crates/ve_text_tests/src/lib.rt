//! The tests of the base and of page text that the stored run of `vemodel` doesn't show: of
//! ve_base, ve_html_tree and ve_html_write, a module for each. They are proved once as they stand
//! here. There are no other functions and no laws here, and nothing stands on it.
#![tactic(auto)]

#[cfg(test)]
mod base;
#[cfg(test)]
mod tree;
#[cfg(test)]
mod write;
