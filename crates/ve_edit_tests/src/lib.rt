//! The tests of values, changes, pages and edits that the stored run of `vemodel` doesn't show:
//! `store` of ve_store, `changes` of ve_tx, `repairs` of ve_repair, `fresh` of ve_write and `plans`
//! of model_edit. They are proved once as they stand here. There are no other functions and no laws
//! here, and nothing stands on it.
#![tactic(auto)]

#[cfg(test)]
mod changes;
#[cfg(test)]
mod fresh;
#[cfg(test)]
mod plans;
#[cfg(test)]
mod repairs;
#[cfg(test)]
mod store;
