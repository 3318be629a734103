//! Worked examples and refutations of the crates from ve_rebase to ve_sites: each tells a call from
//! one that is wrong in the way that is said above it. They stand here, and not beside their
//! definitions, so that one more proves nothing else again. It has no code.
#![tactic(auto)]
