//! Transactions on lists of items: the list that each gives, where it applies, its inverse, the
//! join of two, and laws of whole histories. It knows no site and no selection, and not how an edit
//! becomes a transaction. There are definitions in specs/:
//!
//! - `Attributes`: the change of one attribute;
//! - `Transaction`: operations along a list, the list that they give, and the normal form;
//! - `Fault`: where a transaction applies, and the first cause where it doesn't;
//! - `Inverse`: what undoes a transaction;
//! - `Join`: when two transactions conflict, and each over the other where they don't;
//! - `Replay`: whole lists of transactions joined, taken back, and taken back under later ones;
//! - `Store`: the values that items cite, and the list that changes fill;
//! - `Touch`: how many nodes of the tree a transaction touches;
//! - `Cost`: how many steps it may take.
//!
//! The laws stand in `laws`: each public function there does nothing, and its contract is a law
//! that is proved. "Names apart" means everywhere that no head has two attributes of one name.
//! Lists of attributes keep that by their type; a law over plain lists has it as a premise.
//!
//! `is_reduced` is the normal form without its bound; `is_normal` adds that all lengths add up to
//! at most 2^60. Joining keeps the first always, and the bound where the list with all that both
//! sides insert is within it.
//!
//! The inverse isn't filled, as its removals keep no position. So laws ask for `IsRestorable`: what
//! is removed can be put back. Filling gives it; inverse and joining keep it.
//!
//! Names apart is a premise of the laws, since the inverse is wrong without it. Of `id=x, id=y` let
//! `id` go: an `id` is left, and the inverse, which asks for none, is refused.
//!
//! An attribute operation from absent to absent is allowed; it meets another one by its name alone.
#![tactic(auto)]

mod laws;
mod tx_fault;

pub use laws::{
    attributes_change_back, faults_are_first, histories_agree, joins_agree, retained_items_stay,
    transactions_are_undone, transactions_give, values_are_filled,
};
pub use tx_fault::TxFault;
