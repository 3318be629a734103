//! The editor of a page: its list, the values that the items cite, the tree of the list and the
//! selection, which change together or not at all. It doesn't choose edits, and keeps no history.
//! Each change that is performed is given as an entry, which its owner can have taken back.
//!
//! Proved: but for want of memory, a draft is performed as the model does it, or the first cause is
//! named. An entry is taken back and another's parcel performed as the model does it. Where a call
//! fails nothing changes; a trial on which entries fail can go back to what was there before the
//! first. Each call counts at most eight steps for each node that a transaction touches, and
//! sixteen more; of several transactions it counts eight besides.
//!
//! The view of an `Editor` is the model's `Replica` (model_site), by value, and the tree's nodes by
//! their numbers (`LinkedPage`). `perform` is the model's `performed`, with the entry `entry_of` and
//! the refusal of `edit_cause`. `admit` is `all_performed` of another's parcel, with the entry
//! `entry_against` what the parcel takes back; `revert` is `reverted`. The type keeps that the list
//! is lawful, and that the tree is the list's. Each value that is cited is in the store and of the
//! right sort (`IsPage`). No trial runs in the tree of an editor.
//!
//! The tree becomes that of the new list as the last step that may fail, before the list itself
//! changes (`ve_repair::relink`); after it the list takes no memory. At want of memory the list,
//! the values and the selection are as before, and the tree is the list's still. The steps are
//! bounded by how many nodes a transaction touches; none is counted of a draft that the model
//! refuses. Nodes that stay keep their numbers (`NumbersStay`): a clause `numbers` says so of
//! `perform`, `admit` and `revert`, of a trial's, too, and `IsMade` of each transaction of an
//! attempt. After a refusal each number has the node that it had (`IsUnchanged`).
//!
//! Changes that are to be made all or none are an `Attempt`: `Editor::attempt` makes them in place,
//! on a `Trial` of the page, and takes them back where one of them stops. A trial copies nothing and
//! takes no step of its own. The tree can go back to the nodes that it had. Of the list it is noted
//! what each change takes out, and the list keeps room for that; the store is cut, or, where values
//! were cut off that were there first, a copy of it comes back. So going back takes no memory. An
//! attempt takes the steps of its changes, and at most eight more, which make a page without text.
//! `revert` and `admit` make several transactions on a trial, too. Who makes many entries at once
//! calls those of a trial.
//!
//! Definitions, in reading order: `Page` (the invariant of the type and its view), `Stays` (which
//! nodes keep their numbers), `Edited` (drafts and entries by value; what may be performed or taken
//! back), `Counted` (how many steps a call counts at most), `Refusal` (how a refusal names its
//! cause), `Trials` (the view of a trial, and what an attempt makes). Two serve private functions:
//! `Prepared` (a change that is allowed, and one whose tree is there and whose list needs no more
//! memory) and `Back` (the splices that take a list back, and the values that were there first).
//! There is no law of its own: those of model_site_law hold by the clauses.
//!
//! A draft's values go into the store before it is known that the draft applies, since its removed
//! items are compared over the store. A refusal cuts them off again.
//!
//! `revert` asks that its reversals apply and leave lawful lists, and that no value is cut that
//! stays cited. So its one refusal is want of memory. Values are cut off after the last reversal.
//!
//! A copied node is a step. The bounds don't grow with the page, so an editor that copied the page
//! for an undo wouldn't meet them.
#![tactic(auto)]

mod attempt;
mod back;
mod checked;
mod editor;
mod faults;
mod first_values;
mod in_place;
mod noted;
mod perform;
mod prepare;
mod selected;
mod several;
mod trial;
mod values;
mod verdict;

pub use attempt::Attempt;
pub use editor::Editor;
pub use model_edit::Selection;
pub use model_site::EditFault;
pub use trial::Trial;
