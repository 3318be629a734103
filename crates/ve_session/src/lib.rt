//! A world: the page that is open with the sites that edit it, and the commands on it.
//!
//! Proved: a step answers as `model_world`'s machine and leads to the model's next world, and takes
//! no more steps than the `Cost` of model_world says. After want of memory the world is spent:
//! every later step says so. `run_program` makes a world and runs it.
//!
//! The reply to a line is `model_world`'s, and the world after it is the model's. A world holds the
//! page as it was first read beside the session on it, and its type keeps that some lines lead to
//! its world. So the invariants of every world that lines lead to hold of it
//! ([`World::lines_lead`]), and nothing is asked of its caller. In reading order:
//!
//! - `States`: the state that a world keeps between lines, and the machine that a world is;
//! - `Asked`: the outcome of a command, and of a request to one of the sites; a request is completed
//!   first, with what it takes from the page as it was first read;
//! - `Opened`: the invariant of an open page; `Turning`: the invariant of a site that is asked;
//! - `Stopped`: how a refusal of the crates below is told;
//! - `Ends`: how much of two lists agrees at the beginning and at the end, by which `html` compares
//!   no item outside of what the site's history changed;
//! - `Laws`: `html` of a list that is as it was opened gives the page back
//!   ([`unedited_page_is_told`]); so it is answered without a walk. What `changes` answers leads from
//!   the list that was told last to the list ([`changes_lead_on`]). And a world answers a script as
//!   the plain machine of the definitions does ([`world_answers_as_defined`]);
//! - `Program`: a run of a new world, in the words of the definitions ([`run_program`]).
//!
//! The page as it was first read stands beside the sites: text, rows, list with values, table of
//! references. The sites' lists share its blocks until they are written.
//!
//! Of a line for which memory is wanting the bound says nothing. `turn` wants memory only where
//! `MayWant` of `Asked` says that it may; of batches, of typed text, and of what is erased or moved
//! that says nothing. Above `turn` the text of the reply may want it, and what is refused there is
//! decided in functions that can't fail.
#![tactic(auto)]

mod batches;
mod completion;
mod edits;
mod ends;
mod faults;
mod history;
mod laws;
mod page;
mod program;
mod queues;
mod selections;
mod shown;
mod told;
mod turn;
mod typing;
mod world;

pub use laws::{changes_lead_on, unedited_page_is_told, world_answers_as_defined};
pub use program::run_program;
pub use ve_json::{Answer, Refusal};
pub use ve_run::{Machine, Status, run};
pub use world::World;
