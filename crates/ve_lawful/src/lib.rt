//! Lawful lists of items: the state that each item moves on, and the first position where a list or
//! a piece of one fails. It knows kinds and items, and reads none of the values that items cite. It
//! takes no memory.
//!
//! Proved: the verdict is the law's, with the first position that fails.
//!
//! - `State` is the stack of open kinds, the innermost first, and whether the internal list was
//!   opened (specs/Stack.antt says how it is kept). The law itself is in model_items,
//!   specs/Law.antt. At most `max_open_kinds` kinds are open.
//! - specs/Uncited.antt is the law over items that cite their values: `step`, `after`, `verdict`.
//!   `State::step`, `check_piece` and `check` are these, with the same positions.
//!
//! Its law is in src/laws.rt: the law reads no values.
#![tactic(auto)]

mod laws;
mod list;
mod piece;
mod state;

pub use laws::values_are_not_read;
pub use list::check;
pub use model_items::LawFault;
pub use piece::check_piece;
pub use state::State;
