//! Scripts and their output: the lines of a script, the meaning of a machine, and the output that
//! follows.
//!
//! It knows no command and no reply. A machine is any states, replies to lines and next states, and
//! a reply is any value that has a text. There are definitions in specs/, in this order:
//!
//! - `Lines`: `lines_of` a script, and how whole lines and a rest make it up (`IsCut`);
//! - `Output`: the `Meaning` of a machine, the `replies` to lines, the `state_after` them, what
//!   they cost at most, and the `output` of a script.
//!
//! The laws are contracts of functions that do nothing. The lines of a script are what its newlines
//! cut ([`script_is_its_lines`]). Each line has one reply ([`each_line_is_answered`]). What comes
//! after some lines is answered from the state that they lead to ([`answers_follow_on`]).
#![tactic(auto)]

mod laws;

pub use laws::{answers_follow_on, each_line_is_answered, script_is_its_lines};
