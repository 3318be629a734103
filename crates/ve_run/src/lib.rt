//! Runs of a script on a machine: each line is answered, and its reply written, before the next is
//! taken. The lines come from a source, or are generated; and a generated script is written. It
//! knows lines and replies, and nothing of pages.
//!
//! Proved: in each mode, and for every machine, source and sink, what is written is the machine's
//! output. At each status it is known what was written, what was taken, and why it came.
//!
//! A [`Machine`] says which reply and which next state a line gives. [`run`] promises of every
//! machine, source and sink that exactly those replies are written. The meaning of a machine, the
//! lines of a script and its output are `model_script`'s; sources and sinks are `ve_base`'s. Its
//! own definitions, in reading order:
//!
//! - `Run`: the state that a run changes, at one moment (`Scene`); the replies; and how a run ends
//!   (`Ran`, `Stopped`, `Broke`, `Starved`, `WrotePrefix`);
//! - `Status`: the usage line, and the number of a status;
//! - `Asked`: the meaning of the words after the program's name, which is `ve_words`'s;
//! - `Soak`: the sums of the replies to a generated script, `ve_gen`'s. The law
//!   [`soak_hashes_the_output`] says that their digest is of the very bytes that a run writes;
//! - `Ended`: the end of a run, by its words and its status, which `run` promises.
//!
//! `make` writes one piece a line, `soak` its four lines as one piece. At `WriteFault` the machine
//! has taken exactly the line whose reply failed. At `Memory` only whole replies were written. A
//! source that fails keeps the lines answered so far; a rest without a newline is a line only where
//! the source was read to its end.
#![tactic(auto)]

mod answer;
mod feed;
mod laws;
mod machine;
mod make;
mod script;
mod soak;
mod status;
mod stop;
mod tally;
mod top;

pub use laws::soak_hashes_the_output;
pub use machine::Machine;
pub use status::Status;
pub use top::run;
