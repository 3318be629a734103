//! The words of the command line: they ask for a mode, and the two numbers of the modes that write
//! a script.
//!
//! Proved: but for want of memory, the words ask for what `clap`'s rules for a simple command say
//! of the one command that we describe.
//!
//! The words are one simple command of `clap`. It has one required word of `run`, `make` and
//! `soak`, `--start` with a number below 2^64, and `--edits` with a number to 100,000. Their
//! meaning goes by `clap`'s own rules for such a command, applied to this one. Definitions, in
//! reading order:
//!
//! - `Command`: the command, as `clap`'s rules read it;
//! - `Words`: the meaning of words (`meant`), by what the rules refuse and by the values that they
//!   give;
//! - `Laws`: laws of whatever words mean.
//!
//! Words that aren't UTF-8 count as no words. `clap` takes memory to read words, so they may want
//! it.
#![tactic(auto)]

mod command;
mod laws;
mod parse;
mod read;
mod unasked;

pub use laws::{accepted_words_ask, numbers_are_in_range};
pub use parse::asked;
pub use read::{Asked, Mode};
pub use unasked::Unasked;
