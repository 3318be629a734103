// The command that the words belong to.
ghost use Rattle.std.specs.Prelude.{◌≡◌, IfOk};
ghost use Rattle.clap.specs.Words.{app_of};
ghost use Rattle.ve_words.specs.Command.{IsVemodel};

use clap::builder::ValueParser;
use clap::{Arg, Command};
use std::alloc::{AllocError, Global};

pub(crate) const MODE: &str = "mode";

pub(crate) const START: &str = "start";

pub(crate) const EDITS: &str = "edits";

/// The most edits that a script is made of.
pub(crate) const MAX_EDITS: u64 = 100_000;

static MODES: [&str; 3] = ["run", "make", "soak"];

/// The command, as `clap` builds it.
pub(crate) fn command<'a>(alloc: Global) -> Result<Command<'a>, AllocError>
    ensures { IfOk result (λ command. IsVemodel (app_of command)) }
{
    let mode = Arg::new(alloc, MODE)
        .required(true)
        .value_parser(MODES.as_slice());
    let start = Arg::new(alloc, START)
        .long(START)
        .value_parser(ValueParser::unsigned(0, u64::MAX))
        .default_value("0");
    let edits = Arg::new(alloc, EDITS)
        .long(EDITS)
        .value_parser(ValueParser::unsigned(0, MAX_EDITS))
        .default_value("100");
    Command::new(alloc, "vemodel")
        .no_binary_name(true)
        .arg(mode)?
        .arg(start)?
        .arg(edits)
}
