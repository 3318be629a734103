// The values of a parse.
ghost use Rattle.std.specs.Prelude.{◌≡◌, ◌≤◌, ℕ, List, IfSome};
ghost use Rattle.clap.specs.Words.{found_of, rows_of};
ghost use Rattle.ve_words.specs.Words.{meaning_of_rows, meant_asked, mode_in, mode_named, number_in, number_up_to};

use crate::command::{EDITS, MAX_EDITS, MODE, START};
use clap::ArgMatches;

/// Modes of the program.
#[derive(Clone, Copy, Debug, PartialEq, Eq)]
pub enum Mode {
    /// Step a machine with the lines of the standard input.
    Run,
    /// Write a generated script.
    Make,
    /// Step a machine with the lines of a generated script, and sum its replies up.
    Soak,
}

/// A mode, with the numbers of a generated script.
#[derive(Clone, Copy, Debug, PartialEq, Eq)]
pub struct Asked {
    /// The mode.
    pub mode: Mode,
    /// Where the generator of edits starts.
    pub start: u64,
    /// How many edits the script has, at most 100,000.
    pub edits: u32,
}

fn mode_named(text: &str) -> Option<Mode>
    ensures { result ≡ mode_named text.now }
{
    if text == "run" {
        Some(Mode::Run)
    } else if text == "make" {
        Some(Mode::Make)
    } else if text == "soak" {
        Some(Mode::Soak)
    } else {
        None
    }
}

fn number_up_to(most: u64, text: &str) -> Option<u64>
    ensures number { result ≡ number_up_to most text.now }
    ensures bound { IfSome result (λ number. number ≤ most) }
{
    let Ok(number) = text.parse::<u64>() else {
        return None;
    };
    if number <= most { Some(number) } else { None }
}

fn mode_of(matches: &ArgMatches<'_>) -> Option<Mode>
    ensures { result ≡ mode_in (rows_of (found_of matches.now)) }
{
    match matches.get_str(MODE) {
        Some(text) => mode_named(text),
        None => None,
    }
}

fn number_of(matches: &ArgMatches<'_>, id: &str, most: u64) -> Option<u64>
    ensures number { result ≡ number_in id.now most (rows_of (found_of matches.now)) }
    ensures bound { IfSome result (λ number. number ≤ most) }
{
    match matches.get_str(id) {
        Some(text) => number_up_to(most, text),
        None => None,
    }
}

/// The values as a request; nothing where one of the three is missing, or no value of its kind.
pub(crate) fn asked_by(matches: &ArgMatches<'_>) -> Option<Asked>
    ensures { meant_asked result ≡ meaning_of_rows (rows_of (found_of matches.now)) }
{
    let mode = mode_of(matches)?;
    let start = number_of(matches, START, u64::MAX)?;
    let edits = number_of(matches, EDITS, MAX_EDITS)?;
    Some(Asked {
        mode,
        start,
        edits: edits as u32,
    })
}
