// Counts and hashes of replies.
ghost use Rattle.std.specs.Prelude.{◌≡◌, ◌<◌, ◌≤◌, ◌++◌, ◌∷◌, [], ◌^◌, ℕ, List, codes, decimal, OnOk, ◌+◌, if◌then◌else◌};
ghost use Rattle.ve_run.specs.Soak.{begins, four_lines, IsTally, summed_up};

use sha2::{Digest, Sha256};
use std::alloc::Global;
use ve_base::{Bytes, Memory};

/// How many reply lines there were, how many of them begin `ok` and how many `no`, and the hasher
/// that holds all of them.
#[derive(Drop)]
pub struct Tally {
    pub lines: u64,
    pub accepted: u64,
    pub refused: u64,
    pub hashed: Sha256,
}

const OK: &[u8] = b"ok";

const NO: &[u8] = b"no";

/// Whether the line begins with the word.
fn begins(line: &[u8], word: &[u8]) -> bool
    ensures { result ≡ begins word.now line.now }
{
    line.starts_with(word)
}

/// One more where it is to be counted.
fn counted(count: u64, is_one: bool) -> u64
    requires { count < 2 ^ 63 }
    ensures { result ≡ count + (if is_one then 1 else 0) }
{
    if is_one { count + 1 } else { count }
}

impl Tally {
    /// Nothing is counted yet.
    pub fn new() -> Tally
        ensures { IsTally result [] }
    {
        Tally {
            lines: 0,
            accepted: 0,
            refused: 0,
            hashed: Sha256::new(),
        }
    }

    /// Counts and hashes one reply line, which has its newline.
    pub fn add(&mut self, reply: &[u8])
        requires few { self.old.lines < 2 ^ 63 }
        requires few_accepted { self.old.accepted < 2 ^ 63 }
        requires few_refused { self.old.refused < 2 ^ 63 }
        ensures { (answers : List (List ℕ))
            → IsTally self.old answers
            → IsTally self.new (answers ++ reply.now ∷ []) }
    {
        self.lines = counted(self.lines, true);
        self.accepted = counted(self.accepted, begins(reply, OK));
        self.refused = counted(self.refused, begins(reply, NO));
        self.hashed.update(reply);
    }

    /// Appends the four lines of the counts and the hash.
    pub fn push_text(self, alloc: Global, out: &mut Bytes) -> Result<(), Memory>
        ensures { OnOk result (
            (answers : List (List ℕ))
            → IsTally self answers
            → out.new ≡ out.old ++ summed_up answers) }
    {
        let Tally {
            lines,
            accepted,
            refused,
            hashed,
        } = self;
        let digest = hashed.finalize();
        push_four_lines(alloc, lines, accepted, refused, &digest, out)
    }
}

/// Appends a word and the decimal digits of a number.
fn push_number(alloc: Global, word: &[u8], number: u64, out: &mut Bytes) -> Result<(), Memory>
    ensures { OnOk result (out.new ≡ out.old ++ (word.now ++ decimal number)) }
{
    out.push(word)?;
    let digits = number.to_string(alloc)?;
    out.push(digits.as_bytes())
}

/// Appends the four lines.
fn push_four_lines(
    alloc: Global,
    lines: u64,
    accepted: u64,
    refused: u64,
    digest: &[u8],
    out: &mut Bytes,
) -> Result<(), Memory>
    ensures { OnOk result (out.new ≡ out.old ++ four_lines lines accepted refused digest.now) }
{
    push_number(alloc, b"lines ", lines, out)?;
    push_number(alloc, b"\nok ", accepted, out)?;
    push_number(alloc, b"\nno ", refused, out)?;
    out.push(b"\nsha256 ")?;
    let digits = hex::encode(alloc, digest)?;
    out.push(digits.as_bytes())?;
    out.push_byte(b'\n')
}
