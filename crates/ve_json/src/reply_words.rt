// Words with numbers after them.
ghost use Rattle.std.specs.Prelude.{◌≡◌, ◌++◌, ◌∷◌, decimal, OnOk};
ghost use Rattle.model_world.specs.Spelled.{numbers};
ghost use Rattle.ve_json.specs.ReplyWords.{number_list, words_text};

use crate::spelling::Spelling;
use std::alloc::Global;
use ve_base::Memory;

/// The numbers after a word, at most four.
#[derive(Clone, Copy)]
pub enum Numbers {
    NoNumber,
    One(usize),
    Two(usize, usize),
    Four(usize, usize, usize, usize),
}

/// A word and what follows it at once, both as they are spelled, and numbers.
#[derive(Clone, Copy)]
pub struct Words {
    pub first: &'static str,
    pub second: &'static str,
    pub numbers: Numbers,
}

/// Appends the decimal digits of a number.
pub fn push_decimal(alloc: Global, number: usize, out: &mut Spelling) -> Result<(), Memory>
    ensures ok { OnOk result (out.new.text ≡ out.old.text ++ decimal number) }
    ensures before { out.new.before ≡ out.old.before }
{
    let digits = number.to_string(alloc)?;
    out.push(digits.as_bytes())
}

/// Appends a space and the decimal digits of a number.
fn push_number(alloc: Global, number: usize, out: &mut Spelling) -> Result<(), Memory>
    ensures ok { OnOk result (out.new.text ≡ out.old.text ++ 32 ∷ decimal number) }
    ensures before { out.new.before ≡ out.old.before }
{
    out.push_byte(b' ')?;
    push_decimal(alloc, number, out)
}

/// Appends two numbers, each after a space.
fn push_two(alloc: Global, one: usize, other: usize, out: &mut Spelling) -> Result<(), Memory>
    ensures ok { OnOk result (
        out.new.text ≡ out.old.text ++ ((32 ∷ decimal one) ++ (32 ∷ decimal other))) }
    ensures before { out.new.before ≡ out.old.before }
{
    push_number(alloc, one, out)?;
    push_number(alloc, other, out)
}

/// Appends numbers, each after a space.
pub fn push_numbers(alloc: Global, several: Numbers, out: &mut Spelling) -> Result<(), Memory>
    ensures ok { OnOk result (out.new.text ≡ out.old.text ++ numbers (number_list several)) }
    ensures before { out.new.before ≡ out.old.before }
{
    match several {
        Numbers::NoNumber => Ok(()),
        Numbers::One(n) => push_number(alloc, n, out),
        Numbers::Two(m, n) => push_two(alloc, m, n, out),
        Numbers::Four(k, l, m, n) => {
            push_two(alloc, k, l, out)?;
            push_two(alloc, m, n, out)
        }
    }
}

/// Appends words and their numbers.
pub fn push_words(alloc: Global, words: Words, out: &mut Spelling) -> Result<(), Memory>
    ensures ok { OnOk result (out.new.text ≡ out.old.text ++ words_text words) }
    ensures before { out.new.before ≡ out.old.before }
{
    out.push(words.first.as_bytes())?;
    out.push(words.second.as_bytes())?;
    push_numbers(alloc, words.numbers, out)
}
