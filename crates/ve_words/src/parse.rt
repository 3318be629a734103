// The words, read as the command's.
ghost use Rattle.std.specs.Prelude.{◌≡◌, IfOk, map, OnOk, IsErrOf};
ghost use Rattle.std.specs.Str.{encode_utf8_all};
ghost use Rattle.ve_words.specs.Words.{Meant, meaning_of};

use crate::command::command;
use crate::read::asked_by;
use crate::{Asked, Unasked};
use std::alloc::{AllocError, Global};
use ve_base::Text;

/// The words in UTF-8, borrowed in order.
fn spelled<'a>(alloc: Global, words: &'a [Text]) -> Result<Vec<&'a str>, AllocError>
    ensures { IfOk result (λ lent. map (λ s. s.now) lent.items ≡ map encode_utf8_all words.now) }
{
    let mut texts = Vec::new(alloc);
    for word in words {
        texts.push(word.as_str())?;
    }
    Ok(texts)
}

/// The meaning of the words after the program's name: mode and numbers as `clap` reads them. `Help`
/// comes exactly where it answers with help and `Usage` exactly where it refuses the words, but for
/// want of memory.
///
/// `start` is below 2^64 and 0 where it isn't given; `edits` is at most 100,000, and 100 where it
/// isn't given.
pub fn asked(alloc: Global, words: &[Text]) -> Result<Asked, Unasked>
    ensures ok { IfOk result (λ asked.
        meaning_of words.now ≡ Meant.Asks asked.mode asked.start asked.edits) }
    ensures help { IsErrOf result Unasked.Help → meaning_of words.now ≡ Meant.HelpWanted }
    ensures usage { IsErrOf result Unasked.Usage → meaning_of words.now ≡ Meant.Refused }
{
    let texts = spelled(alloc, words)?;
    match command(alloc)?.try_get_matches_from(texts.as_slice()) {
        Ok(matches) => asked_by(&matches).ok_or(Unasked::Usage),
        Err(error) => Err(Unasked::by(error.kind())),
    }
}
