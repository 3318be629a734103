// Laws of what words mean.
ghost use Rattle.ve_words.specs.Laws.{AcceptedWordsAsk, NumbersAreInRange};

/// Words in which `clap`'s rules find no fault ask for a mode: so words are refused, or wanted as
/// help, exactly where these rules say so.
pub fn accepted_words_ask()
    ensures { AcceptedWordsAsk }
{}

/// Words that ask for a mode give a start below 2^64 and at most 100,000 edits.
pub fn numbers_are_in_range()
    ensures { NumbersAreInRange }
{}
