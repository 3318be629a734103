// The words of `typeof`.
ghost use Rattle.std.specs.Prelude.{◌≡◌, ◌≤◌, ◌<◌, ◌+◌, not, length, drop, slice_index, true};
ghost use Rattle.std.specs.List.{list_any, prefix_len};
ghost use Rattle.model_spelling.specs.Grammar.{begins_with};
ghost use Rattle.model_spelling.specs.Written as written;
ghost use Rattle.model_page.specs.Elements.{is_white_char, words_of};
ghost use Rattle.ve_classify.specs.Values.{answer_of_test};

/// A test of a word of `typeof`.
#[derive(Clone, Copy, Debug, PartialEq, Eq)]
pub enum TypeTest {
    /// It begins with `mw:`.
    Held,
    /// It is of what a wiki generates.
    Generator,
    /// It is that of a reference.
    Reference,
    /// It is that of a transclusion.
    Transclusion,
}

/// A tab, a newline, a form feed or a space.
pub fn is_white_byte(b: u8) -> bool
    ensures { result ≡ is_white_char b }
{
    b == b'\t' || b == b'\n' || b == 0x0c || b == b' '
}

#[tactic(auto, unfolding(model_spelling::specs::Grammar::begins_with))]
fn begins(word: &[u8], prefix: &[u8]) -> bool
    ensures { result ≡ begins_with prefix.now word.now }
{
    word.starts_with(prefix)
}

/// Whether a word passes the test.
fn passes(word: &[u8], test: TypeTest) -> bool
    ensures { result ≡ answer_of_test test word.now }
{
    match test {
        TypeTest::Held => begins(word, b"mw:"),
        TypeTest::Generator => word == b"mw:Transclusion".as_slice()
            || begins(word, b"mw:Extension/"),
        TypeTest::Reference => word == b"mw:Extension/ref".as_slice(),
        TypeTest::Transclusion => word == b"mw:Transclusion".as_slice(),
    }
}

/// Where the word that begins at that position ends.
fn word_end(value: &[u8], from: usize) -> usize
    requires { from ≤ length value.now }
    ensures end { result ≡ from + prefix_len (λ c. not (is_white_char c)) (drop from value.now) }
    ensures more { from ≤ result }
    ensures bound { result ≤ length value.now }
    ensures found { result < length value.now
        → is_white_char (slice_index value.now result) ≡ true }
{
    let mut at = from;
    while at < value.len() && !is_white_byte(value[at]) {
        at += 1;
    }
    at
}

/// Whether some word of a value passes the test. The value is read as it stands in the page: no
/// reference stands for whitespace or for a byte of a tested word, and no tested word has an `&`.
pub fn some_word(value: &[u8], test: TypeTest) -> bool
    ensures { result ≡ list_any (answer_of_test test) (words_of (written.decoded value.now)) }
{
    let mut from = 0;
    loop {
        let to = word_end(value, from);
        if passes(&value[from..to], test) {
            return true;
        }
        if to == value.len() {
            return false;
        }
        from = to + 1;
    }
}
