// Whether attributes say that an element is kept whole.
ghost use Rattle.std.specs.Prelude.{◌≡◌, codes};
ghost use Rattle.std.specs.List.{list_any};
ghost use Rattle.std.specs.Str.{chars};
ghost use Rattle.model_items.specs.Same.{text_same};
ghost use Rattle.model_page.specs.Elements.{is_white_char, words_of};
ghost use Rattle.model_spelling.specs.Grammar.{begins_with};
ghost use Rattle.model_world.specs.Attributes as attributes;
ghost use Rattle.ve_json.specs.Begun as begun;

use ve_base::{Attr, Text};

/// How much of `mw:` a word begins with, so far.
#[derive(Clone, Copy, Debug, PartialEq, Eq)]
enum Begun {
    Nothing,
    M,
    Mw,
    Whole,
    Other,
}

/// A tab, a newline, a form feed or a space.
pub fn is_white_char(ch: char) -> bool
    ensures { result ≡ is_white_char ch }
{
    ch == '\t' || ch == '\n' || ch == '\u{c}' || ch == ' '
}

/// What a word begins with, where the character is the next one of `mw:`, and where it isn't.
fn next(ch: char, wanted: char, found: Begun) -> Begun
    ensures { result ≡ begun.next ch wanted found }
{
    if wanted == ch { found } else { Begun::Other }
}

/// How much of `mw:` a word begins with after one more character. Once it was whole in some word, it
/// stays so.
fn after(so_far: Begun, ch: char) -> Begun
    ensures { result ≡ begun.after so_far ch }
{
    if is_whole(so_far) {
        return Begun::Whole;
    }
    if is_white_char(ch) {
        return Begun::Nothing;
    }
    match so_far {
        Begun::Nothing => next(ch, 'm', Begun::M),
        Begun::M => next(ch, 'w', Begun::Mw),
        Begun::Mw => next(ch, ':', Begun::Whole),
        Begun::Whole => Begun::Whole,
        Begun::Other => Begun::Other,
    }
}

fn is_whole(so_far: Begun) -> bool
    ensures { result ≡ begun.is_whole so_far }
{
    match so_far {
        Begun::Whole => true,
        Begun::Nothing | Begun::M | Begun::Mw | Begun::Other => false,
    }
}

/// Whether a word of a text begins with `mw:`.
fn has_own_word(text: &str) -> bool
    ensures { result ≡ list_any (begins_with (codes "mw:")) (words_of (chars text.now)) }
{
    let mut so_far = Begun::Nothing;
    for ch in text.chars() {
        so_far = after(so_far, ch);
    }
    is_whole(so_far)
}

/// Whether a name is this word.
fn spells(name: &Text, word: &str) -> bool
    ensures { result ≡ text_same name.now (chars word.now) }
{
    name.is(word)
}

/// Whether an attribute says that an element is kept whole: an `about`, or a `typeof` with a word
/// that begins with `mw:`.
fn holds_whole(attr: &Attr) -> bool
    ensures { result ≡ attributes.holds_whole attr.now }
{
    spells(&attr.name, "about")
        || (spells(&attr.name, "typeof") && has_own_word(attr.value.as_str()))
}

/// Whether one of these attributes says so.
pub fn is_held(attrs: &[Attr]) -> bool
    ensures { result ≡ list_any attributes.holds_whole attrs.now }
{
    for attr in attrs {
        if holds_whole(attr) {
            return true;
        }
    }
    false
}
