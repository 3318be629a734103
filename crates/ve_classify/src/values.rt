// Attributes of an element.
ghost use Rattle.std.specs.Prelude.{◌≡◌, option_map};
ghost use Rattle.model_spelling.specs.Grammar as g;
ghost use Rattle.model_page.specs.Elements as page;
ghost use Rattle.ve_html_scan.specs.Shown.{ShowsToken};
ghost use Rattle.ve_classify.specs.Standing.{token_white};
ghost use Rattle.ve_classify.specs.Values as spec;

use crate::types::{TypeTest, is_white_byte, some_word};
use ve_html_scan::{AttrTokens, Token};

/// The value of the attribute of a name, as it stands in the page.
pub fn spelled_value<'a>(attrs: AttrTokens<'a>, name: &str) -> Option<&'a str>
    ensures { spec.OfAttrs attrs.entry (spec.spelled_value name.now) (
        option_map (λ v. v.now) result) }
{
    for attr in attrs {
        if attr.name == name {
            return Some(attr.value);
        }
    }
    None
}

/// Whether some word of `typeof` passes the test.
pub fn has_type(attrs: AttrTokens<'_>, test: TypeTest) -> bool
    ensures { spec.OfAttrs attrs.entry (page.has_type (spec.answer_of_test test)) result }
{
    match spelled_value(attrs, "typeof") {
        Some(value) => some_word(value.as_bytes(), test),
        None => false,
    }
}

/// Whether an element is kept whole, alone or in a group.
pub fn is_held(attrs: AttrTokens<'_>) -> bool
    ensures { spec.OfAttrs attrs.entry page.is_held result }
{
    spelled_value(attrs, "about").is_some() || has_type(attrs, TypeTest::Held)
}

/// Whether a text is of whitespace alone.
pub fn is_white(text: &str) -> bool
    ensures { result ≡ page.is_white text.now }
{
    text.as_bytes().iter().all(|b| is_white_byte(*b))
}

/// Whether a token is a text of whitespace alone.
pub fn is_white_text(token: &Token<'_>) -> bool
    ensures { (k : g.Token) → ShowsToken token.now k → result ≡ token_white k }
{
    match *token {
        Token::Chars { text, .. } => is_white(text),
        _ => false,
    }
}
