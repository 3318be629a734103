//! The attributes of a start tag, borrowed one after the other.

ghost use Rattle.std.specs.Prelude.{◌≡◌, ◌-◌, length};
ghost use Rattle.std.specs.Iterator.{at_most};
ghost use Rattle.ve_html_scan.specs.Shown.{AttrsStep};

use crate::attrs::is_quote;
use crate::runs::{name_end, next_place_of};
use crate::token::Span;

/// An attribute as it is spelled, without its quotes. Its bytes run from the name's first to the
/// quote after the value.
#[derive(Clone, Copy, Debug)]
pub struct AttrToken<'a> {
    pub name: &'a str,
    pub value: &'a str,
    pub span: Span,
}

/// The attributes of a start tag that are still to come. They are read again from the tag when they
/// are asked for.
#[derive(Clone, Copy, Debug)]
pub struct AttrTokens<'a> {
    /// The text up to the tag's end.
    pub(crate) source: &'a str,
    pub(crate) at: usize,
}

impl<'a> Iterator for AttrTokens<'a> {
    type Item = AttrToken<'a>;

    ghost next_gives = { AttrsStep };

    ghost remaining = { λ s. at_most (length s.source.now - s.at) };

    fn next(&mut self) -> Option<AttrToken<'a>> {
        let source = self.source;
        let bytes = source.as_bytes();
        if self.at >= bytes.len() || bytes[self.at] != b' ' {
            return None;
        }
        let name_from = self.at + 1;
        let name_to = name_end(bytes, name_from);
        if name_to + 1 >= bytes.len() || bytes[name_to] != b'=' {
            return None;
        }
        let quote = bytes[name_to + 1];
        if !is_quote(quote) {
            return None;
        }
        let value_to = next_place_of(bytes, name_to + 2, quote);
        if value_to == bytes.len() {
            return None;
        }
        self.at = value_to + 1;
        Some(AttrToken {
            name: &source[name_from..name_to],
            value: &source[name_to + 2..value_to],
            span: Span {
                from: name_from,
                to: value_to + 1,
            },
        })
    }
}
