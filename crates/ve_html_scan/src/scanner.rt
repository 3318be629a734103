//! The tokens of a text, one after the other.

ghost use Rattle.std.specs.Prelude.{◌≡◌, ◌≤◌, ◌<◌, ◌+◌, length, drop, slice_index, true, IsCharBoundary};
ghost use Rattle.model_spelling.specs.Grammar.{is_letter};
ghost use Rattle.model_spelling.specs.Reading.{some_token, Between, start_at, end_at, markup_at, tag_at, between_at, token_at};
ghost use Rattle.ve_html_scan.specs.Shown.{Gives, mode_after_lent, next_of, scanner_after};
ghost use Rattle.ve_html_scan.specs.Scanned.{shown_mode};

use crate::attr_names::AttrNames;
use crate::attr_tokens::AttrTokens;
use crate::fault::{fault_at, refusal};
use crate::runs::{Close, characters_end, closing_at, is_tag_letter};
use crate::tags::{end_tag, markup, start_tag};
use crate::token::{Span, Token};
use model_spelling::{ScanFault, ScanWhat};
use std::marker::Model;
use ve_kinds::is_raw_name;

/// The mode of a scanner: what it waits for.
#[derive(Clone, Copy)]
pub enum ScanMode<'a> {
    Between,
    /// The raw text of the element of that name.
    After(&'a str),
    Failed(ScanFault),
}

#[tactic(auto, using(crate::proofs::Lent::lent_steps))]
fn start_token<'a>(
    text: &'a str,
    tag: usize,
    names: &mut AttrNames<'a>,
) -> Result<Option<Token<'a>>, ScanFault>
    requires room { tag + 1 < length text.now }
    requires letter { is_letter (slice_index text.now (tag + 1)) ≡ true }
    ensures { Gives text.now tag result (some_token (start_at tag (drop (tag + 1) text.now))) }
{
    let places = start_tag(text.as_bytes(), tag, names)?;
    Ok(Some(Token::StartTag {
        name: &text[tag + 1..places.name_to],
        attrs: AttrTokens {
            source: &text[..places.to],
            at: places.name_to,
        },
        span: Span {
            from: tag,
            to: places.to,
        },
    }))
}

#[tactic(auto, using(crate::proofs::Lent::lent_steps))]
fn end_token<'a>(text: &'a str, tag: usize) -> Result<Option<Token<'a>>, ScanFault>
    requires { tag + 2 ≤ length text.now }
    ensures { Gives text.now tag result (some_token (end_at tag (drop (tag + 2) text.now))) }
{
    let to = end_tag(text.as_bytes(), tag)?;
    Ok(Some(Token::EndTag {
        name: &text[tag + 2..to],
        span: Span {
            from: tag,
            to: to + 1,
        },
    }))
}

#[tactic(auto, using(crate::proofs::Lent::lent_steps))]
fn comment_token<'a>(text: &'a str, tag: usize) -> Result<Option<Token<'a>>, ScanFault>
    requires { tag + 2 ≤ length text.now }
    ensures { Gives text.now tag result (some_token (markup_at tag (drop (tag + 2) text.now))) }
{
    let to = markup(text.as_bytes(), tag)?;
    Ok(Some(Token::Comment {
        text: &text[tag + 4..to],
        span: Span {
            from: tag,
            to: to + 3,
        },
    }))
}

/// The token that begins with the `<` at `tag`.
#[tactic(auto, using(crate::proofs::TagSteps::tag_steps))]
fn tag_token<'a>(
    text: &'a str,
    tag: usize,
    names: &mut AttrNames<'a>,
) -> Result<Option<Token<'a>>, ScanFault>
    requires { tag + 1 ≤ length text.now }
    ensures { Gives text.now tag result (some_token (tag_at tag (drop (tag + 1) text.now))) }
{
    let bytes = text.as_bytes();
    if tag + 1 == bytes.len() {
        return Err(fault_at(tag, ScanWhat::UnclosedTag));
    }
    let first = bytes[tag + 1];
    if is_tag_letter(first) {
        return start_token(text, tag, names);
    }
    if first == b'/' {
        return end_token(text, tag);
    }
    if first == b'!' {
        return comment_token(text, tag);
    }
    Err(refusal(tag + 1, first, fault_at(tag, ScanWhat::BadTag)))
}

/// The token that begins at `at`, between two tokens.
fn token_between<'a>(
    text: &'a str,
    at: usize,
    names: &mut AttrNames<'a>,
) -> Result<Option<Token<'a>>, ScanFault>
    requires { IsCharBoundary text.now at }
    ensures { Gives text.now at result (between_at at (drop at text.now)) }
{
    let bytes = text.as_bytes();
    if at == bytes.len() {
        return Ok(None);
    }
    if bytes[at] == b'<' {
        return tag_token(text, at, names);
    }
    let to = characters_end(bytes, at, b'<', None)?;
    Ok(Some(Token::Chars {
        text: &text[at..to],
        span: Span { from: at, to },
    }))
}

fn next_token<'a>(
    text: &'a str,
    at: usize,
    mode: ScanMode<'a>,
    names: &mut AttrNames<'a>,
) -> Result<Option<Token<'a>>, ScanFault>
    requires { IsCharBoundary text.now at }
    ensures { Gives text.now at result (token_at (shown_mode mode.entry) at (drop at text.now)) }
{
    match mode {
        ScanMode::Failed(fault) => Err(fault),
        ScanMode::Between => token_between(text, at, names),
        ScanMode::After(name) => {
            let to = closing_at(
                text.as_bytes(),
                at,
                Close::Raw(name.as_bytes()),
                fault_at(at, ScanWhat::UnclosedRaw),
            )?;
            if to == at {
                return token_between(text, at, names);
            }
            Ok(Some(Token::Raw {
                text: &text[at..to],
                span: Span { from: at, to },
            }))
        }
    }
}

fn mode_past<'a>(token: &Token<'a>) -> ScanMode<'a>
    ensures { shown_mode result ≡ mode_after_lent token.now }
{
    match *token {
        Token::StartTag { name, .. } => {
            if is_raw_name(name.as_bytes()) {
                ScanMode::After(name)
            } else {
                ScanMode::Between
            }
        }
        _ => ScanMode::Between,
    }
}

/// Reads the tokens of a text.
#[derive(Drop)]
pub struct Scanner<'a> {
    text: &'a str,
    at: usize,
    mode: ScanMode<'a>,
    /// Room for the names of a start tag's attributes.
    names: AttrNames<'a>,
}

impl<'a> Model for Scanner<'a> {
    ghost use Rattle.std.specs.Prelude.{IsCharBoundary};
    ghost use Rattle.ve_html_scan.specs.Shown.{ScannerState};
    ghost use Rattle.ve_html_scan.specs.Scanned.{shown_mode};

    ghost Value = { ScannerState };

    ghost view = { λ s. record { text = s.text.now; at = s.at; mode = shown_mode s.mode } };

    ghost invariant = { λ s. IsCharBoundary s.text.now s.at };
}

impl<'a> Scanner<'a> {
    /// A scanner that stands before the first token.
    pub fn new(text: &'a str) -> Scanner<'a>
        ensures { result ≡ record { text = text.now; at = 0; mode = Between } }
    {
        Scanner {
            text,
            at: 0,
            mode: ScanMode::Between,
            names: AttrNames::new(),
        }
    }

    /// The next token; none at the end. After a fault each later call answers it again.
    pub fn next(&mut self) -> Result<Option<Token<'a>>, ScanFault>
        // The token is what reading the rest of the text gives, and its parts are borrowed from
        // there.
        ensures read { Gives self.old.text self.old.at result (next_of self.old) }
        // The scanner stands after the token, or at its fault.
        ensures place { self.new ≡ scanner_after result self.old }
    {
        match next_token(self.text, self.at, self.mode, &mut self.names) {
            Ok(None) => Ok(None),
            Ok(Some(token)) => {
                self.at = token.span().to;
                self.mode = mode_past(&token);
                Ok(Some(token))
            }
            Err(fault) => {
                self.mode = ScanMode::Failed(fault);
                Err(fault)
            }
        }
    }
}
