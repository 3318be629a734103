//! Where the body of a page stands.

ghost use Rattle.std.specs.Prelude.{◌≡◌, ◌≤◌, length, drop, IsCharBoundary, IfOk};
ghost use Rattle.model_spelling.specs.Page.{is_whole, starts_body, ends_body, first_place, last_place, body_at};
ghost use Rattle.ve_html_scan.specs.Parts.{Finds};

use crate::attr_names::AttrNames;
use crate::fault::fault_at;
use crate::runs::{begins, rest};
use crate::tags::start_tag;
use crate::token::Span;
use model_spelling::{ScanFault, ScanWhat};

/// Whether a page begins with `<!doctype`, in any case of its letters.
fn is_whole_page(page: &[u8]) -> bool
    ensures { result ≡ is_whole page.now }
{
    page.len() >= 9 && page[..9].eq_ignore_ascii_case(b"<!doctype")
}

fn begins_body(text: &[u8]) -> bool
    ensures { result ≡ starts_body text.now }
{
    begins(text, b"<body ") || begins(text, b"<body>")
}

/// Where the first body start tag of a page stands.
#[tactic(auto, using(crate::proofs::Bodies::first_steps))]
fn first_body(page: &[u8]) -> Option<usize>
    ensures { result ≡ first_place starts_body 0 page.now }
{
    let mut at = 0;
    while at < page.len() {
        if begins_body(rest(page, at)) {
            return Some(at);
        }
        at += 1;
    }
    None
}

/// Where the last `</body>` stands, from a position on. It is looked for from the end.
#[tactic(auto, using(crate::proofs::Bodies::last_steps))]
fn last_body_end(page: &[u8], from: usize) -> Option<usize>
    requires { from ≤ length page.now }
    ensures { result ≡ last_place ends_body from (drop from page.now) }
{
    let mut at = page.len();
    while at > from {
        at -= 1;
        if begins(rest(page, at), b"</body>") {
            return Some(at);
        }
    }
    None
}

/// The bytes of a page's body. A page that begins with `<!doctype` has it between its first body
/// start tag and the last `</body>` after that; every other page is all body.
pub fn body_of(text: &str) -> Result<Span, ScanFault>
    ensures read { Finds (λ s. (s.from, s.to)) result (body_at text.now) }
    ensures cuts { IfOk result (λ s.
        IsCharBoundary text.now s.from × IsCharBoundary text.now s.to × (s.from ≤ s.to)) }
{
    let page = text.as_bytes();
    if !is_whole_page(page) {
        return Ok(Span {
            from: 0,
            to: page.len(),
        });
    }
    let tag = match first_body(page) {
        Some(tag) => tag,
        None => return Err(fault_at(0, ScanWhat::NoBody)),
    };
    let from = start_tag(page, tag, &mut AttrNames::new())?.to;
    match last_body_end(page, from) {
        Some(to) => Ok(Span { from, to }),
        None => Err(fault_at(from, ScanWhat::NoBody)),
    }
}
