// Answers of a site to the requests that change nothing, but for the page written out.
ghost use Rattle.std.specs.Prelude.{◌≡◌, ◌<◌, true, IfOk};
ghost use Rattle.ve_session.specs.Asked.{is_shown, IsAnswered};
ghost use Rattle.ve_sites.specs.Shared.{sites};

use crate::edits::doc_at;
use std::alloc::Global;
use ve_answers::{caret, grid, items, near, node, refs, replies_are_as_asked, tree};
use ve_base::Memory;
use ve_json::{Answer, Request};
use ve_sites::Sites;

/// Whether a request changes nothing.
pub fn is_shown(request: &Request) -> bool
    ensures { result ≡ is_shown request.now }
{
    matches!(
        request,
        Request::Html
            | Request::Tree
            | Request::Refs
            | Request::Caret
            | Request::ShowItems { .. }
            | Request::At { .. }
            | Request::Near { .. }
            | Request::Grid { .. }
    )
}

/// The answer of a site to a request that changes nothing, other than `html`. Items are borrowed.
pub fn shown<'a>(
    alloc: Global,
    session: &'a Sites,
    k: usize,
    request: &Request,
) -> Result<Answer<'a>, Memory>
    requires site { k < sites session.now }
    requires shown { is_shown request.now ≡ true }
    requires unwritten { (request.now ≡ Request.Html) → ⊥ }
    ensures answer { IfOk result (λ answer.
        IsAnswered request.now k session.entry.now answer session.entry.now) }
{
    replies_are_as_asked();
    let doc = doc_at(session, k);
    match request {
        Request::Tree => tree(alloc, doc),
        Request::Refs => refs(alloc, doc),
        Request::ShowItems { from, to } => Ok(items(doc, *from, *to)),
        Request::At { at } => Ok(node(doc, *at)),
        Request::Near { at, dir } => Ok(near(doc, *at, *dir)),
        Request::Grid { at } => grid(alloc, doc, *at),
        Request::Caret => Ok(caret(session.site(k).editor().selection())),
        _ => unreachable!(),
    }
}
