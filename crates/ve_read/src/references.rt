// Groups that are generated: references, and other leaves with their source.
ghost use Rattle.std.specs.Prelude.{◌≡◌, ◌<◌, false, length, option_map, IfOk, IfSome, OnOk};
ghost use Rattle.model_page.specs.ReferenceNodes.{is_owned};
ghost use Rattle.model_spelling.specs.Forest.{spelling};
ghost use Rattle.ve_classify.specs.Fits.{IsFit};
ghost use Rattle.ve_classify.specs.Standing.{LeadsOn};
ghost use Rattle.ve_kinds.specs.declared.kind.Kind.TheVariants.{TransInline};
ghost use Rattle.ve_classify.specs.declared.around.Around.TheVariants as around;
ghost use Rattle.ve_classify.specs.declared.around.Fit.TheVariants as fits;
ghost use Rattle.ve_read.specs.Content.{content_limit, with_content};
ghost use Rattle.ve_read.specs.ContentParts.{OfPart, SomeElement};
ghost use Rattle.ve_read.specs.References.{IsClaimed, OfElement, ReadsClaim, claim_limit, new_owner};
ghost use Rattle.ve_reader.specs.TagAttrs.{TagsFit};
ghost use Rattle.ve_classify.specs.Places.{SomePart};
ghost use Rattle.ve_reader.specs.Stops.{Stops};

use crate::content_leaves::push_whole_leaf;
use std::alloc::Global;
use ve_base::{Memory, RefKey, Text, TryCopy};
use ve_classify::{Part, cited_mw};
use ve_html_scan::{Span, Token, decoded};
use ve_html_tree::Forest;
use ve_internal::reference_of;
use ve_kinds::Kind;
use ve_reader::{Claim, NewOwner, Purpose, ReadStop, Reader, reference_head};

/// The claim of the group of a page from a node up to another, where it is a reference.
fn claim_at(
    alloc: Global,
    forest: &Forest<'_>,
    reader: &Reader,
    n: usize,
    end: usize,
) -> Result<Option<Claim>, Memory>
    requires within { n < length forest.now }
    requires leads { LeadsOn forest.now }
    ensures claim { IfOk result (IsClaimed reader.now forest.now n end) }
    ensures free { IfOk result (λ claim.
        IfSome claim (λ c. IfSome c.html (λ _. is_owned reader.now.owners c.key ≡ false))) }
{
    match reader.purpose() {
        Purpose::Page => {}
        Purpose::Body | Purpose::Fragment => return Ok(None),
    }
    let Some(spelled) = cited_mw(forest, n, end) else {
        return Ok(None);
    };
    let mw = decoded(alloc, spelled)?;
    match reference_of(alloc, mw.as_str())? {
        Some(reading) => Ok(reader.claim(reading)),
        None => Ok(None),
    }
}

/// The source of the inside of the element at a node.
fn inner_source<'a>(text: &'a str, forest: &Forest<'_>, n: usize) -> &'a str
    requires within { n < length forest.now }
    requires element { SomeElement text.now forest.now n }
    ensures { OfElement text.now forest.now n (λ _ _ children _. result.now ≡ spelling children) }
{
    let inner = forest.node(n).inner;
    &text[inner.from..inner.to]
}

/// The owner that a reference is of its key, where it has a body.
fn owner_of(alloc: Global, key: &RefKey, html: Option<Text>) -> Result<Option<NewOwner>, Memory>
    ensures { IfOk result (λ owner. owner ≡ new_owner key.now html) }
{
    match html {
        Some(html) => Ok(Some(NewOwner {
            key: key.copy(alloc)?,
            html,
        })),
        None => Ok(None),
    }
}

/// The reference that the element at a node is by its claim.
fn push_claimed(
    alloc: Global,
    text: &str,
    forest: &Forest<'_>,
    reader: &mut Reader,
    n: usize,
    byte: usize,
    claim: Claim,
) -> Result<(), ReadStop>
    requires within { n < length forest.now }
    requires tags { TagsFit forest.now }
    requires element { SomeElement text.now forest.now n }
    requires free { IfSome claim.html (λ _. is_owned reader.old.owners claim.key ≡ false) }
    ensures ok { OnOk result (
        OfElement text.now forest.now n (ReadsClaim claim byte reader.old reader.new)) }
    ensures limit { OfElement text.now forest.now n (λ name attrs children at.
        Stops result (claim_limit claim byte reader.old name attrs children at)) }
{
    let node = forest.node(n);
    let Token::StartTag { name, attrs, .. } = node.token else {
        unreachable!();
    };
    let inner = inner_source(text, forest, n);
    let span = Span {
        from: node.span.from,
        to: byte,
    };
    let Claim { key, html } = claim;
    let owner = owner_of(alloc, &key, html)?;
    let head = reference_head(alloc, name, attrs, inner, key, owner.is_some())?;
    reader.push_reference(head, span, owner)
}

/// A group that is generated: a reference, or else a leaf that keeps its source.
pub fn push_generated(
    alloc: Global,
    text: &str,
    forest: &Forest<'_>,
    reader: &mut Reader,
    n: usize,
    part: Part,
) -> Result<(), ReadStop>
    requires within { n < length forest.now }
    requires leads { LeadsOn forest.now }
    requires tags { TagsFit forest.now }
    requires part { SomePart text.now forest.now n part.end part.byte }
    requires fit { IsFit forest.now n around.Content (fits.Whole TransInline) }
    ensures ok { OnOk result (
        OfPart text.now forest.now n part.end part.byte (λ parts at.
        reader.new ≡ with_content parts at reader.old)) }
    ensures limit { OfPart text.now forest.now n part.end part.byte (λ parts at.
        Stops result (content_limit parts at reader.old)) }
{
    match claim_at(alloc, forest, reader, n, part.end)? {
        Some(claim) => push_claimed(alloc, text, forest, reader, n, part.byte, claim),
        None => push_whole_leaf(alloc, text, forest, reader, n, part, Kind::TransInline),
    }
}
