// Heads and marks read from tags.
ghost use Rattle.std.specs.Prelude.{◌≡◌, IfOk};
ghost use Rattle.std.specs.Str.{chars};
ghost use Rattle.model_page.specs.Heads as page;
ghost use Rattle.ve_classify.specs.Values.{OfAttrs};
ghost use Rattle.ve_reader.specs.TagAttrs.{IsTagAttrs};
ghost use Rattle.ve_reader.specs.Leaves.{mark_from, head_of_ref};

use std::alloc::Global;
use ve_base::{Attr, Attrs, Head, Mark, Memory, RefKey, Text};
use ve_html_scan::{AttrToken, AttrTokens, decoded};

fn attr_of(alloc: Global, token: AttrToken<'_>) -> Result<Attr, Memory>
    ensures name { IfOk result (λ attr. attr.name ≡ chars token.entry.name.now) }
    ensures value { IfOk result (λ attr. attr.value ≡ page.characters token.entry.value.now) }
{
    let name = Text::from_str(alloc, token.name)?;
    let value = decoded(alloc, token.value)?;
    Ok(Attr { name, value })
}

/// The attributes of a start tag in their order, with their values decoded.
pub fn attrs_of(alloc: Global, tokens: AttrTokens<'_>) -> Result<Attrs, Memory>
    requires { IsTagAttrs tokens }
    ensures { IfOk result (OfAttrs tokens.entry page.attrs_of) }
{
    let mut attrs = Attrs::new(alloc);
    for token in tokens {
        let attr = attr_of(alloc, token)?;
        attrs.push(attr)?;
    }
    Ok(attrs.shared(alloc))
}

/// The head of a branch, or of `br` and `img`: its attributes alone.
pub fn element_head(alloc: Global, tokens: AttrTokens<'_>) -> Result<Head, Memory>
    requires { IsTagAttrs tokens }
    ensures { IfOk result (OfAttrs tokens.entry page.head_with) }
{
    let attrs = attrs_of(alloc, tokens)?;
    Ok(Head {
        tag: Text::new(alloc),
        attrs,
        raw: Text::new(alloc),
        reference: None,
        owner: false,
    })
}

/// The head of a leaf that is kept whole: its source alone.
pub fn whole_head(alloc: Global, source: &str) -> Result<Head, Memory>
    ensures { IfOk result (λ head. head ≡ page.whole_head source.now) }
{
    let raw = Text::from_str(alloc, source)?;
    Ok(Head {
        tag: Text::new(alloc),
        attrs: Attrs::new(alloc),
        raw,
        reference: None,
        owner: false,
    })
}

/// The head of a reference: its tag and attributes, the source of what is in it, its key, and
/// whether it owns the body.
pub fn reference_head(
    alloc: Global,
    name: &str,
    tokens: AttrTokens<'_>,
    inner: &str,
    key: RefKey,
    owner: bool,
) -> Result<Head, Memory>
    requires { IsTagAttrs tokens }
    ensures { IfOk result (OfAttrs tokens.entry (head_of_ref name.now inner.now key owner)) }
{
    let tag = Text::from_str(alloc, name)?;
    let attrs = attrs_of(alloc, tokens)?;
    let raw = Text::from_str(alloc, inner)?;
    Ok(Head {
        tag,
        attrs,
        raw,
        reference: Some(key),
        owner,
    })
}

/// The mark of an annotation.
pub fn mark_of(alloc: Global, name: &str, tokens: AttrTokens<'_>) -> Result<Mark, Memory>
    requires { IsTagAttrs tokens }
    ensures { IfOk result (OfAttrs tokens.entry (mark_from name.now)) }
{
    let tag = Text::from_str(alloc, name)?;
    let attrs = attrs_of(alloc, tokens)?;
    Ok(Mark { tag, attrs })
}
