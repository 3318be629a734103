// Which groups may be references.
ghost use Rattle.std.specs.Prelude.{◌≡◌, ◌<◌, length};
ghost use Rattle.ve_classify.specs.Values.{OfAttrs};
ghost use Rattle.ve_classify.specs.Standing.{LeadsOn};
ghost use Rattle.ve_classify.specs.Citations as spec;

use crate::{TypeTest, has_type, spelled_value};
use ve_html_scan::{AttrTokens, Token};
use ve_html_tree::Forest;

fn is_citation(name: &str, attrs: AttrTokens<'_>) -> bool
    ensures { OfAttrs attrs.entry (spec.is_citation name.now) result }
{
    (name == "sup" || name == "span")
        && has_type(attrs, TypeTest::Reference)
        && !has_type(attrs, TypeTest::Transclusion)
}

/// The `data-mw`, as it stands in the page, of the group from a node up to another, where it may be
/// a reference.
pub fn cited_mw<'a>(forest: &Forest<'a>, n: usize, end: usize) -> Option<&'a str>
    requires within { n < length forest.now }
    requires leads { LeadsOn forest.now }
    ensures { spec.IsCited forest.now n end result }
{
    let node = forest.node(n);
    if node.next != end {
        return None;
    }
    let Token::StartTag { name, attrs, .. } = node.token else {
        return None;
    };
    if !is_citation(name, attrs) {
        return None;
    }
    spelled_value(attrs, "data-mw")
}
