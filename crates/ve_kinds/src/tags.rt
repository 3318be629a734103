// The tags of kinds, and the classes of tags.
ghost use Rattle.std.specs.Prelude.{◌≡◌, bytes_eq, option_map};
ghost use Rattle.std.specs.List.{list_any};
ghost use Rattle.ve_kinds.specs.Tags as table;

use crate::Kind;

/// Whether the tag with these bytes is among these, with its case.
fn is_one_of_bytes(tags: &[&str], tag: &[u8]) -> bool
    ensures { result ≡ list_any (λ one. bytes_eq one.now tag.now) tags.now }
{
    tags.iter().any(|one| one.as_bytes() == tag)
}

/// Whether a tag is among these, with its case.
fn is_one_of(tags: &[&str], tag: &str) -> bool
    ensures { result ≡ list_any (λ one. bytes_eq one.now tag.now) tags.now }
{
    is_one_of_bytes(tags, tag.as_bytes())
}

/// The element kind that a tag spells, with its case.
pub fn kind_of_tag(tag: &str) -> Option<Kind>
    ensures { result ≡ table.kind_of_tag tag.now }
{
    let kind = match tag {
        "p" => Kind::P,
        "h1" => Kind::H1,
        "h2" => Kind::H2,
        "h3" => Kind::H3,
        "h4" => Kind::H4,
        "h5" => Kind::H5,
        "h6" => Kind::H6,
        "pre" => Kind::Pre,
        "section" => Kind::Section,
        "ul" => Kind::Ul,
        "ol" => Kind::Ol,
        "li" => Kind::Li,
        "dl" => Kind::Dl,
        "dt" => Kind::Dt,
        "dd" => Kind::Dd,
        "blockquote" => Kind::Blockquote,
        "div" => Kind::Div,
        "table" => Kind::Table,
        "caption" => Kind::Caption,
        "thead" => Kind::Thead,
        "tbody" => Kind::Tbody,
        "tfoot" => Kind::Tfoot,
        "tr" => Kind::Tr,
        "td" => Kind::Td,
        "th" => Kind::Th,
        "br" => Kind::Br,
        "img" => Kind::Img,
        _ => return None,
    };
    Some(kind)
}

/// The tag of an element kind. The other kinds have none.
pub fn tag_of_kind(kind: Kind) -> Option<&'static str>
    ensures { option_map (λ tag. tag.now) result ≡ table.tag_of_kind kind }
{
    let tag = match kind {
        Kind::P => "p",
        Kind::H1 => "h1",
        Kind::H2 => "h2",
        Kind::H3 => "h3",
        Kind::H4 => "h4",
        Kind::H5 => "h5",
        Kind::H6 => "h6",
        Kind::Pre => "pre",
        Kind::Section => "section",
        Kind::Ul => "ul",
        Kind::Ol => "ol",
        Kind::Li => "li",
        Kind::Dl => "dl",
        Kind::Dt => "dt",
        Kind::Dd => "dd",
        Kind::Blockquote => "blockquote",
        Kind::Div => "div",
        Kind::Table => "table",
        Kind::Caption => "caption",
        Kind::Thead => "thead",
        Kind::Tbody => "tbody",
        Kind::Tfoot => "tfoot",
        Kind::Tr => "tr",
        Kind::Td => "td",
        Kind::Th => "th",
        Kind::Br => "br",
        Kind::Img => "img",
        Kind::Root
        | Kind::InternalItem
        | Kind::InternalList
        | Kind::TransBlock
        | Kind::AlienBlock
        | Kind::Ref
        | Kind::TransInline
        | Kind::AlienInline => return None,
    };
    Some(tag)
}

/// Whether elements of this tag are read as marks of the text in them.
pub fn is_annotation_tag(tag: &str) -> bool
    ensures { result ≡ table.is_one_of table.annotation_tags tag.now }
{
    is_one_of(
        &[
            "a", "abbr", "b", "bdi", "big", "cite", "code", "del", "em", "font", "i", "ins", "kbd",
            "mark", "q", "s", "samp", "small", "span", "strong", "sub", "sup", "u", "var",
        ],
        tag,
    )
}

/// Whether elements of this tag stand within a line.
pub fn is_inline_tag(tag: &str) -> bool
    ensures { result ≡ table.is_one_of table.inline_tags tag.now }
{
    is_annotation_tag(tag)
        || is_one_of(
            &[
                "br", "img", "audio", "bdo", "button", "canvas", "data", "dfn", "embed", "iframe",
                "input", "label", "math", "meter", "object", "output", "picture", "progress", "rp",
                "rt", "ruby", "select", "strike", "svg", "textarea", "time", "tt", "video", "wbr",
            ],
            tag,
        )
}

/// Whether elements of the tag with these bytes have no content and no end tag.
///
/// WHATWG HTML, "Serializing HTML fragments": the void elements and those that are written like
/// them.
#[tactic(auto, unfolding(crate::specs::Tags::is_void))]
pub fn is_void_name(tag: &[u8]) -> bool
    ensures { result ≡ table.is_void tag.now }
{
    is_one_of_bytes(
        &[
            "area", "base", "basefont", "bgsound", "br", "col", "embed", "frame", "hr", "img",
            "input", "keygen", "link", "meta", "param", "source", "track", "wbr",
        ],
        tag,
    )
}

/// Whether text in elements of the tag with these bytes is kept as it stands.
///
/// WHATWG HTML, "Serializing HTML fragments": the elements whose text is written without
/// replacements.
#[tactic(auto, unfolding(crate::specs::Tags::is_raw))]
pub fn is_raw_name(tag: &[u8]) -> bool
    ensures { result ≡ table.is_raw tag.now }
{
    is_one_of_bytes(
        &["style", "script", "xmp", "iframe", "noembed", "noframes"],
        tag,
    )
}

/// Whether elements of this tag have no content and no end tag.
pub fn is_void_tag(tag: &str) -> bool
    ensures { result ≡ table.is_void tag.now }
{
    is_void_name(tag.as_bytes())
}

/// Whether text in elements of this tag is kept as it stands.
pub fn is_raw_tag(tag: &str) -> bool
    ensures { result ≡ table.is_raw tag.now }
{
    is_raw_name(tag.as_bytes())
}
