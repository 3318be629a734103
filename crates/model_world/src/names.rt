// The words of a script: the names of members and of kinds, and what is wrong with a page.
ghost use Rattle.std.specs.Prelude.{◌≡◌};
ghost use Rattle.model_world.specs.Names as words;

use crate::{Field, HtmlWord};
use model_items::OffsetClass;
use model_spelling::ScanWhat;
use ve_kinds::{Kind, tag_of_kind};

/// A member's name in a line.
pub fn field_name(field: Field) -> &'static str
    ensures { result.now ≡ words.field_name field }
{
    match field {
        Field::Do => "do",
        Field::Page => "page",
        Field::Sites => "sites",
        Field::Site => "site",
        Field::From => "from",
        Field::To => "to",
        Field::At => "at",
        Field::Text => "text",
        Field::Marks => "marks",
        Field::Html => "html",
        Field::Depth => "depth",
        Field::Tag => "tag",
        Field::Attrs => "attrs",
        Field::UnwrapOuter => "unwrap_outer",
        Field::WrapOuter => "wrap_outer",
        Field::UnwrapEach => "unwrap_each",
        Field::WrapEach => "wrap_each",
        Field::Kind => "kind",
        Field::Name => "name",
        Field::Exact => "exact",
        Field::Ops => "ops",
        Field::Cmds => "cmds",
        Field::Anchor => "anchor",
        Field::Focus => "focus",
        Field::Dir => "dir",
        Field::By => "by",
        Field::Keep => "keep",
        Field::Row => "row",
        Field::Column => "column",
        Field::Entry => "entry",
        Field::Live => "live",
    }
}

/// The name of a kind: an element kind has that of its tag.
pub fn kind_name(kind: Kind) -> &'static str
    ensures { result.now ≡ words.kind_name kind }
{
    match kind {
        Kind::Root => "root",
        Kind::InternalList => "internal_list",
        Kind::InternalItem => "internal_item",
        Kind::TransBlock => "trans_block",
        Kind::AlienBlock => "alien_block",
        Kind::Ref => "ref",
        Kind::TransInline => "trans_inline",
        Kind::AlienInline => "alien_inline",
        element => tag_of_kind(element).unwrap_or(""),
    }
}

/// The name of an offset's class.
pub fn class_name(class: OffsetClass) -> &'static str
    ensures { result.now ≡ words.class_name class }
{
    match class {
        OffsetClass::Content => "content",
        OffsetClass::Structural => "structural",
        OffsetClass::Inside => "inside",
    }
}

/// The word for a fault of a token.
fn scan_word(what: ScanWhat) -> &'static str
    ensures { result.now ≡ words.scan_word what }
{
    match what {
        ScanWhat::BadTag => "bad_tag",
        ScanWhat::BadAttribute => "bad_attribute",
        ScanWhat::DuplicateAttribute => "duplicate_attribute",
        ScanWhat::TooManyAttributes => "too_many_attributes",
        ScanWhat::BadReference => "bad_reference",
        ScanWhat::BadChar => "bad_char",
        ScanWhat::UnclosedTag => "unclosed_tag",
        ScanWhat::UnclosedComment => "unclosed_comment",
        ScanWhat::UnclosedRaw => "unclosed_raw",
        ScanWhat::Doctype => "doctype",
        ScanWhat::NoBody => "no_body",
    }
}

/// The word for a fault in the text of a page or of a fragment.
pub fn html_word(word: HtmlWord) -> &'static str
    ensures { result.now ≡ words.html_word word }
{
    match word {
        HtmlWord::Scan(what) => scan_word(what),
        HtmlWord::Mismatched => "mismatched",
        HtmlWord::Unclosed => "unclosed",
        HtmlWord::Stray => "stray",
        HtmlWord::TooDeep => "too_deep",
    }
}
