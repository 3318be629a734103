// Items without values.
ghost use Rattle.std.specs.Prelude.{◌≡◌, false, None};

use ve_items::Item;
use ve_kinds::Kind;

/// Where a node begins, without a head, marks, whitespace and an origin.
pub fn opening(kind: Kind) -> Item
    ensures { result ≡ Item.Opening kind false None None None None }
{
    Item::Opening {
        kind,
        generated: false,
        head: None,
        marks: None,
        pre: None,
        origin: None,
    }
}

/// Where a node ends.
pub fn closing(kind: Kind) -> Item
    ensures { result ≡ Item.Closing kind None }
{
    Item::Closing { kind, pre: None }
}

/// A character without marks.
pub fn letter(ch: char) -> Item
    ensures { result ≡ Item.Char ch None }
{
    Item::Char { ch, marks: None }
}
