// Whether two items are equal.
ghost use Rattle.std.specs.Prelude.{◌≡◌, ◌↔◌, IsTrue};

use model_items::Item;
use ve_base::ValueId;

fn same_id(one: Option<ValueId>, other: Option<ValueId>) -> bool
    ensures { IsTrue result ↔ (one ≡ other) }
{
    match (one, other) {
        (Some(one), Some(other)) => one.0 == other.0,
        (None, None) => true,
        (Some(_), None) | (None, Some(_)) => false,
    }
}

fn same_origin(one: Option<u32>, other: Option<u32>) -> bool
    ensures { IsTrue result ↔ (one ≡ other) }
{
    match (one, other) {
        (Some(one), Some(other)) => one == other,
        (None, None) => true,
        (Some(_), None) | (None, Some(_)) => false,
    }
}

/// Whether two items are equal. Items that cite one store of distinct values are equal where they
/// cite equal positions, so no value is read.
pub fn same_item(one: Item, other: Item) -> bool
    ensures { IsTrue result ↔ (one ≡ other) }
{
    match (one, other) {
        (
            Item::Char { ch, marks },
            Item::Char {
                ch: other_ch,
                marks: other_marks,
            },
        ) => ch == other_ch && same_id(marks, other_marks),
        (
            Item::Opening {
                kind,
                generated,
                head,
                marks,
                pre,
                origin,
            },
            Item::Opening {
                kind: other_kind,
                generated: other_generated,
                head: other_head,
                marks: other_marks,
                pre: other_pre,
                origin: other_origin,
            },
        ) => {
            kind == other_kind
                && generated == other_generated
                && same_id(head, other_head)
                && same_id(marks, other_marks)
                && same_id(pre, other_pre)
                && same_origin(origin, other_origin)
        }
        (
            Item::Closing { kind, pre },
            Item::Closing {
                kind: other_kind,
                pre: other_pre,
            },
        ) => kind == other_kind && same_id(pre, other_pre),
        (Item::Char { .. }, Item::Opening { .. } | Item::Closing { .. })
        | (Item::Opening { .. }, Item::Char { .. } | Item::Closing { .. })
        | (Item::Closing { .. }, Item::Char { .. } | Item::Opening { .. }) => false,
    }
}
