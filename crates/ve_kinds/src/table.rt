// The classes of kinds, and which kind may stand in which.
ghost use Rattle.std.specs.Prelude.{◌≡◌};
ghost use Rattle.ve_kinds.specs.Table as table;

use crate::Kind;

/// Whether nodes of the kind hold characters.
pub fn is_content_branch(kind: Kind) -> bool
    ensures { result ≡ table.is_content_branch kind }
{
    matches!(
        kind,
        Kind::P | Kind::H1 | Kind::H2 | Kind::H3 | Kind::H4 | Kind::H5 | Kind::H6 | Kind::Pre
    )
}

/// Whether nodes of the kind hold blocks of every sort.
pub fn is_flow(kind: Kind) -> bool
    ensures { result ≡ table.is_flow kind }
{
    matches!(
        kind,
        Kind::Root
            | Kind::Section
            | Kind::Li
            | Kind::Dt
            | Kind::Dd
            | Kind::Blockquote
            | Kind::Div
            | Kind::Td
            | Kind::Th
            | Kind::Caption
            | Kind::InternalItem
    )
}

/// Whether nodes of the kind hold only the parts of a list or a table.
pub fn is_structural(kind: Kind) -> bool
    ensures { result ≡ table.is_structural kind }
{
    matches!(
        kind,
        Kind::Ul
            | Kind::Ol
            | Kind::Dl
            | Kind::Table
            | Kind::Thead
            | Kind::Tbody
            | Kind::Tfoot
            | Kind::Tr
            | Kind::InternalList
    )
}

/// Whether nodes of the kind stand between blocks and hold nothing.
pub fn is_block_leaf(kind: Kind) -> bool
    ensures { result ≡ table.is_block_leaf kind }
{
    matches!(kind, Kind::TransBlock | Kind::AlienBlock)
}

/// Whether nodes of the kind stand in text and hold nothing.
pub fn is_inline_leaf(kind: Kind) -> bool
    ensures { result ≡ table.is_inline_leaf kind }
{
    matches!(
        kind,
        Kind::Br | Kind::Img | Kind::Ref | Kind::TransInline | Kind::AlienInline
    )
}

/// Whether nodes of the kind hold nothing.
pub fn is_leaf(kind: Kind) -> bool
    ensures { result ≡ table.is_leaf kind }
{
    is_block_leaf(kind) || is_inline_leaf(kind)
}

/// Whether every flow kind may hold it.
fn is_block(kind: Kind) -> bool
    ensures { result ≡ table.is_among table.blocks kind }
{
    is_content_branch(kind)
        || is_block_leaf(kind)
        || matches!(
            kind,
            Kind::Ul | Kind::Ol | Kind::Dl | Kind::Blockquote | Kind::Div | Kind::Table
        )
}

/// Whether a tag of the same name spells the kind.
pub fn is_element(kind: Kind) -> bool
    ensures { result ≡ table.is_element kind }
{
    !matches!(
        kind,
        Kind::Root
            | Kind::InternalItem
            | Kind::InternalList
            | Kind::TransBlock
            | Kind::AlienBlock
            | Kind::Ref
            | Kind::TransInline
            | Kind::AlienInline
    )
}

/// Whether a node of one kind may stand just inside a node of another.
pub fn may_hold(parent: Kind, child: Kind) -> bool
    ensures { result ≡ table.may_hold parent child }
{
    match parent {
        Kind::Root => child == Kind::Section || child == Kind::InternalList || is_block(child),
        Kind::Section | Kind::Div => child == Kind::Section || is_block(child),
        Kind::Li
        | Kind::Dt
        | Kind::Dd
        | Kind::Blockquote
        | Kind::Td
        | Kind::Th
        | Kind::Caption
        | Kind::InternalItem => is_block(child),
        Kind::Ul | Kind::Ol => child == Kind::Li || is_block_leaf(child),
        Kind::Dl => child == Kind::Dt || child == Kind::Dd || is_block_leaf(child),
        Kind::Table => {
            matches!(
                child,
                Kind::Caption | Kind::Thead | Kind::Tbody | Kind::Tfoot
            ) || is_block_leaf(child)
        }
        Kind::Thead | Kind::Tbody | Kind::Tfoot => child == Kind::Tr || is_block_leaf(child),
        Kind::Tr => child == Kind::Td || child == Kind::Th || is_block_leaf(child),
        Kind::InternalList => child == Kind::InternalItem,
        Kind::P | Kind::H1 | Kind::H2 | Kind::H3 | Kind::H4 | Kind::H5 | Kind::H6 | Kind::Pre =>
            is_inline_leaf(child),
        Kind::TransBlock
        | Kind::AlienBlock
        | Kind::Br
        | Kind::Img
        | Kind::Ref
        | Kind::TransInline
        | Kind::AlienInline => false,
    }
}
