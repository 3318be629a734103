// The numbers of the product, each under its name. `specs/Limits.antt` has the same numbers for
// definitions and clauses.

/// How many bytes a page may have.
pub const MAX_PAGE: usize = 4_194_304;
/// How many elements may be open at one position of a page, void ones counted.
pub const MAX_OPEN_ELEMENTS: usize = 200;
/// How many attributes a tag of a page may have.
pub const MAX_ATTRIBUTES: usize = 256;
/// How many kinds of nodes may be open at one position of a list.
pub const MAX_OPEN_KINDS: usize = 100;
/// How many marks an item may have.
pub const MAX_MARKS: usize = 64;
/// How many items a list may have after opening a page or after an edit.
pub const MAX_ITEMS: usize = 4_194_304;
/// How many values a store may have after opening a page or after an edit.
pub const MAX_VALUES: usize = 1_048_576;
/// The most that all lengths of a transaction's operations may add up to, in items.
pub const MAX_TOTAL_LENGTH: usize = 1 << 60;
/// How many rows a cell of a table may span.
pub const MAX_ROW_SPAN: usize = 65_534;
/// How many columns a cell of a table may span.
pub const MAX_COLUMN_SPAN: usize = 1_000;
/// How many bytes a line of a script may have, without its newline.
pub const MAX_LINE: usize = 8_388_608;
/// How many bytes a script may have.
pub const MAX_SCRIPT: usize = 67_108_864;
/// How many sites may edit one page.
pub const MAX_SITES: usize = 8;
/// How many commands a batch may have.
pub const MAX_BATCH: usize = 1_000;
/// How many items a block of the flat list may have.
pub const MAX_BLOCK: usize = 512;
/// How many items a block of the flat list gets where it is made, so that later ones find room in
/// it.
pub const FILLED_BLOCK: usize = 448;
