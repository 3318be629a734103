//! Pages that are written with kept nodes in them, and read again. It defines no writing and no
//! reading: those are `model_page_write`'s and `model_page`'s.
//!
//! Each law is a definition in specs/ and a clause of the function in `laws`. In reading order:
//!
//! - `KeptBytes` (`kept_bytes_stand`): a kept block or leaf stands in the page with its bytes. What
//!   is written before and after it depends of it on no more than the whitespace before it, its
//!   marks and whether it is bare. In a node that is kept itself it would be false (`BytesExamples`);
//! - `Readable`: the lists that it speaks of, where leaves are kept whole. Anything may stand in a
//!   kept block, and such a leaf elsewhere reads as itself. All else is of the form that reads back
//!   (`Formed` of `model_page_law`);
//! - `KeptBack` (`kept_page_is_read_back`): whichever nodes are kept by their bytes, the page that
//!   a list gives opens as the list, where it opens. That it does where a forest spells its body is
//!   `model_page_law`'s.
//!
//! Of reading back it says nothing for pages with references, nor for leaves that are kept whole in
//! paragraphs that may be bare.
//!
//! That pages read back is proved in three steps, each a few files in proofs/. At every depth the
//! span of a node is its source (`SourceRows`). Where nothing in it is kept whole, or nothing is a
//! reference, that source makes the same items wherever it stands (`ApartParts`, `WholeParts`,
//! `RunParts`). So a writer's text is spelled by a forest that is read as the list. An original
//! element, run or leaf stands in it in place of the canonical one (`OwnContent`, `WholeContent`,
//! `WrittenBlocks`, `KeptBlocks`, `StandingBlocks`).
//!
//! Two leaves of one `about` that come to stand side by side are read back as one group; so the law
//! asks that they don't (`is_apart`). A leaf that is kept whole is read back where its source by
//! itself is read as that leaf in its parent (`IsWholeLeaf`): a `td` kept whole in the root would
//! be a cell in a row.
#![tactic(auto)]

mod laws;

pub use laws::{kept_bytes_stand, kept_page_is_read_back};
