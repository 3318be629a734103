//! The spelling of pages: tokens and forests of a page's text, the first fault of a text that no
//! spelling allows, and the canonical spelling. It knows bytes, tags and references, and nothing of
//! kinds and items. Beside the types of a fault there is no code that runs. The definitions in
//! specs/, in reading order:
//!
//! - `Grammar`, `Forest`: tokens and forests, and the one text of each. Which elements are void or
//!   raw is said by `ve_kinds`, the limits by `ve_base`;
//! - `Reading`, `Tokens`, `Faults`, `Parsed`: a text read from left to right, its first fault, and
//!   its forest;
//! - `ForestNodes`: the nodes of a forest with their bytes;
//! - `Page`: the prefix, the body and the suffix of a page, and its first fault;
//! - `Written`, `Canonical`: what is decoded, and the canonical spelling of texts, attributes, tags
//!   and forests;
//! - `Laws`, `Standing`, `Utf8`, proved in `laws`: texts are read exactly as they are spelled; at
//!   most one forest spells a text. A fault lasts however the text goes on, or is one of the text's
//!   end, and then some text after it makes it go.
//!
//! The first fault, where the subject leaves a choice. A start tag with a fault inside, where 200
//! elements are open, has the tag's fault. `<!d` and `<!doctyp`, cut short, are bad tags. `&am`
//! before U+0000 is a bad character, `&ax` a bad reference. At the text's end `&am` is a bad
//! reference in text and an unclosed tag in a value. `<p/` is a bad attribute also at the end,
//! `<br/` there an unclosed tag. Void and raw elements count for depth.
//!
//! In a whole page the first `<body` counts, also one in a comment of the head. Names keep their
//! case. A comment and raw text end at their first end, where a browser is more lenient.
#![tactic(auto)]

mod laws;
mod scan_fault;

pub use laws::{canonical_laws, forest_laws, page_laws, prefix_laws, token_laws, utf8_laws};
pub use scan_fault::{ScanFault, ScanWhat};
