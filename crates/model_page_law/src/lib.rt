//! The laws of pages: the list that a page opens as, where its nodes come from, what its references
//! say, and the text that is written of it. It knows the definitions of `model_spelling`,
//! `model_page` and `model_page_write`, and proves laws of every page and every list. There is no
//! code that runs. It doesn't know how a session edits pages: that is `model_world_law`'s.
//!
//! Each law is a definition in specs/ and the contract of a function in `laws`. In reading order:
//!
//! - `WrittenBack` (`page_opens`, `page_is_written_back`): which pages open, and that each is
//!   written as itself;
//! - `Lawful` (`page_is_read`): what opens within the limits is a lawful list;
//! - `Origins`, `Spans` (`origins_number_spans`, `spans_are_parts`, `origins_stand`): where nodes
//!   come from, in the page and in the list;
//! - `Referring`, `Composed`, `WrittenReference` (`references_are_editable`,
//!   `edits_keep_references`, `composed_reads_back`, `reference_is_written`): references stay
//!   editable, and are written as what they say;
//! - `Formed`, `ReadBack`, `WritesFresh`, `Replaced` (`fresh_is_read_back`, `writes_fresh`,
//!   `whole_range_is_fresh`, `written_page_opens`): what is written anew is read back.
//!
//! `Strings` says that each string of a value of JSON passes a test, as what is read of UTF-8 does: so
//! the bodies of a page that is UTF-8 are UTF-8 (`proofs/OwnersUtf8.antt`).
//!
//! A reference whose body no forest of 200 levels spells is written as an element that isn't
//! editable. The law of written references tells both cases apart.
#![tactic(auto)]

mod laws;

pub use laws::{
    composed_reads_back, edits_keep_references, fresh_is_read_back, origins_number_spans,
    origins_stand, page_is_read, page_is_written_back, page_opens, reference_is_written,
    references_are_editable, spans_are_parts, whole_range_is_fresh, writes_fresh,
    written_page_opens,
};
