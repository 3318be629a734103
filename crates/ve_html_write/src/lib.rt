//! Texts and tags in the canonical spelling (WHATWG HTML, "Serializing HTML fragments", but that
//! `<` and `>` are references in values too). It knows texts, names and attributes; which text or
//! tag comes next is its caller's matter.
//!
//! Proved: texts and tags come in the canonical spelling, whole or not at all; `push_escaped` may
//! leave a prefix. Bytes that were UTF-8 still are when a call succeeds (clause `utf8`). It is no
//! law of the model, where a character is any number.
//!
//! - `put_text`: the characters of a text; `put_start`, `put_end`: the tags of an element. Each
//!   appends whole, or not at all;
//! - `push_escaped` appends the characters of a text or a value directly, without a copy. So an
//!   `Err` leaves a prefix of them (`Tags` in specs/). `push_attr` appends an attribute so;
//! - where the bytes were UTF-8, they still are after each call that succeeds;
//! - their meaning is `escaped` and `start_tag` in `Written` of `model_spelling`, and `end_text` in
//!   its `Grammar`.
//!
//! There are no laws here: that what is written is read back is a law of `model_spelling`.
//!
//! Writing a tag takes an allocator: a tag is built beside the page and appended in one piece. So
//! want of memory leaves the page as it was.
#![tactic(auto)]

mod escape;
mod tags;
mod texts;

pub use escape::push_escaped;
pub use tags::{push_attr, put_end, put_start};
pub use texts::put_text;
