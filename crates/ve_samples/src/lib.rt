//! Pages for tests, each written in one line. `sample(alloc, "<p>ab|c</p>")` is the list of a
//! paragraph of three letters with the internal list at its end, and the offset of the mark `|`,
//! which is 3. For tests alone: no crate's other code calls it.
//!
//! A tag is that of an element's kind, as `<p>` and `</td>`, or the name of a kind without a tag,
//! as `<alien_block>`. The tag of a leaf, as `<br>`, is its opening and its closing. Every other
//! character is an item. No item has marks, a head, whitespace or an origin, so the items cite no
//! value. It doesn't know whether a list is lawful.
//!
//! Its contracts say little: that the items cite no value (`CitesNothing`) and that the mark lies
//! in the list. What a line spells is read off, and tests compare lists that were spelled in the
//! same way.
#![tactic(auto)]

mod item;
mod line;

pub use item::{closing, letter, opening};
pub use line::{MarkedPage, list, pieces, sample};
