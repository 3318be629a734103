//! Tokens of a page, borrowed from its text. It knows how texts and tags are written, as
//! `model_spelling` says. Which elements are open is known to `ve_html_tree` alone. Nothing is
//! copied, and no call but `decoded` takes memory.
//!
//! Proved: the next token is the one that the grammar spells, or the fault is exactly the first.
//!
//! - `Scanner`: the next token, or the first fault, which it then repeats (`ScannerState`, `Gives`
//!   and `next_of` in `Shown`);
//! - `AttrTokens`: the attributes of a start tag, one after the other (`AttrsStep` in `Shown`);
//! - `body_of`: where the body of a page stands; `decoded`: a text or value with its references
//!   replaced; `decoded_same`: whether two say the same.
//!
//! `Parts`, `Names` and `Scanned` in specs/ serve the private functions over bytes. There are no
//! laws here: each contract is an equation with the definitions of `model_spelling`, whose laws say
//! what these mean.
#![tactic(auto)]

mod attr_names;
mod attr_tokens;
mod attrs;
mod body;
mod decode;
mod fault;
mod names;
mod runs;
mod scanner;
mod tags;
mod token;

pub use attr_tokens::{AttrToken, AttrTokens};
pub use body::body_of;
pub use decode::{decoded, decoded_same};
pub use model_spelling::{ScanFault, ScanWhat};
pub use scanner::Scanner;
pub use token::{Span, Token};
