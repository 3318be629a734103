//! Marks, conversions, attributes and wraps as transactions. `marking` and `unmarking` set a mark
//! on a range and take it off. `convert` gives a branch of content another kind, and `attribute`
//! sets one attribute of an element. `wrap` puts brackets round nodes that stand side by side, or
//! takes them off.
//!
//! Each gives the model's transaction, or the model's refusal, and writes nothing. New values go
//! into the `NewValues` that are passed: after a success just those that the inserted items bring,
//! and after a refused `wrap` none. The tree is reached through `ve_edits` alone.
//!
//! Definitions, in reading order: `Converted` (the edits of a conversion), `Remarked` (those of a
//! range's marks), and `Setting` (the operations that set an attribute). Then `Nodes` (the nodes of
//! a range that is wrapped, and the claims on them), and `Round` (the brackets, and the edits that
//! put them). Most serve private functions. The edits are defined in `model_edit`'s `Convert`,
//! `Marking` and `Wrap`, their refusals in `ve_edits`' `Refused`. There are no laws here: those of
//! `model_edit_law` hold of the results by the clauses.
//!
//! `marking` passes the range twice: the first pass finds the first item that would have too many
//! marks, and brings no value. It counts marks, and compares them only at the limit. The second
//! pass, which is the only one of `unmarking`, compares and cites marks once for all items side by
//! side that cite the same ones. `attribute` has `Transaction::filled` find the position of an
//! attribute that goes. A wrap's brackets are made once for all nodes of the range. Want of memory
//! comes only where nothing else refuses the change. `wrap` alone lists the nodes of its range
//! before it finds a bracket that stands wrong.
#![tactic(auto)]

mod attributes;
mod changes;
mod claims;
mod kinds;
mod mark;
mod nodes;
mod remark;
mod shapes;
mod wraps;

pub use attributes::attribute;
pub use kinds::convert;
pub use mark::{marking, unmarking};
pub use wraps::wrap;
