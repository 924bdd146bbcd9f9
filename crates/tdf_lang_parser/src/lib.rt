//! From the lines of a model text to its tree: which rows spell which tree, where the first syntax fault is, and the parser.
//!
//! - `parser`: from a text to its tree.
//! - `rows`: the rows of a text that are left.
//! - `heads`: the rows that open a text.
//! - `turns`, `bodies`: where a line leads from its place, outside and inside a body.
//! - `items`: what a line is in its place.
//! - `places`: the places, with what the open blocks hold so far.
//! - `err`: why a text is refused.
//! - `laws`: what holds of the definitions.
#![tactic(auto)]

mod bodies;
mod err;
mod heads;
mod items;
mod laws;
mod parser;
mod places;
mod rows;
mod turns;

pub use err::LangErr;
pub use laws::{law_examples, law_fault_examples, law_spelled};
pub use parser::parse;
