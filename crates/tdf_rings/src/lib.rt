//! The samples of an edge: a list with a capacity that is made once.
//!
//! - `ring`: a ring and its calls.
//! - `carrying`: rings that get new capacities and keep their samples.
#![tactic(auto)]

mod carrying;
mod ring;

pub use carrying::carry;
pub use ring::Ring;
