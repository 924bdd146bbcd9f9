//! Compiled bodies and how they run. Running takes no memory and refuses nothing.
//!
//! - `spots`: where an indexed element stands.
//! - `numbers`: arithmetic in 128 bits, below 2^120.
//! - `nodes`: compiled expressions and their values.
//! - `short`: the same in 64 bits, where every step fits.
//! - `narrow`: expressions all of whose steps fit 64 bits wherever they are safe.
//! - `expressions`: expressions that know whether all their steps fit 64 bits.
//! - `plain`: loops over elements that go without a walk over their bodies.
//! - `acts`: compiled statements, and how they run.
//! - `flattening`: statements as flat code.
//! - `sequences`: many statements as one.
#![tactic(auto)]

mod acts;
mod expressions;
mod flattening;
mod narrow;
mod nodes;
mod numbers;
mod plain;
mod sequences;
mod short;
mod spots;

pub use acts::{Act, Bounds, CastNode, Turns, run};
pub use expressions::Expression;
pub use nodes::{Node, Relation, eval};
pub use sequences::sequence;
pub use spots::Spot;
