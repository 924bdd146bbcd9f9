//! The faults of expressions and statements with their widths and weights, and the first of them.
//!
//! - `site`: where a line of a body stands.
//! - `sizes`: widths, counted up to the greatest number.
//! - `notes`: names of another kind than their place allows.
//! - `indices`: whether an index may lie outside its array or port.
//! - `exprs`: the faults of expressions.
//! - `weights`: weights of statements, counted up to one more than the greatest that a body may have.
//! - `heads`: the faults of statements on their own lines.
//! - `stmts`: the faults of statements, and their weights.
//! - `bodies`: the faults of a body.
#![tactic(auto)]

mod bodies;
mod exprs;
mod heads;
mod indices;
mod notes;
mod site;
mod sizes;
mod stmts;
mod weights;

pub use bodies::check_body;
pub use heads::{note_multiple, note_step};
pub use notes::note_kind;
