//! The first fault of a model's names: a name that is declared twice, or used where it is not in force.
//!
//! - `table`: the names of one name space.
//! - `scope`: the names in force on a line of a block.
//! - `exprs`, `stmts`: the names of expressions and statements.
//! - `lines`, `lists`: the names of lines of blocks, and of lines one after another.
//! - `blocks`, `model`: the names of blocks, and of a whole model.
//! - `laws`: what holds of the definitions.
#![tactic(auto)]

mod blocks;
mod exprs;
mod laws;
mod lines;
mod lists;
mod model;
mod scope;
mod stmts;
mod table;

pub use laws::{law_fault_lines, law_names_once};
pub use model::check_names;
