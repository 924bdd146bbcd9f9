//! The compiler of bodies: from statements without a fault to code that is safe and does what the language says.
//!
//! - `layouts`, `numbers`: where the values of each name of a block are kept.
//! - `spots`: where an indexed element stands.
//! - `formats`: formats and literals.
//! - `names`: names and elements of expressions.
//! - `exprs`: operators and expressions.
//! - `targets`: assignments.
//! - `stmts`: statements and bodies.
#![tactic(auto)]

mod exprs;
mod formats;
mod layouts;
mod names;
mod numbers;
mod spots;
mod stmts;
mod targets;

pub use formats::{format_of, literal_in};
pub use layouts::Layout;
pub use numbers::Numbers;
pub use stmts::compile_body;
