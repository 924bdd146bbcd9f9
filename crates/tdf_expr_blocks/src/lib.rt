//! The first fault of types, widths and bodies of a model.
//!
//! - `lines`: the faults of lines that stand outside of bodies.
//! - `writers`: event ports that two processes of a block assign.
//! - `blocks`: the faults of blocks.
//! - `types`: the first fault of a whole model.
#![tactic(auto)]

mod blocks;
mod lines;
mod types;
mod writers;

pub use types::check_types;
