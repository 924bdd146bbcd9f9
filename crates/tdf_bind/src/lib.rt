//! The flat model of a text, or its first fault of binding.
//!
//! - `model`: the flat model.
//! - `lines`: the lines that ask for traces.
//! - `binding`: how a tree is made flat.
//! - `laws`: what holds of all flat models.
#![tactic(auto)]

mod binding;
mod laws;
mod lines;
mod model;

pub use binding::flatten;
pub use laws::{law_blocks, law_delays, law_one_fault, law_parts, law_paths};
pub use model::Flat;
