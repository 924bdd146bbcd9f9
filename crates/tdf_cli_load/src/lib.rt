//! The text of a model with a chain of modules, to measure with: a seed and a size say all of it.
//!
//! - `chain`: the numbers of a seed, the kinds of its modules, and the levels between them.
//! - `text`: the lines of the model.
#![tactic(auto)]

mod chain;
mod text;

pub use text::load_text;
