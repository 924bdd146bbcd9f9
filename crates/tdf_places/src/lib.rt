//! Things of a model by places of their own: what a cluster has of each of its own things, beside the numbers that these have in the model.
//!
//! - `places`: the numbers by place, and the place of a number.
//! - `sparse`: lists of numbers most of which are 0.
#![tactic(auto)]

mod places;
mod sparse;

pub use places::Places;
pub use sparse::Sparse;
