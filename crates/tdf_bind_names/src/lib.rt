//! The blocks of a model with their names resolved to numbers, and what the model holds of each kind.
//!
//! - `bindings`: what the ports of the instances of a composite are bound to.
//! - `signals`, `instances`: the signals and the instances of a composite.
//! - `models`: the blocks of a whole model.
//! - `measures`, `counts`: what there is a limit for, and whether a model is past a limit.
//! - `laws`: what holds of the definitions.
#![tactic(auto)]

mod bindings;
mod counts;
mod instances;
mod laws;
mod measures;
mod models;
mod signals;

pub use counts::is_too_many;
pub use laws::{law_bound, law_counts, law_earlier};
pub use models::resolve;
