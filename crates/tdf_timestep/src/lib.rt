//! The period of a cluster, and the steps of its actors.
//!
//! - `assign`: timesteps that are assigned, and the steps that they give.
//! - `err`: why a cluster has no period.
//! - `share`: what an actor or a port has in one period.
//! - `order`: the first of the assignments, and the first that differs from it.
//! - `exact`: the first step that isn't whole.
//! - `period`: the period and the steps of one cluster.
#![tactic(auto)]

mod assign;
mod err;
mod exact;
mod order;
mod period;
mod share;

pub use assign::{Assign, Spot, Steps};
pub use err::StepErr;
pub use period::steps;
