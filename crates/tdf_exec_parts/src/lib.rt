//! The parts of a cluster under a table of attributes and its plan, by edge, and whether a state has such parts.
//!
//! - `filling`: the rings of a cluster at its start.
//! - `fitting`: whether the modules and the time of a state fit.
//! - `holding`: whether the samples of a state are those of its edges.
//! - `judging`: whether a cluster can go on from a state, and under which table and plan.
//! - `restoring`: the rings of a state, and the values of an instance.
#![tactic(auto)]

mod filling;
mod fitting;
mod holding;
mod judging;
mod restoring;

pub use filling::first_rings;
pub use judging::{Standing, standing_of};
pub use restoring::{set_values, state_rings};
