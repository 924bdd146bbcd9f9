//! The instants of a run: all that runs of a model, and what it does at a time.
//!
//! - `crossing`: the boundaries of all clusters at a time.
//! - `sampling`: the samplers that are due get the values of their signals.
//! - `settling`: the event part.
//! - `times`: the next time at which something is due.
//! - `engine`: all that runs, and its instants.
//! - `making`: all that runs, before its first instant.
//! - `making_room`: room for what one offset of each cluster gives.
//! - `telling`: what a run tells of itself between two instants.
//! - `laws`: what holds of the definitions.
#![tactic(auto)]

mod crossing;
mod engine;
mod laws;
mod making;
mod making_room;
mod sampling;
mod settling;
mod telling;
mod times;

pub use crossing::{Pass, cross_all};
pub use engine::Engine;
pub use laws::{law_crossing, law_instant};
pub use tdf_dynamic::law_one_answer;
pub use tdf_sim_refinement::Cluster;
