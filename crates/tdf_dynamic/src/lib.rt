//! What a change of attributes leads to, between two periods of a cluster.
//!
//! - `frames`: the instances of the modules of a cluster.
//! - `asking`: the change bodies, and what each asks for.
//! - `tables`: the table of attributes that comes of it, and whether it differs.
//! - `rejecting`: whether a module rejects new steps.
//! - `next`: what a boundary leads to.
//! - `laws`: what holds of its answers, and of what modules ask for.
#![tactic(auto)]

mod asking;
mod frames;
mod laws;
mod next;
mod rejecting;
mod tables;

pub use asking::begin;
pub use frames::{Frames, Instance, ModuleFrame};
pub use laws::{law_attributes, law_one_answer};
pub use next::{Next, next_plan};
