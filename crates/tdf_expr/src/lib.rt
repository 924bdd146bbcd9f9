//! The bodies of a model: checked, compiled once, and run.
//!
//! - `checking`: the call that checks a model and compiles its bodies.
//! - `checked`, `blocks`: the blocks of a model, compiled.
//! - `modules`: how they are compiled.
//! - `runs`: how bodies run.
//! - `frames`: the values of an instance of a block.
//! - `holding`: whether numbers can be the values of a block.
//! - `samples`: the samples of its ports, and what its bodies asked for.
//! - `cells`, `rates`, `ports`, `events`, `spans`: what the values of a block look like.
#![tactic(auto)]

mod blocks;
mod bodies;
mod cells;
mod checked;
mod checking;
mod events;
mod frames;
mod holding;
mod modules;
mod ports;
mod rates;
mod runs;
mod samples;
mod spans;

pub use bodies::Body;
pub use checked::Checked;
pub use checking::check_bodies;
pub use frames::Frame;
pub use runs::run_body;
pub use samples::Ports;
pub use spans::{PortSpan, RateSpan};
