//! The kernel of discrete events: the event side of a flat model.
//!
//! - `kernel`: the kernel and its calls.
//! - `parts`: what it holds.
//! - `making`: the parts before the first instant.
//! - `ported`: the ports of an instance, with those that its processes read.
//! - `running`: the body of a process runs.
//! - `due`: timed notifications come.
//! - `evaluating`: the triggered processes run.
//! - `updating`: signals take the values that wait for them.
//! - `stepping`: one delta step.
//! - `turns`: turns, and delta steps until no process is triggered.
//! - `instants`: the event part of an instant.
//! - `state`: the state between two instants.
//! - `resuming`: the parts that go on from a state. `fitting` tells whether it is one of the model.
//! - `waiting`: the values that wait for the next update.
//! - `notices`: pending notifications.
//! - `laws`: what holds of instants that follow one another, and of states.
#![tactic(auto)]

mod due;
mod evaluating;
mod fitting;
mod instants;
mod kernel;
mod laws;
mod making;
mod notices;
mod parts;
mod ported;
mod resuming;
mod running;
mod state;
mod stepping;
mod turns;
mod updating;
mod waiting;

pub use kernel::Kernel;
pub use laws::{law_instant, law_next, law_state};
pub use turns::{Spent, Turns};
