//! Flat code: assignments as steps one after another, of numbers of 64 bits. Running it takes no memory and refuses nothing.
//!
//! - `steps`: the steps of flat code, and how they run.
//! - `fits`: the casts that a step makes.
#![tactic(auto)]

mod fits;
mod steps;

pub use fits::fit_of;
pub use steps::{Fit, Operand, Operation, run_flat};
