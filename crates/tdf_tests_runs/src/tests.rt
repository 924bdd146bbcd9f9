//! Tests of runs of an accepted model.
//!
//! - `kernels`: what the kernel of a run tells after its stop.
//! - `pauses`: a run that waits at a stop and goes on.
//! - `plans`: how often a plan is made in a run, and which rates are in force after it.

mod kernels;
mod pauses;
mod plans;
