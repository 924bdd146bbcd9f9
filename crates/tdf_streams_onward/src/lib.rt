//! A start inside a run: the streams that go on from what a cluster holds are those of the run, counted from there.
//!
//! There is no code here but laws, and the definitions are in `specs`.
//!
//! - `laws`: what holds of the streams that go on.
#![tactic(auto)]

mod laws;

pub use laws::{law_enough, law_onward};
