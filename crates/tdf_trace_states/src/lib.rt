//! The state of a column of a trace: which cells it says, whether it is one, and whether a run can go on from it.
//!
//! - `fitting`: whether a state is one of a column.
//! - `numbers`: numbers and samples.
//! - `windows`: whether a run can go on from one.
#![tactic(auto)]

mod fitting;
mod numbers;
mod windows;

pub use fitting::is_column_state;
pub use numbers::{carry_in, number_of, numbers_of, sample_in, samples_in};
pub use windows::{Window, is_events_state, is_samples_state};
