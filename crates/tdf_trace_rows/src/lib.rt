//! The rows of a trace: what they are, from cells by column and time, and the cells that the samples of a signal give.
//!
//! - `kinds`: how traces are written.
//! - `cell`: a cell, as it is noted.
//! - `stamps`: the times of the samples of a signal.
//! - `laws`: what holds of rows and of their text.
#![tactic(auto)]

mod cell;
mod kinds;
mod laws;
mod stamps;

pub use cell::Cell;
pub use kinds::TraceKind;
pub use laws::{
    law_last, law_noted, law_position, law_row_times, law_same, law_sample, law_span, law_split,
    law_steady, law_times, law_without,
};
pub use stamps::Stamps;
