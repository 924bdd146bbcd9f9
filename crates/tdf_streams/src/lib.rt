//! The streams of the clusters of a flat model: their periods, positions, activations and samples.
//!
//! There is no code here but laws, and the definitions are in `specs`.
//!
//! - `laws`: what holds of the streams.
#![tactic(auto)]

mod laws;

pub use laws::{
    law_any_order, law_known, law_plan_record, law_signal, law_standing, law_start, law_time,
    law_worked,
};
