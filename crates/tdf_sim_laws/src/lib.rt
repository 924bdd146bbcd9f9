//! What holds of the history of a model and of the clusters that run it, beside the laws of `tdf_sim_history` and `tdf_sim_refinement`.
//! No crate stands on this one.
//!
//! There is no code here but laws, and the definitions are in `specs`.
//!
//! - `laws`: the times of positions, the samples at the start of a period, a history in two parts, and columns from the
//!   text's start on.
#![tactic(auto)]

mod laws;

pub use laws::{law_samples_at, law_splits, law_text_columns, law_times};
