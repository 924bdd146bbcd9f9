//! What a run leaves on its notes, and how it ended.
//!
//! - `ending`: how a run ended, and the closing line that says so.
//! - `news`: the plan of a cluster from a time on.
//! - `plans`: the plans of all clusters at the start.
//! - `laws`: these texts are the notes of a run.
#![tactic(auto)]

mod ending;
mod laws;
mod news;
mod plans;

pub use ending::{End, push_closing, write_closing};
pub use laws::law_report;
pub use news::{push_plan_at, write_plan};
pub use plans::write_plans;
