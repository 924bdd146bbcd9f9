//! What the event side of each flat model has, so that it can run.
//!
//! There is no code here but laws, and the definitions are in `specs`.
//!
//! - `laws`: what holds of all flat models.
#![tactic(auto)]

mod laws;

pub use laws::{law_few_rows, law_instances, law_owners, law_runnable, law_starts};
