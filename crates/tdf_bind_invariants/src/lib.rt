//! The numbers of a flat model lie within their limits, so that its clusters can be planned.
//!
//! There is no code here but laws, and the definitions are in `specs`.
//!
//! - `laws`: what holds of all flat models.
#![tactic(auto)]

mod laws;

pub use laws::{law_formats, law_limits, law_starts};
