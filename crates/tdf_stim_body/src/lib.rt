//! What one run of the body of a driver does. No crate of the program stands on this one.
//!
//! There is no code here but laws, and the definitions are in `specs`.
//!
//! - `laws`: the numbers of lines change nothing; run m of a driver's body; where its names stand.
#![tactic(auto)]

mod laws;

pub use laws::{law_body, law_lines, law_names};
