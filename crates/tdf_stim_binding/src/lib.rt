//! What holds of the driven tree when it is bound. No crate of the program stands on this one.
//!
//! There is no code here but laws, and the definitions are in `specs`.
//!
//! - `laws`: the shape of the driven tree, the role of the driver's block, and what its ports
//!   reach.
#![tactic(auto)]

mod laws;

pub use laws::{law_last, law_roles, law_tree};
