//! Plans as texts.
#![tactic(auto)]

mod plans;

pub use plans::{push_accepted, push_fires, push_plan};
