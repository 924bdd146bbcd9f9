//! The members of a flat model, by which the text of a snapshot names its parts.
//!
//! - `members`: all members of a model.
//! - `modules`: those of its clusters.
//! - `laws`: what holds of the members of all sound models.
#![tactic(auto)]

mod laws;
mod members;
mod modules;

pub use laws::law_members;
pub use members::members_of;
