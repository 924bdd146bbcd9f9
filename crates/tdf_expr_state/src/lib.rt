//! What the bodies of one block read and change.
//!
//! - `cells`: the values of variables, elements and rates.
//! - `notified`: the events that were notified.
//! - `signals`: the samples of the ports, and what statements asked for.
//! - `resets`: lists set back in place.
#![tactic(auto)]

mod cells;
mod notified;
mod resets;
mod signals;

pub use cells::Cells;
pub use signals::Signals;
