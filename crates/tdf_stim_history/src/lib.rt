//! What holds of a driver in a run: a process that gives its signals the cells of a row at the time of each row. No crate of the
//! program stands on this one.
//!
//! There is no code here but laws, and the definitions are in `specs`.
//!
//! - `laws`: the event part of an instant, an instant, and a history, of a model with a driver; the literal of a column at a time.
#![tactic(auto)]

mod laws;

pub use laws::{law_driver_history, law_driver_instants, law_driver_parts, law_literals};
