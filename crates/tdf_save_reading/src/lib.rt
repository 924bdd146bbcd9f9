//! The text of a snapshot, read exactly.
//!
//! - `snapshot`: a snapshot is read from its text.
//! - `head`, `clusters`, `kernel`, `columns`: its parts. `modules`, `values` and `events` read what they consist of.
//! - `places`: where the event of a notification is likely to stand among the events.
//! - `lists`, `numbers`: lists of numbers up to the end of their line, and numbers.
#![tactic(auto)]

mod clusters;
mod columns;
mod events;
mod head;
mod kernel;
mod lists;
mod modules;
mod numbers;
mod places;
mod snapshot;
mod values;

pub use snapshot::read_snapshot;
