//! The data of a snapshot: what a run holds at a time, so that it can go on from there.
//!
//! - `state`: the types, seen as records of lists.
//! - `err`: why nothing is made of a state.
#![tactic(auto)]

mod err;
mod state;

pub use err::StateErr;
pub use state::{ClusterState, ColumnState, KernelState, ModuleState, Pending, Snapshot, Stamp};
