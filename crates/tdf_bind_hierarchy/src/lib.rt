//! The walk over the blocks of a model whose names are resolved: what is met in preorder, with its path.
//!
//! - `blocks`: blocks whose names are resolved to numbers.
//! - `paths`: dotted paths that share their fronts.
//! - `tables`: the tables of signals and of instances.
//! - `walk`: the walk.
//! - `laws`: what holds of all tables and of all models.
#![tactic(auto)]

mod blocks;
mod laws;
mod paths;
mod tables;
mod walk;

pub use blocks::{Block, Instance, SignalLine, Target};
pub use laws::{law_depth, law_kinds, law_numbers};
pub use paths::SharedPath;
pub use tables::{InstanceRow, Signal, SignalNumber, Tables};
pub use walk::tables_of;
