//! The flat model of a hierarchy: all tables, with the clusters of its actors, or the first fault of binding.
//!
//! - `actors`: modules, samplers and sinks, with their clusters.
//! - `flat`: all tables, or the first fault.
//! - `reading`: the number of clusters, and the paths of actors and edges.
//! - `laws`: what holds of all flat models.
#![tactic(auto)]

mod actors;
mod flat;
mod laws;
mod reading;

pub use actors::{ActorRow, actors_of};
pub use flat::{BindErr, FlatTables, flat_of};
pub use laws::{law_edges, law_ranges, law_signals};
