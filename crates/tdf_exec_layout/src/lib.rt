//! What a cluster needs of a flat model, read off its tables.
//!
//! - `places`: the place of each port in its block.
//! - `ends`: the edges of an actor, as they are found.
//! - `gathering`: each edge goes to its writer and to its reader.
//! - `wiring`: what each actor reads and writes.
//! - `initial`: the samples that an edge holds at first.
//! - `laws`: what holds of all flat models.
#![tactic(auto)]

mod ends;
mod gathering;
mod initial;
mod laws;
mod places;
mod wiring;

pub use initial::initial_samples;
pub use laws::{law_edge_formats, law_edges, law_one_port, law_rates, law_rates_within, law_wired};
pub use places::port_places;
pub use wiring::{ActorWires, all_wires};
