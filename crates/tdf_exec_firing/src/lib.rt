//! One firing of an actor over plain data: samples are taken from the rings of its edges, a body runs, and samples are
//! put on rings. No plan and no flat model stands here.
//!
//! - `wires`: which edges a module reads and writes.
//! - `edges`: the edges of a cluster, by places of their own.
//! - `taking`: the samples that a module reads go from its rings into its ports.
//! - `putting`: the samples that an actor writes go on its rings.
//! - `firing`: one firing of a module, of a sampler and of a sink.
//! - `laws`: what holds of the definitions.
#![tactic(auto)]

mod edges;
mod firing;
mod laws;
mod putting;
mod taking;
mod wires;

pub use edges::Edges;
pub use firing::{WiredModule, fire_module, fire_sampler, fire_sink};
pub use laws::{law_begin, law_formats};
pub use wires::{InWire, OutWire, Wires};
