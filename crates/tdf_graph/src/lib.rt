//! Nets: the actors of a model, the edges between them, and the clusters that edges make of them.
//!
//! - `actors`: actors, edges and ports.
//! - `net`: a net, whose actors and rates are in range.
//! - `parts`: the actors in parts that edges join, one edge after the other.
//! - `numbering`: the number of each actor's cluster.
//! - `laws`: what holds of the definitions.
#![tactic(auto)]

mod actors;
mod laws;
mod net;
mod numbering;
mod parts;

pub use actors::{Actor, Edge, Port};
pub use laws::law_clusters;
pub use net::Net;
pub use numbering::clusters;
pub use parts::Parts;
