//! The net of one cluster with numbers of its own, and what its plan is in the whole net.
//!
//! - `numbers`: places of numbers.
//! - `grouping`: the numbers of the things of all clusters.
//! - `net`: the net of a cluster.
//! - `made`: how it is made of what is the cluster's own.
//! - `whole`: what is told of the own net, with the numbers of the whole net.
#![tactic(auto)]

mod grouping;
mod made;
mod net;
mod numbers;
mod whole;

pub use grouping::Groups;
pub use net::ClusterNet;
pub use numbers::place_in;
