//! How often each actor of a cluster fires in one period.
//!
//! - `err`: why a cluster has no counts.
//! - `divisor`: the greatest common divisor of two numbers.
//! - `scaling`: counts of some actors, multiplied.
//! - `solution`: the least counts of each part, one edge after the other.
//! - `cluster`: the counts of one cluster.
//! - `laws`: what holds of the definitions.
#![tactic(auto)]

mod cluster;
mod divisor;
mod err;
mod laws;
mod scaling;
mod solution;

pub use cluster::counts;
pub use err::BalanceErr;
pub use laws::law_counts;
