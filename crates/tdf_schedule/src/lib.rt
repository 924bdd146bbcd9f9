//! The plan of a cluster: its firings of one period in order, and the most samples that each edge holds.
//!
//! - `entry`: plans and their entries.
//! - `err`: why a cluster has no plan.
//! - `key`: the level and the offset of a firing.
//! - `lists`: lists of numbers, by actor, of which most are empty.
//! - `links`: the edges into each actor and from it.
//! - `join`: the key of an actor's next firing.
//! - `work`: the keys of all firings that are grounded.
//! - `faults`: the faults of a cluster, looked for in its keys.
//! - `turns`: the firings, laid out by level.
//! - `sorted`: the firings, sorted.
//! - `bounds`: the most samples that each edge holds.
//! - `cluster`: the plan of one cluster.
//! - `laws`: what holds along a plan.
#![tactic(auto)]

mod bounds;
mod cluster;
mod entry;
mod err;
mod faults;
mod join;
mod key;
mod laws;
mod links;
mod lists;
mod sorted;
mod turns;
mod work;

pub use cluster::plan;
pub use entry::{Entry, Plan};
pub use err::PlanErr;
pub use key::Key;
pub use laws::{law_plans, law_present};
