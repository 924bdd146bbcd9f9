//! A run of a model: what joins clusters in progress to the history.
//!
//! - `firing`: the firings of a cluster at a time, within the turns that are left.
//! - `periods`: what holds at the start and at the boundaries of a cluster.
//! - `turns`: the pass over all clusters at a time.
//! - `linking`: the links of the samplers of each cluster, and of all sinks.
//! - `laws`: what holds of the firings of an instant.
#![tactic(auto)]

mod firing;
mod laws;
mod linking;
mod periods;
mod turns;

pub use firing::fire_due;
pub use laws::{
    law_along, law_answers, law_cluster, law_emitted, law_firings, law_offsets, law_pass,
    law_ports, law_samples, law_settled, law_traced,
};
pub use linking::{all_sampler_links, sink_links};
pub use periods::{law_boundary, law_start};
pub use tdf_exec::{Cluster, Layout, Room, TableGroups, cluster_groups, law_own};
pub use turns::{Moment, fire_all};
