//! The plan of one cluster under a table of attributes, over the net that is the cluster's own.
//!
//! - `counting`: how often some actors fire in a plan.
//! - `groups`: the things of a model by cluster.
//! - `own_parts`: what is a cluster's own.
//! - `own_timing`: the first phase by the own net of the cluster, counts and steps.
//! - `own_planning`: the second phase by it, the plan.
//! - `own_rates`: the rates of own edges under a table, by place.
//! - `plans`: the plan under a table, or the first fault.
#![tactic(auto)]

mod counting;
mod groups;
mod own_parts;
mod own_planning;
mod own_rates;
mod own_timing;
mod plans;

pub use counting::{firings, firings_of, set_firings};
pub use groups::TableGroups;
pub use own_planning::make_plan;
pub use own_rates::set_own_rates;
pub use own_timing::cluster_timing;
pub use plans::{own_net, table_plan};
