//! The attributes of the modules of a cluster, what a plan and a fault of the cluster are under them, and the plans that were made last.
//!
//! It reads the tables of a flat model alone, and knows no body.
//!
//! - `attrs`: the attributes of the modules of a cluster.
//! - `clusters`: the clusters of the actors.
//! - `rates`: the rates of ports that a table gives, and those of an edge by them.
//! - `single`: one port, and one edge, with their rates.
//! - `assigning`: the timesteps that a table assigns.
//! - `err`: why a cluster has no plan.
//! - `faults`: how the faults of a cluster are told.
//! - `timing`: the counts, the period and the steps of a cluster.
//! - `known`: the plans that were made last.
#![tactic(auto)]

mod assigning;
mod attrs;
mod clusters;
mod err;
mod faults;
mod known;
mod rates;
mod single;
mod timing;

pub use assigning::assignments;
pub use attrs::{Attrs, ModuleAttrs};
pub use clusters::clusters_of;
pub use err::ChangeErr;
pub use faults::{balance_error, module_path, plan_error, step_error};
pub use known::KnownPlans;
pub use rates::{ones, told_rate};
pub use single::{are_rising, edge_under, port_under};
pub use timing::Timing;
