//! A cluster in progress: its plan, the place in it, the samples on its edges, and what its modules keep.
//!
//! - `runners`: what each actor needs to fire, and one firing.
//! - `cluster`: a cluster in progress, and its calls.
//! - `actors`: what it has for its own actors, by places of their own.
//! - `laying`: what the actors of a model need at a start, laid out once for all clusters.
//! - `beginning`: what its actors keep at its start.
//! - `starting`: a cluster at the start of its first period.
//! - `crossing`: from the end of a period to the next.
//! - `asking`: the modules say which changes of attributes they ask for.
//! - `moving`: the instances of modules go into a list and come back.
//! - `restarting`: the next period with a new plan.
//! - `resuming`: a cluster that goes on from a state.
//! - `tracing`: the ports of modules whose signals are traced.
//! - `telling`: what a cluster in progress tells of itself.
//! - `saving`: what a cluster in progress holds, for a snapshot.
//! - `laws`: what holds of clusters in progress.
#![tactic(auto)]

mod actors;
mod asking;
mod beginning;
mod cluster;
mod crossing;
mod laws;
mod laying;
mod moving;
mod restarting;
mod resuming;
mod runners;
mod saving;
mod starting;
mod telling;
mod tracing;

pub use cluster::Cluster;
pub use laws::{law_few, law_own, law_rates, law_safe};
pub use laying::{Layout, cluster_groups};
pub use runners::{ModuleRunner, Runner, SamplerRunner, SinkRunner, TracedPort};
pub use tdf_cluster_plans::TableGroups;
pub use tdf_dynamic::Next;
pub use tdf_exec_layout::law_one_port;
pub use telling::Room;
