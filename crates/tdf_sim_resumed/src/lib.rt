//! A run that goes on from a snapshot: the world that it says, when a snapshot is valid, and which snapshot a world has.
//!
//! There is no code here but laws, and the definitions are in `specs`.
//!
//! - `laws`: what holds of the world that a valid snapshot says, that a run has one snapshot at a time, and that clusters
//!   tell theirs.
//! - `making`: the clusters that go on from states.
//! - `made_laws`: what holds of the definitions.
#![tactic(auto)]

mod laws;
mod made_laws;
mod making;

pub use laws::{law_one_snapshot, law_resumed, law_saved};
pub use made_laws::law_restored;
pub use making::restored_clusters;
pub use tdf_sim_refinement::Cluster;
