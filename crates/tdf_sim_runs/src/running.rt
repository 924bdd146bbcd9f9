//! A run while it goes on.

use tdf_sim_instants::Engine;
use tdf_sim_shown::Shown;

/// A run while it goes on.
#[derive(Drop)]
pub struct Running {
    /// All that runs of the model.
    pub engine: Engine,
    /// What its trace shows.
    pub shown: Shown,
    /// The time before which all its instants have happened, in counts of the model's resolution.
    pub from: u64,
    /// The turns that are left.
    pub left: u64,
    /// The text of the plans that its boundaries brought, but for those that were handed on.
    pub news: Vec<u8>,
}
