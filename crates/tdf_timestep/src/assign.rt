//! Timesteps that are assigned, and the steps that they give.

use tdf_places::Sparse;

/// A timestep that is assigned to a module or to one of its ports.
#[derive(Clone, Copy, Debug, PartialEq, Eq)]
pub struct Assign {
    /// The number of the module.
    pub actor: u32,
    /// The number of the port; `None` is the module itself.
    pub port: Option<u32>,
    /// The timestep, in counts of the model's resolution.
    pub step: u64,
}

/// A module, or one of its ports.
#[derive(Clone, Copy, Debug, PartialEq, Eq)]
pub struct Spot {
    /// The number of the module.
    pub actor: u32,
    /// The number of the port; `None` is the module itself.
    pub port: Option<u32>,
}

/// The period of a cluster and the steps of its actors, in counts of the model's resolution.
#[derive(Drop)]
pub struct Steps {
    /// The period.
    pub period: u64,
    /// The step of each actor, 0 for the actors of other clusters.
    pub actor_steps: Sparse,
}
