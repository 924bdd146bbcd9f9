//! The counts, the period and the steps of a cluster.

ghost use Rattle.std.specs.Prelude.{◌≡◌, IfOk};

use std::alloc::Global;
use tdf_base::Memory;
use tdf_places::Sparse;
use tdf_timestep::Steps;

/// The counts, the period and the steps of a cluster.
#[derive(Drop)]
pub struct Timing {
    /// How often each actor fires in a period, 0 for the actors of other clusters.
    pub counts: Sparse,
    /// The period and the steps.
    pub steps: Steps,
}

impl Timing {
    /// The same counts, period and steps.
    ///
    /// # Errors
    /// Out of memory.
    pub fn copy(&self, alloc: Global) -> Result<Timing, Memory>
        ensures counts { IfOk result (λ t. t.counts.items ≡ self.now.counts.items) }
        ensures steps { IfOk result (λ t. t.steps.actor_steps.items
            ≡ self.now.steps.actor_steps.items) }
        ensures period { IfOk result (λ t. t.steps.period ≡ self.now.steps.period) }
    {
        let counts = self.counts.copy(alloc)?;
        let actor_steps = self.steps.actor_steps.copy(alloc)?;
        Ok(Timing {
            counts,
            steps: Steps {
                period: self.steps.period,
                actor_steps,
            },
        })
    }
}
