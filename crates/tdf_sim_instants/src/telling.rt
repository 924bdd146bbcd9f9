//! What a run tells of itself between two instants.

ghost use Rattle.std.specs.Prelude.{◌≡◌, ℕ, [], length};
ghost use Rattle.tdf_sim_instants.specs.Engine.{IsEngineOf, IsReadyAt};
ghost use Rattle.tdf_sim_instants.specs.Telling.{IsLeastStart};
ghost use Rattle.tdf_bind.specs.declared.model.Flat.{Flat as FlatModel};

use crate::engine::Engine;
use tdf_convert::Traced;

/// The least of these times; a limit where none is below it.
fn least_of(since: &[u64], limit: u64) -> u64
    ensures { IsLeastStart since.now limit result }
{
    let mut least = limit;
    for n in 0..since.len() {
        if since[n] < least {
            least = since[n];
        }
    }
    least
}

impl Engine {
    /// The samples of traced signals since they were cleared, in the order in which they came.
    pub fn traced(&self) -> &[Traced]
        ensures { result.now ≡ self.now.outputs.traced }
    {
        self.outputs.traced()
    }

    /// Empties the list of traced samples, which keeps its room.
    pub fn clear_traced(&mut self)
        ensures rest { self.new
            ≡ record self.old { outputs = record self.old.outputs { traced = [] } } }
        ensures engine { (flat : FlatModel) → IsEngineOf flat self.old → IsEngineOf flat self.new }
        ensures ready { (time : ℕ) → IsReadyAt time self.old → IsReadyAt time self.new }
    {
        self.outputs.clear_traced();
    }

    /// The least time at which the period of a cluster began; a limit where none is below it.
    pub fn least_start(&self, limit: u64) -> u64
        ensures { IsLeastStart self.now.since.items limit result }
    {
        least_of(&self.since, limit)
    }
}
