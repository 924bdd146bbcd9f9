//! The times and turns of a snapshot, and how many states it has.

ghost use Rattle.std.specs.Prelude.{◌≡◌, ◌↔◌, true};
ghost use Rattle.tdf_sim_resumed.specs.Valid.{HasMembersOf, HasTimesOf};

use tdf_base::TIME_END;
use tdf_bind::Flat;
use tdf_saved::{ClusterState, ColumnState, Snapshot};

/// The most turns of a run.
const MOST_TURNS: u64 = 1_000_000_000_000;

/// Whether the time of a snapshot is one of a run, and no more turns were used than there are. It takes no memory.
pub fn has_times(snapshot: &Snapshot) -> bool
    ensures { (result ≡ true) ↔ HasTimesOf snapshot.now }
{
    snapshot.time < TIME_END
        && snapshot.used <= snapshot.budget
        && 1 <= snapshot.budget
        && snapshot.budget <= MOST_TURNS
}

/// Whether a snapshot has a state for each cluster of a model, and one for each trace. It takes no memory.
pub fn has_members(flat: &Flat, snapshot: &Snapshot) -> bool
    ensures { (result ≡ true) ↔ HasMembersOf flat.now snapshot.now }
{
    let clusters: &[ClusterState] = &snapshot.clusters;
    let columns: &[ColumnState] = &snapshot.columns;
    clusters.len() == flat.cluster_count() as usize && columns.len() == flat.tables.traces.len()
}
