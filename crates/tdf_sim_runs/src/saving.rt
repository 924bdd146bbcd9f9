//! The snapshot of a run that waits.

ghost use Rattle.std.specs.Prelude.{◌≡◌, ◌<◌, ◌≤◌, ◌+◌, false, length, slice_get, IfOk, ℕ, Some};
ghost use Rattle.tdf_bind_invariants.specs.Limits.{AreWithinLimits};
ghost use Rattle.tdf_sim_instants.specs.Below.{ClusterOf, cluster_state};
ghost use Rattle.tdf_sim_instants.specs.Engine.{IsEngineOf};
ghost use Rattle.tdf_sim_runs.specs.Saving.{AreNotCrossed, IsSnapshotOf, is_vcd};
ghost use Rattle.tdf_sim_shown.specs.Below.{AreToldStates};
ghost use Rattle.tdf_sim_runs.specs.Running.{CanGoOn};

use crate::running::Running;
use std::alloc::Global;
use tdf_base::Memory;
use tdf_bind::Flat;
use tdf_saved::{ClusterState, Snapshot};
use tdf_sim_instants::Cluster;
use tdf_sim_shown::{law_saved, shown_columns};
use tdf_trace_rows::TraceKind;

/// Whether a trace is a value change dump.
fn is_vcd(kind: TraceKind) -> bool
    ensures { result ≡ is_vcd kind }
{
    match kind {
        TraceKind::Table => false,
        TraceKind::Vcd => true,
    }
}

/// The states of clusters, each with the start of its period.
///
/// # Errors
/// Out of memory.
fn cluster_states(
    alloc: Global,
    clusters: &Vec<Cluster>,
    since: &Vec<u64>,
) -> Result<Vec<ClusterState>, Memory>
    requires long { length since.now.items ≡ length clusters.now.items }
    requires going { AreNotCrossed clusters.now.items }
    ensures { IfOk result (λ states. AreToldStates since.now.items clusters.now.items states.items) }
{
    let mut states = Vec::new(alloc);
    for place in 0..clusters.len() {
        let state = clusters[place].state(alloc, since[place])?;
        states.push(state)?;
    }
    Ok(states)
}

/// The snapshot of a run of so many turns that waits at its time, with rows written up to where they are still to be written. A trace
/// of this kind goes on from it.
///
/// # Errors
/// Out of memory.
pub(crate) fn snapshot_of(
    alloc: Global,
    flat: &Flat,
    run: &Running,
    kind: TraceKind,
    turns: u64,
) -> Result<Snapshot, Memory>
    requires can { CanGoOn flat.now run.now }
    ensures { IfOk result (IsSnapshotOf flat.now run.now turns (is_vcd kind)) }
{
    law_saved();
    let clusters = cluster_states(alloc, &run.engine.clusters, &run.engine.since)?;
    let kernel = run.engine.kernel.state(alloc)?;
    let columns = shown_columns(alloc, flat, &run.shown)?;
    Ok(Snapshot {
        vcd: is_vcd(kind),
        time: run.from,
        used: turns.saturating_sub(run.left),
        budget: turns,
        clusters,
        kernel,
        columns,
    })
}
