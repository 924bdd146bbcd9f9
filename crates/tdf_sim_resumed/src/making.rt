//! The clusters that go on from the states of a snapshot.

ghost use Rattle.std.specs.Prelude.{◌≡◌, ◌⊎◌, ◌<◌, ◌+◌, ◌++◌, ◌∷◌, ℕ, [], Err, IfOk, OnOk, length, map};
ghost use Rattle.tdf_bind_tables.specs.Actors.{cluster_of};
ghost use Rattle.tdf_sim_refinement.specs.Below.{HasLayoutOf, IsSoundFlat, IsStateAt, KeepsLayouts};
ghost use Rattle.tdf_graph.specs.Clusters.{greatest};
ghost use Rattle.tdf_saved.specs.declared.err.StateErr.TheVariants as why;
ghost use Rattle.tdf_sim_resumed.specs.Made.{AllGoOnFromStates, AreStatesAt, GoesOnFromState};

use std::alloc::Global;
use tdf_base::{Memory, cluster_number};
use tdf_bind::Flat;
use tdf_bind_invariants::law_limits;
use tdf_dynamic_first::law_numbers;
use tdf_saved::{ClusterState, StateErr};
use tdf_sim_refinement::{Cluster, Layout};

/// The cluster at a place, inside the period that a state says; it takes what is laid out for it.
fn restored_cluster(
    alloc: Global,
    flat: &Flat,
    place: usize,
    state: &ClusterState,
    time: u64,
    layout: &mut Layout,
) -> Result<Cluster, StateErr>
    requires sound { IsSoundFlat flat.now }
    requires layout { HasLayoutOf flat.now (place + 1) layout.old }
    requires there { place < greatest (map cluster_of flat.now.tables.actors) }
    ensures made { IfOk result (λ c. GoesOnFromState flat.now (place + 1) state.now time c) }
    ensures bad { result ≡ Err why.Bad → IsStateAt flat.now (place + 1) state.now time → ⊥ }
    ensures others { OnOk result (KeepsLayouts flat.now (place + 1) layout.old layout.new) }
{
    law_limits();
    law_numbers();
    match cluster_number(place) {
        Ok(number) => Cluster::from_state(alloc, flat, number, state, time, layout),
        Err(failed) => Err(StateErr::from(failed)),
    }
}

/// One cluster more.
fn put(clusters: &mut Vec<Cluster>, cluster: Cluster) -> Result<(), Memory>
    ensures { OnOk result (clusters.new.items ≡ clusters.old.items ++ cluster ∷ []) }
{
    clusters.push(cluster)?;
    Ok(())
}

/// The clusters that go on from these states; each takes what is laid out for it.
fn clusters_with(
    alloc: Global,
    flat: &Flat,
    states: &[ClusterState],
    time: u64,
    layout: &mut Layout,
) -> Result<Vec<Cluster>, StateErr>
    requires sound { IsSoundFlat flat.now }
    requires all { length states.now ≡ greatest (map cluster_of flat.now.tables.actors) }
    requires layout { (cluster : ℕ) → HasLayoutOf flat.now cluster layout.old }
    ensures made { IfOk result (λ clusters.
        AllGoOnFromStates flat.now states.now time clusters.items) }
    ensures bad { result ≡ Err why.Bad → AreStatesAt flat.now states.now time → ⊥ }
{
    let mut clusters = Vec::new(alloc);
    for n in 0..states.len() {
        match restored_cluster(alloc, flat, n, &states[n], time, layout) {
            Ok(cluster) => put(&mut clusters, cluster)?,
            Err(failed) => return Err(failed),
        }
    }
    Ok(clusters)
}

/// The clusters that go on from these states at a time, in order of number, each inside its period; no body runs. What their actors
/// need is laid out once.
///
/// # Errors
/// `Bad` exactly where not each of the clusters can go on from its state, or out of memory.
pub fn restored_clusters(
    alloc: Global,
    flat: &Flat,
    states: &[ClusterState],
    time: u64,
) -> Result<Vec<Cluster>, StateErr>
    requires sound { IsSoundFlat flat.now }
    requires all { length states.now ≡ greatest (map cluster_of flat.now.tables.actors) }
    ensures made { IfOk result (λ clusters.
        AllGoOnFromStates flat.now states.now time clusters.items) }
    ensures bad { result ≡ Err why.Bad → AreStatesAt flat.now states.now time → ⊥ }
    ensures bad_always { (AreStatesAt flat.now states.now time → ⊥)
        → (result ≡ Err why.Bad) ⊎ (result ≡ Err why.Memory) }
{
    let mut layout = Layout::new(alloc, flat)?;
    clusters_with(alloc, flat, states, time, &mut layout)
}
