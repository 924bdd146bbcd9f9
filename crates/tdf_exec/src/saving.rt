//! What a cluster in progress holds, for a snapshot.

ghost use Rattle.std.specs.Prelude.{◌≡◌, [], false, IfOk, length, map, slice_index_or};
ghost use Rattle.tdf_exec.specs.Played.{runner_cells};
ghost use Rattle.tdf_rings.specs.Carried.{ring_at};
ghost use Rattle.tdf_exec.specs.Saved.{cluster_state, edge_states, edges_with_room, module_state, nums_of};

use crate::actors::Actors;
use crate::cluster::Cluster;
use crate::runners::Runner;
use std::alloc::Global;
use tdf_base::Memory;
use tdf_dynamic_plans::ModuleAttrs;
use tdf_exec_firing::Edges;
use tdf_places::Sparse;
use tdf_rings::Ring;
use tdf_saved::{ClusterState, ModuleState};

/// The values of the variables of the module of this number; other actors keep none.
fn cells_at(alloc: Global, actors: &Actors, actor: u32) -> Result<Vec<i128>, Memory>
    ensures { IfOk result (λ cells. cells.items ≡ slice_index_or (map runner_cells actors.now.runners) actor []) }
{
    match actors.runner(actor) {
        Some(Runner::Module(module)) => Ok(Vec::from_slice(alloc, module.instance.frame.nums())?),
        Some(Runner::Sampler(_)) => Ok(Vec::new(alloc)),
        Some(Runner::Sink(_)) => Ok(Vec::new(alloc)),
        Some(Runner::Outside) => Ok(Vec::new(alloc)),
        None => Ok(Vec::new(alloc)),
    }
}

/// A module with its attributes and the values of its variables.
fn module_state(alloc: Global, row: &ModuleAttrs, actors: &Actors) -> Result<ModuleState, Memory>
    ensures { IfOk result (λ state. state ≡ module_state (map runner_cells actors.now.runners) row.now) }
{
    let rates = Vec::from_slice(alloc, &row.rates)?;
    let steps = Vec::from_slice(alloc, &row.steps)?;
    let cells = cells_at(alloc, actors, row.number)?;
    Ok(ModuleState {
        accept: row.accepts,
        rates,
        steps,
        cells,
    })
}

/// The modules of a table.
fn module_states(
    alloc: Global,
    table: &[ModuleAttrs],
    actors: &Actors,
) -> Result<Vec<ModuleState>, Memory>
    ensures { IfOk result (λ states. states.items ≡ map (module_state (map runner_cells actors.now.runners)) table.now) }
{
    let mut states = Vec::new(alloc);
    for i in 0..table.len() {
        states.push(module_state(alloc, &table[i], actors)?)?;
    }
    Ok(states)
}

/// The samples of an edge from the front.
fn nums_of(alloc: Global, ring: &Ring) -> Result<Vec<i128>, Memory>
    ensures { IfOk result (λ nums. nums.items ≡ nums_of ring.now.samples) }
{
    let mut nums = Vec::new(alloc);
    for i in 0..ring.len() {
        nums.push(ring.read(i).num)?;
    }
    Ok(nums)
}

/// The samples of the edge with this number; one of another cluster has none.
fn nums_at(alloc: Global, own: &Edges, number: u32) -> Result<Vec<i128>, Memory>
    ensures { IfOk result (λ nums. nums.items ≡ nums_of (ring_at own.now.rings number).samples) }
{
    own.places.law_apart();
    match own.places.place(number) {
        Some(place) => {
            let nums = nums_of(alloc, &own.rings[place])?;
            Ok(nums)
        }
        None => Ok(Vec::new(alloc)),
    }
}

/// The samples of the edges that have room by their bounds. No other edge is looked at.
fn edge_states(alloc: Global, bounds: &Sparse, own: &Edges) -> Result<Vec<Vec<i128>>, Memory>
    ensures { IfOk result (λ edges. map (λ e. e.items) edges.items
        ≡ edge_states (map (λ ring. ring.samples) own.now.rings) (edges_with_room bounds.now.items (length own.now.rings))) }
{
    let numbers = bounds.places_below(alloc, own.places.count())?;
    let mut edges = Vec::with_capacity(alloc, numbers.len())?;
    for i in 0..numbers.len() {
        edges.push(nums_at(alloc, own, numbers[i])?)?;
    }
    Ok(edges)
}

impl Cluster {
    /// What the cluster holds, where its period began at `start`: the attributes and the values of its modules, and the
    /// samples of its edges.
    ///
    /// # Errors
    /// Out of memory.
    pub fn state(&self, alloc: Global, start: u64) -> Result<ClusterState, Memory>
        requires not_crossed { self.now.crossed ≡ false }
        ensures state { IfOk result (λ state. state ≡ cluster_state self.now start) }
    {
        let modules = module_states(alloc, &self.attrs.rows, &self.actors)?;
        let edges = edge_states(alloc, &self.plan.bounds, &self.edges)?;
        Ok(ClusterState {
            start,
            modules,
            edges,
        })
    }
}
