//! A cluster that goes on from a state, inside its period.

ghost use Rattle.std.specs.Prelude.{◌≡◌, ◌⊎◌, ◌≤◌, [], Contains, Err, IfOk, OnOk, Some, length, slice_get, slice_index_or, slice_set};
ghost use Rattle.tdf_cluster_net.specs.Numbers.{Rise};
ghost use Rattle.tdf_cluster_plans.specs.Counted.{AreCounted};
ghost use Rattle.tdf_dynamic_first.specs.Text.{first_table};
ghost use Rattle.tdf_dynamic_plans.specs.Attributes.{clusters_of};
ghost use Rattle.tdf_exec_parts.specs.Below.{IsTableFirst, IsTableOfStates};
ghost use Rattle.tdf_exec.specs.Layout.{HasLayoutOf, KeepsLayouts};
ghost use Rattle.tdf_exec.specs.Made.{IsClusterOf};
ghost use Rattle.tdf_exec.specs.Restored.{IsAtState, StandsAtState};
ghost use Rattle.tdf_exec.specs.Starts.{IsSoundFlat};
ghost use Rattle.tdf_exec.specs.machine.Laid.{AreParts, AreRunnersOf};
ghost use Rattle.tdf_exec.specs.machine.Resuming.{AreRestored, CanRestore, CanTake, FitInstance, HoldsState, IsInstance, module_with_values, with_values};
ghost use Rattle.tdf_exec.specs.declared.runners.Runner.{Runner as RunnerOf};
ghost use Rattle.tdf_exec.specs.views.Actors.{spread_runners};
ghost use Rattle.tdf_exec_parts.specs.Restored.{AreStateRings};
ghost use Rattle.tdf_places.specs.Places.{AreDistinct};
ghost use Rattle.tdf_exec_parts.specs.States.{AreStatesOfRows, HoldEdges, IsStateAt};
ghost use Rattle.tdf_saved.specs.declared.err.StateErr.TheVariants as why;

use crate::beginning::first_runners;
use crate::cluster::Cluster;
use crate::laying::Layout;
use crate::runners::{ModuleRunner, Runner};
use crate::starting::{Parts, law_laid, parts_of};
use crate::tracing::give_all;
use std::alloc::Global;
use tdf_base::Memory;
use tdf_bind::Flat;
use tdf_cluster_net::place_in;
use tdf_dynamic_plans::{Attrs, ModuleAttrs};
use tdf_exec_parts::{Standing, set_values, standing_of, state_rings};
use tdf_expr::Checked;
use tdf_saved::{ClusterState, ModuleState, StateErr};

/// The instance of a module gets these rates and values.
fn restore(checked: &Checked, rates: &[u32], cells: &[i128], runner: &mut ModuleRunner)
    requires is { IsInstance checked.now runner.old }
    requires fit { FitInstance checked.now rates.now cells.now runner.old }
    ensures { runner.new ≡ module_with_values rates.now cells.now runner.old }
{
    let block = runner.rest.block;
    let instance = &mut *runner.instance;
    set_values(checked, block, &mut instance.frame, rates, cells);
}

/// An actor gets the rates of a row and the values of a state, if it is a module.
fn restore_runner(checked: &Checked, row: &ModuleAttrs, state: &ModuleState, runner: &mut Runner)
    requires { CanTake checked.now row.now.rates state.now.cells runner.old }
    ensures { runner.new ≡ with_values row.now.rates state.now.cells runner.old }
{
    match runner {
        Runner::Module(module) => restore(checked, &row.rates, &state.cells, module),
        Runner::Sampler(_) => {}
        Runner::Sink(_) => {}
        Runner::Outside => {}
    }
}

/// The module of a row gets its rates and the values of its state. What is kept for the actors stands in the order of the numbers.
fn restore_row(
    flat: &Flat,
    row: &ModuleAttrs,
    state: &ModuleState,
    numbers: &[u32],
    runners: &mut Vec<Runner>,
)
    requires long { length runners.old.items ≡ length numbers.now }
    requires distinct { AreDistinct (length flat.now.tables.actors) numbers.now }
    requires can { (r : RunnerOf) → slice_get (spread_runners flat.now.tables numbers.now
        runners.old.items) row.now.number ≡ Some r
        → CanTake flat.now.checked row.now.rates state.now.cells r }
    ensures same { length runners.new.items ≡ length runners.old.items }
    ensures taken { (r : RunnerOf) → slice_get (spread_runners flat.now.tables numbers.now
        runners.old.items) row.now.number ≡ Some r
        → spread_runners flat.now.tables numbers.now runners.new.items
        ≡ slice_set (spread_runners flat.now.tables numbers.now runners.old.items)
        row.now.number (with_values row.now.rates state.now.cells r) }
{
    if let Some(place) = place_in(numbers, row.number) {
        restore_runner(&flat.checked, row, state, &mut runners[place]);
    }
}

/// All modules of a table get the rates of their rows and the values of their states.
fn restore_all(
    flat: &Flat,
    table: &[ModuleAttrs],
    modules: &[ModuleState],
    numbers: &[u32],
    runners: &mut Vec<Runner>,
)
    requires long { length runners.old.items ≡ length numbers.now }
    requires distinct { AreDistinct (length flat.now.tables.actors) numbers.now }
    requires can { CanRestore flat.now.checked table.now modules.now
        (spread_runners flat.now.tables numbers.now runners.old.items) }
    ensures same { length runners.new.items ≡ length runners.old.items }
    ensures restored { AreRestored flat.now.checked table.now modules.now (length table.now)
        (spread_runners flat.now.tables numbers.now runners.old.items)
        (spread_runners flat.now.tables numbers.now runners.new.items) }
{
    for i in 0..table.len() {
        restore_row(flat, &table[i], &modules[i], numbers, runners);
    }
}

/// What is kept for the actors of a cluster, in the order of their numbers, by a state of its modules; no body runs.
fn restored_runners(
    alloc: Global,
    flat: &Flat,
    cluster: u32,
    attrs: &Attrs,
    modules: &[ModuleState],
    layout: &mut Layout,
) -> Result<Vec<Runner>, Memory>
    requires sound { IsSoundFlat flat.now }
    requires has { Contains (clusters_of flat.now.tables) cluster }
    requires states { AreStatesOfRows flat.now (first_table flat.now cluster) modules.now }
    requires table { IsTableOfStates flat.now cluster modules.now attrs.now.rows }
    requires layout { HasLayoutOf flat.now cluster layout.old }
    ensures long { IfOk result (λ runners. length runners.items
        ≡ length (slice_index_or layout.old.groups.actors cluster [])) }
    ensures runners { IfOk result (λ runners. AreRunnersOf flat.now
        (HoldsState attrs.now.rows modules.now) cluster attrs.now.rows
        (spread_runners flat.now.tables (slice_index_or layout.old.groups.actors cluster [])
        runners.items)) }
    ensures groups { layout.new.groups ≡ layout.old.groups }
    ensures others { OnOk result (KeepsLayouts flat.now cluster layout.old layout.new) }
{
    law_laid();
    let groups = &layout.groups;
    let mut runners = first_runners(alloc, flat, groups, cluster, &mut layout.wires, false)?;
    let numbers = layout.groups.actors(cluster);
    restore_all(flat, &attrs.rows, modules, numbers, &mut runners);
    give_all(
        alloc,
        &flat.tables,
        attrs,
        numbers,
        &mut layout.traced,
        &mut runners,
    );
    Ok(runners)
}

/// The parts of a cluster by a state, under the table that it says and its plan.
fn state_parts(
    alloc: Global,
    flat: &Flat,
    cluster: u32,
    standing: &Standing,
    state: &ClusterState,
    layout: &mut Layout,
) -> Result<Parts, Memory>
    requires sound { IsSoundFlat flat.now }
    requires plan { IsTableFirst flat.now cluster standing.now.first.attrs.rows
        standing.now.first }
    requires states { AreStatesOfRows flat.now (first_table flat.now cluster) state.now.modules }
    requires table { IsTableOfStates flat.now cluster state.now.modules
        standing.now.first.attrs.rows }
    requires place { standing.now.place ≤ length standing.now.first.plan.entries.items }
    requires edges { HoldEdges flat.now.tables cluster standing.now.first.attrs.rows
        standing.now.first.plan.entries.items standing.now.place state.now.edges }
    requires layout { HasLayoutOf flat.now cluster layout.old }
    ensures parts { IfOk result (λ p. AreParts flat.now cluster standing.now.first
        (HoldsState standing.now.first.attrs.rows state.now.modules)
        (AreStateRings flat.now.tables cluster standing.now.first.plan.bounds.items
        state.now.edges (length flat.now.tables.edges))
        p.edges.reads p.edges.writes p.edges.rings p.actors.runners p.actors.positions) }
    ensures rising { IfOk result (λ p. Rise p.counted.items) }
    ensures counted { IfOk result (λ p.
        AreCounted p.counted.items standing.now.first.plan.entries.items p.firings.items) }
    ensures room { IfOk result (λ p. length standing.now.first.attrs.rows ≤ p.spare) }
    ensures others { OnOk result (KeepsLayouts flat.now cluster layout.old layout.new) }
{
    law_laid();
    let first = &standing.first;
    let numbers = layout.groups.edges(cluster);
    let rings = state_rings(
        alloc,
        &flat.tables,
        numbers,
        &first.plan.bounds,
        &state.edges,
    )?;
    let states = &state.modules;
    let runners = restored_runners(alloc, flat, cluster, &first.attrs, states, layout)?;
    parts_of(alloc, flat, cluster, first, layout, rings, runners)
}

impl Cluster {
    /// A cluster inside the period that a state says, at a time: the entries of its plan before that time are done, and
    /// its edges and modules hold what the state says. No body runs. Of `layout` it takes what is its own; things of other clusters are not
    /// looked at.
    ///
    /// # Errors
    /// `Bad` exactly where the cluster can't go on from this state at this time, or out of memory.
    pub fn from_state(
        alloc: Global,
        flat: &Flat,
        cluster: u32,
        state: &ClusterState,
        time: u64,
        layout: &mut Layout,
    ) -> Result<Cluster, StateErr>
        requires sound { IsSoundFlat flat.now }
        requires has { Contains (clusters_of flat.now.tables) cluster }
        requires layout { HasLayoutOf flat.now cluster layout.old }
        ensures of { IfOk result (λ c. IsClusterOf flat.now c) }
        ensures at { IfOk result (λ c. IsAtState flat.now cluster state.now time c) }
        ensures stands { IfOk result (λ c. StandsAtState flat.now state.now c) }
        ensures bad { result ≡ Err why.Bad → IsStateAt flat.now cluster state.now time → ⊥ }
        ensures bad_always { (IsStateAt flat.now cluster state.now time → ⊥)
            → (result ≡ Err why.Bad) ⊎ (result ≡ Err why.Memory) }
        ensures others { OnOk result (KeepsLayouts flat.now cluster layout.old layout.new) }
    {
        law_laid();
        let standing = standing_of(alloc, flat, &layout.groups, cluster, state, time)?;
        match state_parts(alloc, flat, cluster, &standing, state, layout) {
            Ok(parts) => Ok(Cluster {
                number: cluster,
                attrs: standing.first.attrs,
                plan: standing.first.plan,
                place: standing.place,
                crossed: false,
                counted: parts.counted,
                firings: parts.firings,
                edges: parts.edges,
                actors: parts.actors,
                spare: parts.spare,
            }),
            Err(failed) => {
                drop(standing);
                Err(StateErr::from(failed))
            }
        }
    }
}
