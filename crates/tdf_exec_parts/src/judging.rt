//! Whether a cluster can go on from a state, and under which table and plan.

ghost use Rattle.std.specs.Prelude.{◌≡◌, ◌⊎◌, ◌≤◌, ◌↔◌, Contains, Err, IfOk, List, length, map, true};
ghost use Rattle.tdf_exec_layout.specs.Below.{AreWithinLimits};
ghost use Rattle.tdf_cluster_net.specs.Numbers.{AllBelow};
ghost use Rattle.tdf_cluster_plans.specs.Counted.{AreCounted};
ghost use Rattle.tdf_cluster_plans.specs.Groups.{AreTableGroups};
ghost use Rattle.tdf_dynamic_first.specs.Text.{first_table};
ghost use Rattle.tdf_dynamic_plans.specs.Attributes.{AttrsOf, clusters_of};
ghost use Rattle.tdf_dynamic_plans.specs.Faults.{IsTablePlan};
ghost use Rattle.tdf_dynamic_plans.specs.Known.{AreTrueFor};
ghost use Rattle.tdf_dynamic_plans.specs.Rates.{AreRates};
ghost use Rattle.tdf_dynamic_values.specs.Planned.{IsTableFirst};
ghost use Rattle.tdf_dynamic_values.specs.States.{IsTableOfStates};
ghost use Rattle.tdf_exec_parts.specs.States.{AreStatesOfRows, HoldEdges, IsInPeriod, IsStateAt, IsStateUnder, due_before};
ghost use Rattle.tdf_exec_parts.specs.machine.Traffic.{AreLeft, IsLeftOn};
ghost use Rattle.tdf_saved.specs.declared.err.StateErr.TheVariants as why;
ghost use Rattle.tdf_schedule.specs.declared.entry.Plan.{Plan as PlanOf};

use crate::fitting::{are_states_of, due_before, is_in_period};
use crate::holding::{are_in_format, is_left, port_format};
use std::alloc::Global;
use tdf_balance::law_counts;
use tdf_base::Memory;
use tdf_bind::Flat;
use tdf_bind_connections::EdgeRow;
use tdf_bind_tables::FlatTables;
use tdf_cluster_plans::{TableGroups, firings, firings_of, set_own_rates};
use tdf_dynamic_first::{First, first_table};
use tdf_dynamic_plans::{ChangeErr, ones};
use tdf_dynamic_values::{law_one_table, plan_of_states};
use tdf_saved::{ClusterState, ModuleState, StateErr};
use tdf_schedule::{Entry, law_plans};

/// The entries of a plan that are done, and how often the actors with some numbers fired in them.
#[derive(Clone, Copy)]
struct Fired<'a> {
    entries: &'a [Entry],
    numbers: &'a [u32],
    counts: &'a [u64],
}

/// Whether an edge with these rates has what is left of its samples.
fn is_left_on(
    tables: &FlatTables,
    fired: &Fired,
    edge: EdgeRow,
    read_rate: u32,
    write_rate: u32,
    nums: &[i128],
) -> bool
    requires counted { AreCounted fired.now.numbers.now fired.now.entries.now fired.now.counts.now }
    ensures { (result ≡ true) ↔ IsLeftOn tables.now fired.now.entries.now edge read_rate
        write_rate nums.now }
{
    let read = firings_of(fired.numbers, fired.counts, fired.entries, edge.reader);
    let written = firings_of(fired.numbers, fired.counts, fired.entries, edge.writer);
    if !is_left(
        nums.len(),
        edge.initial,
        read,
        read_rate,
        written,
        write_rate,
    ) {
        return false;
    }
    are_in_format(port_format(tables, edge.port), nums)
}

/// Whether each of the edges with these numbers has what is left of its samples; rates and samples stand in the order of the numbers.
fn are_left(
    tables: &FlatTables,
    fired: &Fired,
    numbers: &[u32],
    reads: &[u32],
    writes: &[u32],
    edges: &[Vec<i128>],
) -> bool
    requires counted { AreCounted fired.now.numbers.now fired.now.entries.now fired.now.counts.now }
    requires inside { AllBelow (length tables.now.edges) numbers.now }
    requires reads { length reads.now ≡ length numbers.now }
    requires writes { length writes.now ≡ length numbers.now }
    ensures { (result ≡ true) ↔ AreLeft tables.now fired.now.entries.now reads.now writes.now
        numbers.now (map (λ nums. nums.items) edges.now) }
{
    if edges.len() != numbers.len() {
        return false;
    }
    for i in 0..numbers.len() {
        let edge = tables.edges[numbers[i] as usize];
        if !is_left_on(tables, fired, edge, reads[i], writes[i], &edges[i]) {
            return false;
        }
    }
    true
}

/// Whether each edge of the cluster holds what was written and not read up to a place of the plan. No other edge is looked at.
fn hold_edges(
    alloc: Global,
    flat: &Flat,
    groups: &TableGroups,
    cluster: u32,
    first: &First,
    place: usize,
    edges: &[Vec<i128>],
) -> Result<bool, Memory>
    requires limits { AreWithinLimits flat.now }
    requires groups { AreTableGroups flat.now.tables groups.now }
    requires has { Contains (clusters_of flat.now.tables) cluster }
    requires rates { AreRates flat.now.tables first.now.attrs.rows }
    requires place { place ≤ length first.now.plan.entries.items }
    ensures { IfOk result (λ yes. (yes ≡ true) ↔ HoldEdges flat.now.tables cluster
        first.now.attrs.rows first.now.plan.entries.items place
        (map (λ nums. nums.items) edges.now)) }
{
    let entries = &first.plan.entries[..place];
    let counts = firings(alloc, groups.actors(cluster), entries)?;
    let fired = Fired {
        entries,
        numbers: groups.actors(cluster),
        counts: &counts,
    };
    let numbers = groups.edges(cluster);
    let mut reads = ones(alloc, numbers.len())?;
    let mut writes = ones(alloc, numbers.len())?;
    set_own_rates(
        &flat.tables,
        &first.attrs.rows,
        numbers,
        &mut reads,
        &mut writes,
    );
    Ok(are_left(&flat.tables, &fired, numbers, &reads, &writes, edges))
}

/// The table that the modules of a state say, with the plan under it.
///
/// # Errors
/// `Bad` exactly where they are no states of the modules of the cluster, or there is no such plan; or out of memory.
fn planned(
    alloc: Global,
    flat: &Flat,
    groups: &TableGroups,
    cluster: u32,
    modules: &[ModuleState],
) -> Result<First, StateErr>
    requires limits { AreWithinLimits flat.now }
    requires groups { AreTableGroups flat.now.tables groups.now }
    requires has { Contains (clusters_of flat.now.tables) cluster }
    ensures states { IfOk result (λ first.
        AreStatesOfRows flat.now (first_table flat.now cluster) modules.now) }
    ensures table { IfOk result (λ first.
        IsTableOfStates flat.now cluster modules.now first.attrs.rows) }
    ensures first { IfOk result (λ first. IsTableFirst flat.now cluster first.attrs.rows first) }
    ensures bad { result ≡ Err why.Bad
        → AreStatesOfRows flat.now (first_table flat.now cluster) modules.now
        → (table : List AttrsOf) (plan : PlanOf) → IsTableOfStates flat.now cluster modules.now table
        → IsTablePlan flat.now.tables cluster table plan → ⊥ }
{
    let text = first_table(alloc, flat, groups, cluster)?;
    let fit = are_states_of(flat, &text.rows, modules);
    drop(text);
    if !fit {
        return Err(StateErr::Bad);
    }
    match plan_of_states(alloc, flat, groups, cluster, modules) {
        Ok(first) => Ok(first),
        Err(ChangeErr::Refused(fault)) => {
            drop(fault);
            Err(StateErr::Bad)
        }
        Err(ChangeErr::Memory) => Err(StateErr::Memory),
    }
}

/// The table and the plan that a state says, and the place in it.
#[derive(Drop)]
pub struct Standing {
    /// The table and its plan.
    pub first: First,
    /// How many entries of the plan are done.
    pub place: usize,
}

/// Whether the time and the edges of a state are such under a table and its plan; if so, they come with the place.
fn stood(
    alloc: Global,
    flat: &Flat,
    groups: &TableGroups,
    cluster: u32,
    first: First,
    state: &ClusterState,
    time: u64,
) -> Result<Standing, StateErr>
    requires limits { AreWithinLimits flat.now }
    requires groups { AreTableGroups flat.now.tables groups.now }
    requires has { Contains (clusters_of flat.now.tables) cluster }
    requires rates { AreRates flat.now.tables first.attrs.rows }
    ensures first { IfOk result (λ s. s.first ≡ first) }
    ensures place { IfOk result (λ s.
        s.place ≡ due_before state.now.start time first.plan.entries.items) }
    ensures inside { IfOk result (λ s. IsInPeriod state.now.start time first.plan.period) }
    ensures edges { IfOk result (λ s. HoldEdges flat.now.tables cluster first.attrs.rows
        first.plan.entries.items (due_before state.now.start time first.plan.entries.items)
        state.now.edges) }
    ensures bad { result ≡ Err why.Bad → IsInPeriod state.now.start time first.plan.period
        → HoldEdges flat.now.tables cluster first.attrs.rows first.plan.entries.items
        (due_before state.now.start time first.plan.entries.items) state.now.edges → ⊥ }
{
    let place = due_before(&first.plan.entries, state.start, time);
    if !is_in_period(state.start, time, first.plan.period) {
        drop(first);
        return Err(StateErr::Bad);
    }
    match hold_edges(alloc, flat, groups, cluster, &first, place, &state.edges) {
        Ok(true) => Ok(Standing { first, place }),
        Ok(false) => {
            drop(first);
            Err(StateErr::Bad)
        }
        Err(failed) => {
            drop(first);
            Err(StateErr::from(failed))
        }
    }
}

/// The table and the plan that a state of a cluster says, and the place in it at a time. The things of the model by cluster are given, and
/// those of other clusters are not looked at.
///
/// # Errors
/// `Bad` exactly where the cluster can't go on from this state at this time, or out of memory.
pub fn standing_of(
    alloc: Global,
    flat: &Flat,
    groups: &TableGroups,
    cluster: u32,
    state: &ClusterState,
    time: u64,
) -> Result<Standing, StateErr>
    requires limits { AreWithinLimits flat.now }
    requires groups { AreTableGroups flat.now.tables groups.now }
    requires has { Contains (clusters_of flat.now.tables) cluster }
    ensures state { IfOk result (λ s. IsStateUnder flat.now cluster state.now time
        s.first.attrs.rows s.first.plan) }
    ensures place { IfOk result (λ s.
        s.place ≡ due_before state.now.start time s.first.plan.entries.items) }
    ensures known { IfOk result (λ s.
        AreTrueFor flat.now.tables cluster s.first.attrs.known.plans) }
    ensures bad { result ≡ Err why.Bad → IsStateAt flat.now cluster state.now time → ⊥ }
    ensures bad_always { (IsStateAt flat.now cluster state.now time → ⊥)
        → (result ≡ Err why.Bad) ⊎ (result ≡ Err why.Memory) }
{
    law_counts();
    law_plans();
    law_one_table();
    match planned(alloc, flat, groups, cluster, &state.modules) {
        Ok(first) => stood(alloc, flat, groups, cluster, first, state, time),
        Err(why) => Err(why),
    }
}
