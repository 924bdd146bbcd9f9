//! The plan of one cluster.

ghost use Rattle.std.specs.Prelude.{◌≡◌, ◌<◌, ◌≤◌, ◌*◌, ◌^◌, ◌↔◌, ◌⊎◌, nat_eq, if◌then◌else◌, ℕ, List, All, Contains, Some, Ok, Err, length, vec_len, sum, slice_index, IfOk, IsOk};
ghost use Rattle.tdf_base.specs.Limits.{most_firings, most_samples, time_end};
ghost use Rattle.tdf_graph.specs.Counts.{IsBalanced};
ghost use Rattle.tdf_graph.specs.Ranges.{IsEdge};
ghost use Rattle.tdf_graph.specs.declared.actors.Edge.{Edge};
ghost use Rattle.tdf_schedule.specs.Plan.{pace_of, period_samples, IsCausal, IsDeadlock, IsNoncausal, HasPlan, IsPaced};
ghost use Rattle.tdf_schedule.specs.declared.err.PlanErr.TheVariants.{TooLarge, Deadlock, Noncausal, Memory};
ghost use Rattle.tdf_schedule.specs.views.Answers.{AreNarrowUpTo, IsAnswer};
ghost use Rattle.tdf_schedule.specs.views.Bounds.{AreBoundsUpTo};
ghost use Rattle.tdf_schedule.specs.views.Faults.{IsFull};
ghost use Rattle.tdf_schedule.specs.views.Work.{AreInputsUpTo, AreOutputsUpTo, AreRows, IsSettled};

use crate::bounds::most_held;
use crate::entry::Plan;
use crate::err::PlanErr;
use crate::faults::{first_late, first_short, paces_of, samples};
use crate::key::Row;
use crate::links::{Ends, ends_of};
use crate::sorted::entries_of;
use crate::work::{Given, fill};
use std::alloc::Global;
use tdf_base::MOST_SAMPLES;
use tdf_graph::{Edge, Net};
use tdf_places::Sparse;
use tdf_timestep::Steps;

/// The bound of an edge, 0 for one of another cluster.
fn own_bound(edge: &Edge, counts: &[u64], bound: u64) -> u64
    requires { IsEdge (length counts.now) edge.now }
    ensures { result ≡ (if nat_eq (slice_index counts.now edge.now.writer) 0 then 0 else bound) }
{
    if counts[edge.writer as usize] == 0 {
        return 0;
    }
    bound
}

/// The bounds of the cluster's edges, 0 for all others.
fn narrow(
    alloc: Global,
    edges: &[Edge],
    counts: &[u64],
    bounds: &[u64],
) -> Result<Sparse, tdf_base::Memory>
    requires fit { All (IsEdge (length counts.now)) edges.now }
    requires long { length bounds.now ≡ length edges.now }
    ensures { IfOk result (λ v. AreNarrowUpTo (length edges.now) edges.now counts.now bounds.now v.items) }
{
    let mut list = Sparse::with_capacity(alloc, edges.len())?;
    for k in 0..edges.len() {
        list.push(own_bound(&edges[k], counts, bounds[k]))?;
    }
    Ok(list)
}

/// The keys of all firings that are grounded.
fn keys_of(
    alloc: Global,
    net: &Net,
    counts: &[u64],
    paces: &[u64],
    ends: &Ends,
) -> Result<Vec<Row>, tdf_base::Memory>
    requires long { length counts.now ≡ vec_len net.now.actors }
    requires into { AreInputsUpTo (length net.now.edges.items) counts.now net.now.edges.items ends.now.inputs }
    requires out { AreOutputsUpTo (length net.now.edges.items) counts.now net.now.edges.items ends.now.outputs }
    requires few { sum counts.now ≤ most_firings }
    requires paces { length paces.now ≡ length counts.now }
    requires short { (m : ℕ) → slice_index counts.now m * slice_index paces.now m < 2 ^ 63 }
    ensures rows { IfOk result (λ table. AreRows net.now.edges.items (slice_index paces.now) counts.now table.items) }
    ensures settled { IfOk result (λ table. (m : ℕ) → m < length counts.now → IsSettled net.now.edges.items counts.now table.items m) }
{
    let given = Given {
        edges: net.edges(),
        counts,
        paces,
        inputs: &ends.inputs,
        outputs: &ends.outputs,
    };
    fill(alloc, &given)
}

/// The plan of a table in which all firings have their keys.
fn laid(
    alloc: Global,
    net: &Net,
    counts: &[u64],
    paces: &[u64],
    period: u64,
    ends: &Ends,
    table: &Vec<Row>,
) -> Result<Plan, tdf_base::Memory>
    requires long { length counts.now ≡ vec_len net.now.actors }
    requires into { AreInputsUpTo (length net.now.edges.items) counts.now net.now.edges.items ends.now.inputs }
    requires out { AreOutputsUpTo (length net.now.edges.items) counts.now net.now.edges.items ends.now.outputs }
    requires few { sum counts.now ≤ most_firings }
    requires rows { AreRows net.now.edges.items (slice_index paces.now) counts.now table.now.items }
    requires full { (m : ℕ) → m < length counts.now → IsFull counts.now table.now.items m }
    ensures { IfOk result (HasPlan net.now.edges.items (slice_index paces.now) counts.now period) }
{
    let entries = entries_of(alloc, table)?;
    let most = most_held(
        alloc,
        counts.len() as u32,
        net.edges(),
        &ends.inputs,
        &ends.outputs,
        &entries,
    )?;
    let bounds = narrow(alloc, net.edges(), counts, &most)?;
    drop(most);
    Ok(Plan {
        entries,
        bounds,
        period,
    })
}

/// The plan of a table of keys, or the fault that it shows.
fn decide(
    alloc: Global,
    net: &Net,
    counts: &[u64],
    paces: &[u64],
    period: u64,
    ends: &Ends,
    table: &Vec<Row>,
) -> Result<Plan, PlanErr>
    requires long { length counts.now ≡ vec_len net.now.actors }
    requires into { AreInputsUpTo (length net.now.edges.items) counts.now net.now.edges.items ends.now.inputs }
    requires out { AreOutputsUpTo (length net.now.edges.items) counts.now net.now.edges.items ends.now.outputs }
    requires balanced { (e : Edge) → Contains net.now.edges.items e → IsBalanced (slice_index counts.now) e }
    requires few { sum counts.now ≤ most_firings }
    requires paces { length paces.now ≡ length counts.now }
    requires short { (m : ℕ) → slice_index counts.now m * slice_index paces.now m < 2 ^ 63 }
    requires rows { AreRows net.now.edges.items (slice_index paces.now) counts.now table.now.items }
    requires settled { (m : ℕ) → m < length counts.now → IsSettled net.now.edges.items counts.now table.now.items m }
    ensures { IsAnswer net.now.actors.items net.now.edges.items (slice_index paces.now) counts.now period result }
{
    match first_short(counts, table) {
        Some(actor) => return Err(PlanErr::Deadlock { actor }),
        None => {}
    }
    match first_late(net.actors(), paces, table) {
        Some((sink, index)) => return Err(PlanErr::Noncausal { sink, index }),
        None => {}
    }
    match laid(alloc, net, counts, paces, period, ends, table) {
        Ok(plan) => Ok(plan),
        Err(_) => Err(PlanErr::Memory),
    }
}

/// The plan, or the fault, of a cluster whose buffers are small enough.
fn answer(alloc: Global, net: &Net, counts: &[u64], steps: &Steps) -> Result<Plan, PlanErr>
    requires long { length counts.now ≡ vec_len net.now.actors }
    requires paced { IsPaced net.now.edges.items counts.now steps.now.actor_steps.items }
    ensures { IsAnswer net.now.actors.items net.now.edges.items (pace_of net.now.actors.items steps.now.actor_steps.items) counts.now steps.now.period result }
{
    let paces = paces_of(alloc, net.actors(), &steps.actor_steps)?;
    let ends = ends_of(alloc, counts, net.edges())?;
    let table = keys_of(alloc, net, counts, &paces, &ends)?;
    let result = decide(alloc, net, counts, &paces, steps.period, &ends, &table);
    drop(table);
    drop(ends);
    drop(paces);
    result
}

/// The plan of a cluster: its firings of one period by offset, level, actor and index, and for each edge the most samples that
/// it holds along them. The counts are those of the cluster, 0 for all other actors.
///
/// # Errors
/// `TooLarge` where the initial samples of the cluster's edges and the samples of its ports in one period are more than
/// 1,048,576 together. Else `Deadlock` where a firing isn't grounded, with the first such actor. Else `Noncausal` where a
/// firing of a sink comes after it is due, with the first such sink and its first such firing. Or out of memory.
pub fn plan(alloc: Global, net: &Net, counts: &[u64], steps: &Steps) -> Result<Plan, PlanErr>
    requires long { length counts.now ≡ vec_len net.now.actors }
    requires paced { IsPaced net.now.edges.items counts.now steps.now.actor_steps.items }

    ensures plan { IfOk result (HasPlan net.now.edges.items
        (pace_of net.now.actors.items steps.now.actor_steps.items) counts.now steps.now.period) }
    ensures too_large { (result ≡ Err TooLarge)
        ↔ (most_samples < period_samples net.now.edges.items net.now.ports.items counts.now) }
    ensures deadlock { (m : ℕ) → result ≡ Err (Deadlock m) → IsDeadlock net.now.edges.items
        (pace_of net.now.actors.items steps.now.actor_steps.items) counts.now m }
    ensures noncausal { (m a : ℕ) → result ≡ Err (Noncausal m a)
        → IsNoncausal net.now.edges.items net.now.actors.items
        (pace_of net.now.actors.items steps.now.actor_steps.items) counts.now m a }

    // Where the buffers are small enough, each answer comes where its cause is there, or `Memory`.
    ensures deadlock_always { period_samples net.now.edges.items net.now.ports.items counts.now
        ≤ most_samples → (m : ℕ) → IsDeadlock net.now.edges.items
        (pace_of net.now.actors.items steps.now.actor_steps.items) counts.now m
        → (result ≡ Err (Deadlock m)) ⊎ (result ≡ Err Memory) }
    ensures noncausal_always { period_samples net.now.edges.items net.now.ports.items counts.now
        ≤ most_samples → (m a : ℕ) → IsNoncausal net.now.edges.items net.now.actors.items
        (pace_of net.now.actors.items steps.now.actor_steps.items) counts.now m a
        → (result ≡ Err (Noncausal m a)) ⊎ (result ≡ Err Memory) }
    ensures plan_always { period_samples net.now.edges.items net.now.ports.items counts.now
        ≤ most_samples → IsCausal net.now.edges.items net.now.actors.items
        (pace_of net.now.actors.items steps.now.actor_steps.items) counts.now
        → IsOk result ⊎ (result ≡ Err Memory) }
{
    if MOST_SAMPLES < samples(net.edges(), net.ports(), counts) {
        return Err(PlanErr::TooLarge);
    }
    answer(alloc, net, counts, steps)
}
