//! The most samples that each edge holds along a plan.

ghost use Rattle.std.specs.Prelude.{◌≡◌, ◌<◌, ◌≤◌, ◌+◌, ◌-◌, ◌*◌, ℕ, All, length, max, take, replicate, slice_index, slice_set, slice_get, Some, IfOk, OnOk};
ghost use Rattle.tdf_base.specs.Limits.{most_firings};
ghost use Rattle.tdf_graph.specs.Ranges.{IsEdge};
ghost use Rattle.tdf_schedule.specs.views.Table.{AreInputs, AreOutputs};
ghost use Rattle.tdf_schedule.specs.views.Work.{links_at};
ghost use Rattle.tdf_schedule.specs.views.Bounds.{held_of, AreRaisedUpTo, HasFired, AreBoundsUpTo, AreWalkedUpTo, AreInitialUpTo};

use crate::entry::Entry;
use crate::lists::Lists;
use std::alloc::Global;
use tdf_base::Memory;
use tdf_graph::Edge;

/// What an edge holds after so many firings of its writer and its reader.
fn held(edge: &Edge, done: &[u64]) -> u64
    requires fit { IsEdge (length done.now) edge.now }
    requires few { All (λ n. n ≤ most_firings) done.now }
    ensures { result ≡ held_of edge.now done.now }
{
    let written = u64::from(edge.initial) + done[edge.writer as usize] * u64::from(edge.write_rate);
    let read = done[edge.reader as usize] * u64::from(edge.read_rate);
    written.saturating_sub(read)
}

/// Raises the bounds of the edges of a list to what they hold.
fn raise(list: &[u32], edges: &[Edge], done: &[u64], bounds: &mut Vec<u64>)
    requires fit { All (IsEdge (length done.now)) edges.now }
    requires few { All (λ n. n ≤ most_firings) done.now }
    requires inside { (j : ℕ) → j < length list.now → slice_index list.now j < length edges.now }
    requires long { length bounds.old.items ≡ length edges.now }
    ensures { AreRaisedUpTo (length list.now) list.now edges.now done.now bounds.old.items bounds.new.items }
{
    for j in 0..list.len() {
        let number = list[j] as usize;
        bounds[number] = bounds[number].max(held(&edges[number], done));
    }
}

/// One firing of an actor: it is counted, and the bounds of its edges are raised.
fn fire(
    actor: u32,
    edges: &[Edge],
    inputs: &Lists,
    outputs: &Lists,
    done: &mut Vec<u64>,
    bounds: &mut Vec<u64>,
)
    requires actor { actor < length done.old.items }
    requires fit { All (IsEdge (length done.old.items)) edges.now }
    requires inputs_long { length inputs.now ≡ length done.old.items }
    requires outputs_long { length outputs.now ≡ length done.old.items }
    requires into { AreInputs edges.now actor (links_at inputs.now actor) }
    requires out { AreOutputs edges.now actor (links_at outputs.now actor) }
    requires few { All (λ n. n + 1 ≤ most_firings) done.old.items }
    requires long { length bounds.old.items ≡ length edges.now }
    ensures done { done.new.items ≡ slice_set done.old.items actor (slice_index done.old.items actor + 1) }
    ensures raised { HasFired actor edges.now done.new.items bounds.old.items bounds.new.items }
{
    done[actor as usize] += 1;
    raise(inputs.list(actor), edges, done, bounds);
    raise(outputs.list(actor), edges, done, bounds);
}

/// Walks through the entries of a plan.
fn walk(
    edges: &[Edge],
    inputs: &Lists,
    outputs: &Lists,
    entries: &[Entry],
    done: &mut Vec<u64>,
    bounds: &mut Vec<u64>,
)
    requires fit { All (IsEdge (length done.old.items)) edges.now }
    requires inputs_long { length inputs.now ≡ length done.old.items }
    requires outputs_long { length outputs.now ≡ length done.old.items }
    requires into { All (λ x. AreInputs edges.now x.actor (links_at inputs.now x.actor)) entries.now }
    requires out { All (λ x. AreOutputs edges.now x.actor (links_at outputs.now x.actor)) entries.now }
    requires actors { All (λ x. x.actor < length done.old.items) entries.now }
    requires few { length entries.now ≤ most_firings }
    requires start { AreWalkedUpTo 0 (length done.old.items) entries.now edges.now done.old.items bounds.old.items }
    ensures { AreWalkedUpTo (length entries.now) (length done.old.items) entries.now edges.now done.new.items bounds.new.items }
{
    for i in 0..entries.len() {
        fire(entries[i].actor, edges, inputs, outputs, done, bounds);
    }
}

/// No firing of any actor.
fn none_done(alloc: Global, count: u32) -> Result<Vec<u64>, Memory>
    ensures { IfOk result (λ v. v.items ≡ replicate count 0) }
{
    Ok(vec![in alloc; 0; count as usize]?)
}

/// What each edge holds at first.
fn initials(alloc: Global, edges: &[Edge]) -> Result<Vec<u64>, Memory>
    ensures { IfOk result (λ v. AreInitialUpTo (length edges.now) edges.now v.items) }
{
    let mut held = vec![in alloc; 0; edges.len()]?;
    for k in 0..edges.len() {
        held[k] = u64::from(edges[k].initial);
    }
    Ok(held)
}

/// The most samples that each edge holds along a plan.
pub(crate) fn most_held(
    alloc: Global,
    count: u32,
    edges: &[Edge],
    inputs: &Lists,
    outputs: &Lists,
    entries: &[Entry],
) -> Result<Vec<u64>, Memory>
    requires fit { All (IsEdge count) edges.now }
    requires inputs_long { length inputs.now ≡ count }
    requires outputs_long { length outputs.now ≡ count }
    requires into { All (λ x. AreInputs edges.now x.actor (links_at inputs.now x.actor)) entries.now }
    requires out { All (λ x. AreOutputs edges.now x.actor (links_at outputs.now x.actor)) entries.now }
    requires actors { All (λ x. x.actor < count) entries.now }
    requires few { length entries.now ≤ most_firings }
    ensures { IfOk result (λ v. AreBoundsUpTo (length entries.now) entries.now edges.now v.items) }
{
    let mut done = none_done(alloc, count)?;
    let mut bounds = initials(alloc, edges)?;
    walk(edges, inputs, outputs, entries, &mut done, &mut bounds);
    drop(done);
    Ok(bounds)
}
