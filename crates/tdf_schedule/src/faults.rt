//! The faults of a cluster without a plan.

ghost use Rattle.std.specs.Prelude.{◌≡◌, ◌≢◌, ◌<◌, ◌≤◌, ◌+◌, ◌*◌, ◌^◌, ℕ, All, Some, IfOk, length, vec_len, sum, slice_get, slice_index, MatchOption};
ghost use Rattle.tdf_base.specs.Limits.{most_firings};
ghost use Rattle.tdf_graph.specs.Ranges.{IsEdge, IsGraphPort};
ghost use Rattle.tdf_schedule.specs.Plan.{pace_by, period_samples};
ghost use Rattle.tdf_schedule.specs.declared.key.Key.{Key};
ghost use Rattle.tdf_schedule.specs.views.Faults.{initial_sum, rate_sum, IsFull, IsFirstShort, IsLateAt, IsFirstLateRow, IsFirstLateSink, IsFirstLate, ArePacesUpTo};
ghost use Rattle.tdf_schedule.specs.views.Table.{row_at};

use crate::join::row_len;
use crate::key::Row;
use std::alloc::Global;
use tdf_base::Memory;
use tdf_graph::{Actor, Edge, Port};
use tdf_places::Sparse;

/// The initial samples of the edges of the cluster.
fn initial_samples(edges: &[Edge], counts: &[u64]) -> u64
    requires fit { All (IsEdge (length counts.now)) edges.now }
    requires few { length edges.now < 2 ^ 32 }
    ensures sum { result ≡ initial_sum counts.now edges.now }
    ensures small { result < 2 ^ 50 }
{
    let mut total: u64 = 0;
    for k in 0..edges.len() {
        if counts[edges[k].writer as usize] != 0 {
            total += u64::from(edges[k].initial);
        }
    }
    total
}

/// The samples of the ports of the cluster in one period.
fn port_samples(ports: &[Port], counts: &[u64]) -> u64
    requires fit { All (IsGraphPort (length counts.now)) ports.now }
    requires few { length ports.now < 2 ^ 32 }
    requires counts { All (λ q. q ≤ most_firings) counts.now }
    ensures sum { result ≡ rate_sum counts.now ports.now }
    ensures small { result ≤ 2 ^ 62 }
{
    let mut total: u64 = 0;
    for k in 0..ports.len() {
        total += counts[ports[k].actor as usize] * u64::from(ports[k].rate);
    }
    total
}

/// The first actor with a firing that has no key.
pub(crate) fn first_short(counts: &[u64], table: &Vec<Row>) -> Option<u32>
    requires same { length table.now.items ≡ length counts.now }
    requires few { length counts.now < 2 ^ 32 }
    ensures { IsFirstShort counts.now table.now.items result }
{
    for actor in 0..counts.len() as u32 {
        if row_len(table, actor) != counts[actor as usize] {
            return Some(actor);
        }
    }
    None
}

/// The first firing of an actor that comes after it is due.
fn late_in_row(table: &Vec<Row>, paces: &[u64], actor: u32) -> Option<u64>
    requires actor { actor < length table.now.items }
    requires paces { length paces.now ≡ length table.now.items }
    requires short { length (row_at table.now.items actor) * slice_index paces.now actor < 2 ^ 63 }
    ensures { IsFirstLateRow table.now.items paces.now actor result }
{
    for index in 0..row_len(table, actor) {
        if index * paces[actor as usize] < table[actor as usize].key(index as usize).offset {
            return Some(index);
        }
    }
    None
}

/// The first firing of a sink that comes after it is due, or the answer for no sink.
fn late_at(actors: &[Actor], paces: &[u64], table: &Vec<Row>, actor: u32) -> Option<u64>
    requires actor { actor < length table.now.items }
    requires same { length actors.now ≡ length table.now.items }
    requires paces { length paces.now ≡ length table.now.items }
    requires short { length (row_at table.now.items actor) * slice_index paces.now actor < 2 ^ 63 }
    ensures { IsFirstLateSink actors.now table.now.items paces.now actor result }
{
    match actors[actor as usize] {
        Actor::Sink => late_in_row(table, paces, actor),
        Actor::Module => None,
        Actor::Sampler => None,
    }
}

/// The first firing of the first sink that comes after it is due.
pub(crate) fn first_late(actors: &[Actor], paces: &[u64], table: &Vec<Row>) -> Option<(u32, u64)>
    requires same { length actors.now ≡ length table.now.items }
    requires paces { length paces.now ≡ length table.now.items }
    requires few { length actors.now < 2 ^ 32 }
    requires short { (m : ℕ) → length (row_at table.now.items m) * slice_index paces.now m < 2 ^ 63 }
    ensures { IsFirstLate actors.now table.now.items paces.now result }
{
    for actor in 0..actors.len() as u32 {
        match late_at(actors, paces, table, actor) {
            None => {}
            Some(index) => return Some((actor, index)),
        }
    }
    None
}

/// The time from one firing to the next, 0 for modules.
fn pace_of(actor: Actor, step: u64) -> u64
    ensures { result ≡ pace_by (Some actor) step }
{
    match actor {
        Actor::Module => 0,
        Actor::Sampler => step,
        Actor::Sink => step,
    }
}

/// The paces of all actors.
pub(crate) fn paces_of(alloc: Global, actors: &[Actor], steps: &Sparse) -> Result<Vec<u64>, Memory>
    ensures { IfOk result (λ paces. ArePacesUpTo (length actors.now) actors.now steps.now.items paces.items) }
{
    let mut paces: Vec<u64> = vec![in alloc; 0; actors.len()]?;
    for actor in 0..actors.len() {
        paces[actor] = pace_of(actors[actor], steps.get_near(actor, actor));
    }
    Ok(paces)
}

/// The samples in the buffers of the cluster.
pub(crate) fn samples(edges: &[Edge], ports: &[Port], counts: &[u64]) -> u64
    requires edges { All (IsEdge (length counts.now)) edges.now }
    requires ports { All (IsGraphPort (length counts.now)) ports.now }
    requires few_edges { length edges.now < 2 ^ 32 }
    requires few_ports { length ports.now < 2 ^ 32 }
    requires counts { All (λ q. q ≤ most_firings) counts.now }
    ensures { result ≡ period_samples edges.now ports.now counts.now }
{
    initial_samples(edges, counts) + port_samples(ports, counts)
}
