//! The counts of one cluster.

ghost use Rattle.std.specs.Prelude.{◌≡◌, ◌<◌, ◌≤◌, ◌^◌, ◌⊎◌, ℕ, List, All, Contains, Err, length, vec_len, sum, take, IfOk, IsOk};
ghost use Rattle.tdf_balance.specs.Balance.{cluster_edges, edges_to, HasCounts, IsRatesFault, IsSizeFault};
ghost use Rattle.tdf_balance.specs.declared.err.BalanceErr.TheVariants.{Rates, TooLarge, Memory};
ghost use Rattle.tdf_balance.specs.views.Results.{IsNext, IsSolved, IsFinished, IsAnswer};
ghost use Rattle.tdf_balance.specs.views.Solution.{AreLeast, AreFine, IsKept};
ghost use Rattle.tdf_base.specs.Limits.{most_firings};
ghost use Rattle.tdf_graph.specs.Clusters.{AreClusters};
ghost use Rattle.tdf_graph.specs.Ranges.{IsEdge};

use crate::err::BalanceErr;
use crate::solution::{Solution, add_edge, first_solution};
use std::alloc::Global;
use tdf_base::MOST_FIRINGS;
use tdf_graph::{Edge, Net};

/// The solution after edge `k`, where that is an edge of the cluster.
fn step(
    solution: Solution,
    alloc: Global,
    edges: &[Edge],
    clusters: &[u32],
    cluster: u32,
    k: u32,
) -> Result<Solution, BalanceErr>
    requires fit { All (IsEdge (length solution.parts)) edges.now }
    requires long { length clusters.now ≡ length solution.parts }
    requires within { k < length edges.now }
    requires least { AreLeast (length solution.parts) (cluster_edges clusters.now cluster (take k edges.now)) solution.parts solution.counts.items }
    ensures { IsNext (length solution.parts) k (edges_to clusters.now cluster edges.now k) result }
{
    let edge = &edges[k as usize];
    if clusters[edge.writer as usize] != cluster {
        return Ok(solution);
    }
    add_edge(solution, alloc, edge, k)
}

/// The least counts of all parts that the edges of a cluster connect.
fn solve(
    alloc: Global,
    count: u32,
    edges: &[Edge],
    clusters: &[u32],
    cluster: u32,
) -> Result<Solution, BalanceErr>
    requires fit { All (IsEdge count) edges.now }
    requires long { length clusters.now ≡ count }
    requires some { 0 < count }
    requires few { length edges.now < 2 ^ 32 }
    ensures { IsSolved count edges.now clusters.now cluster result }
{
    let mut solution = first_solution(alloc, count)?;
    for k in 0..edges.len() as u32 {
        match step(solution, alloc, edges, clusters, cluster, k) {
            Ok(next) => solution = next,
            Err(why) => return Err(why),
        }
    }
    Ok(solution)
}

/// Sets the counts of all actors of other clusters to 0.
fn keep(counts: &mut Vec<u64>, clusters: &[u32], cluster: u32)
    requires long { length clusters.now ≡ length counts.old.items }
    requires few { All (λ q. q ≤ most_firings) counts.old.items }
    ensures { IsKept clusters.now cluster counts.old.items counts.new.items }
{
    for actor in 0..counts.len() {
        if clusters[actor] != cluster {
            counts[actor] = 0;
        }
    }
}

/// The sum of counts.
fn total(counts: &[u64]) -> u64
    requires few { All (λ q. q ≤ most_firings) counts.now }
    requires long { length counts.now < 2 ^ 32 }
    ensures { result ≡ sum counts.now }
{
    let mut total: u64 = 0;
    for count in counts {
        total += *count;
    }
    total
}

/// The counts of a cluster of a solution, or too many firings.
fn finish(solution: Solution, clusters: &[u32], cluster: u32) -> Result<Vec<u64>, BalanceErr>
    requires long { length clusters.now ≡ length solution.counts.items }
    requires few { All (λ q. q ≤ most_firings) solution.counts.items }
    requires small { length solution.counts.items < 2 ^ 32 }
    ensures { IsFinished clusters.now cluster solution.counts.items result }
{
    let mut counts = solution.counts;
    keep(&mut counts, clusters, cluster);
    drop(solution.parts);
    if MOST_FIRINGS < total(&counts) {
        drop(counts);
        return Err(BalanceErr::TooLarge);
    }
    Ok(counts)
}

/// The counts of a cluster, or its fault.
fn answer(alloc: Global, net: &Net, clusters: &[u32], cluster: u32) -> Result<Vec<u64>, BalanceErr>
    requires clusters { AreClusters (vec_len net.now.actors) net.now.edges.items clusters.now }
    requires has { Contains clusters.now cluster }
    ensures { IsAnswer net.now.edges.items clusters.now cluster result }
{
    match solve(
        alloc,
        net.actors.len() as u32,
        &net.edges,
        clusters,
        cluster,
    ) {
        Err(why) => Err(why),
        Ok(solution) => finish(solution, clusters, cluster),
    }
}

/// The counts of a cluster: how often each of its actors fires in one period, by actor; 0 for the actors of other clusters.
/// They are the positive whole numbers without a common divisor that meet the balance equations of the cluster's edges.
///
/// # Errors
/// The first edge of the cluster decides that is unsolvable (`Rates`, with its number) or too large (`TooLarge`): unsolvable
/// where the equations of the cluster's edges up to it have no solution of positive numbers, and too large where in some part
/// that these edges connect the least solution has a count above 262,144. Where no edge is either, `TooLarge` comes exactly
/// where the counts add up to more than 262,144. Or out of memory.
pub fn counts(
    alloc: Global,
    net: &Net,
    clusters: &[u32],
    cluster: u32,
) -> Result<Vec<u64>, BalanceErr>
    requires clusters { AreClusters (vec_len net.now.actors) net.now.edges.items clusters.now }
    requires has { Contains clusters.now cluster }

    ensures counts { IfOk result (λ q. HasCounts net.now.edges.items clusters.now cluster q.items) }
    ensures rates { (k : ℕ) → result ≡ Err (Rates k)
        → IsRatesFault net.now.edges.items clusters.now cluster k }
    ensures size { result ≡ Err TooLarge → IsSizeFault net.now.edges.items clusters.now cluster }

    // Each answer comes wherever its cause is there, but for want of memory.
    ensures rates_always { (k : ℕ) → IsRatesFault net.now.edges.items clusters.now cluster k
        → (result ≡ Err (Rates k)) ⊎ (result ≡ Err Memory) }
    ensures size_always { IsSizeFault net.now.edges.items clusters.now cluster
        → (result ≡ Err TooLarge) ⊎ (result ≡ Err Memory) }
    ensures counts_always { (q : List ℕ) → HasCounts net.now.edges.items clusters.now cluster q
        → IsOk result ⊎ (result ≡ Err Memory) }
{
    answer(alloc, net, clusters, cluster)
}
