//! The least counts of each part, one edge after the other.

ghost use Rattle.std.specs.Prelude.{◌≡◌, ◌≢◌, ◌<◌, ◌≤◌, ◌+◌, ◌*◌, ◌^◌, ◌++◌, ◌∷◌, [], List, All, length, replicate, IfOk, slice_index, slice_index_or};
ghost use Rattle.tdf_balance.specs.views.Results.{IsNext};
ghost use Rattle.tdf_balance.specs.views.Solution.{AreLeast, IsSolution};
ghost use Rattle.tdf_base.specs.Limits.{most_firings};
ghost use Rattle.tdf_graph.specs.Ranges.{IsEdge};
ghost use Rattle.tdf_graph.specs.declared.actors.Edge.{Edge};

use crate::divisor::{gcd, times};
use crate::err::BalanceErr;
use crate::scaling::scale_part;
use std::alloc::Global;
use tdf_base::Memory;
use tdf_graph::{Edge, Parts};

/// Parts of actors that edges connect, and for each actor its count in the least solution of its part.
#[derive(Drop)]
pub(crate) struct Solution {
    pub(crate) parts: Parts,
    pub(crate) counts: Vec<u64>,
}

fn ones(alloc: Global, count: u32) -> Result<Vec<u64>, Memory>
    ensures { IfOk result (λ counts. counts.items ≡ replicate count 1) }
{
    Ok(vec![in alloc; 1; count as usize]?)
}

/// Each of `count` actors alone, with the count 1.
pub(crate) fn first_solution(alloc: Global, count: u32) -> Result<Solution, Memory>
    ensures { IfOk result (λ s. AreLeast count [] s.parts s.counts.items) }
{
    let parts = Parts::new(alloc, count)?;
    let counts = ones(alloc, count)?;
    Ok(Solution { parts, counts })
}

/// Makes one part of two: the counts of each are multiplied by the least numbers that balance the edge.
fn merge(
    solution: Solution,
    alloc: Global,
    edge: &Edge,
    number: u32,
    written: u64,
    read: u64,
) -> Result<Solution, BalanceErr>
    requires fits { IsEdge (length solution.parts) edge.now }
    requires solved { IsSolution (length solution.parts) solution.parts solution.counts.items }
    requires apart { slice_index solution.parts edge.now.writer ≡ slice_index solution.parts edge.now.reader → ⊥ }
    requires written { written ≡ slice_index solution.counts.items edge.now.writer * edge.now.write_rate }
    requires read { read ≡ slice_index solution.counts.items edge.now.reader * edge.now.read_rate }
    requires some { (0 < written) × (0 < read) }
    requires small { (written < 2 ^ 32) × (read < 2 ^ 32) }
    ensures { (edges : List Edge) → AreLeast (length solution.parts) edges solution.parts solution.counts.items
        → IsNext (length solution.parts) number (edges ++ edge.now ∷ []) result }
{
    let first = solution.parts.label(edge.writer);
    let second = solution.parts.label(edge.reader);
    let common = gcd(written, read);
    let first_times = times(read, common);
    let second_times = times(written, common);
    let parts = solution.parts;
    let mut counts = solution.counts;
    if !scale_part(&mut counts, &parts, first, first_times) {
        drop(parts);
        drop(counts);
        return Err(BalanceErr::TooLarge);
    }
    if !scale_part(&mut counts, &parts, second, second_times) {
        drop(parts);
        drop(counts);
        return Err(BalanceErr::TooLarge);
    }
    match parts.merge(alloc, first, second) {
        Ok(parts) => Ok(Solution { parts, counts }),
        Err(_) => {
            drop(counts);
            Err(BalanceErr::Memory)
        }
    }
}

/// The solution after one edge more.
pub(crate) fn add_edge(
    solution: Solution,
    alloc: Global,
    edge: &Edge,
    number: u32,
) -> Result<Solution, BalanceErr>
    requires fits { IsEdge (length solution.parts) edge.now }
    requires solved { IsSolution (length solution.parts) solution.parts solution.counts.items }
    ensures { (edges : List Edge) → AreLeast (length solution.parts) edges solution.parts solution.counts.items
        → IsNext (length solution.parts) number (edges ++ edge.now ∷ []) result }
{
    let written = solution.counts[edge.writer as usize] * u64::from(edge.write_rate);
    let read = solution.counts[edge.reader as usize] * u64::from(edge.read_rate);
    if solution.parts.label(edge.writer) != solution.parts.label(edge.reader) {
        return merge(solution, alloc, edge, number, written, read);
    }
    if written == read {
        return Ok(solution);
    }
    drop(solution);
    Err(BalanceErr::Rates { edge: number })
}
