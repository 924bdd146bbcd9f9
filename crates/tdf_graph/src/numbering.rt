//! The number of each actor's cluster.

ghost use Rattle.std.specs.Prelude.{◌≡◌, ◌<◌, ◌+◌, ◌^◌, [], ◌∷◌, ◌++◌, List, length, vec_len, All, IfOk, replicate};
ghost use Rattle.tdf_graph.specs.Clusters.{AreClusters};
ghost use Rattle.tdf_graph.specs.Parts.{AreLabels};
ghost use Rattle.tdf_graph.specs.Ranges.{IsEdge};
ghost use Rattle.tdf_graph.specs.declared.actors.Edge.{Edge};
ghost use Rattle.tdf_graph.specs.views.Numbering.{NumberedUpTo, IsNumbered};

use crate::actors::Edge;
use crate::net::Net;
use crate::parts::Parts;
use std::alloc::Global;
use tdf_base::Memory;

/// The parts after one edge more.
fn join(parts: Parts, alloc: Global, edge: &Edge) -> Result<Parts, Memory>
    requires { IsEdge (length parts) edge.now }
    ensures { (edges : List Edge) → All (IsEdge (length parts)) edges → AreLabels (length parts) edges parts
        → IfOk result (AreLabels (length parts) (edges ++ edge.now ∷ [])) }
{
    let first = parts.label(edge.writer);
    let second = parts.label(edge.reader);
    if first == second {
        return Ok(parts);
    }
    parts.merge(alloc, first, second)
}

/// The parts that edges connect.
fn connected(alloc: Global, count: u32, edges: &[Edge]) -> Result<Parts, Memory>
    requires { All (IsEdge count) edges.now }
    ensures { IfOk result (AreLabels count edges.now) }
{
    let mut parts = Parts::new(alloc, count)?;
    for edge in edges {
        parts = join(parts, alloc, edge)?;
    }
    Ok(parts)
}

/// Gives one actor more its number; answers the greatest number so far. `table` has the number of each label, or 0.
fn put_number(
    parts: &Parts,
    table: &mut Vec<u32>,
    numbers: &mut Vec<u32>,
    actor: u32,
    last: u32,
) -> Result<u32, Memory>
    requires few { length parts.now < 2 ^ 32 }
    requires more { actor < length parts.now }
    requires numbered { NumberedUpTo actor last parts.now table.old.items numbers.old.items }
    ensures { IfOk result (λ most. NumberedUpTo (actor + 1) most parts.now table.new.items numbers.new.items) }
{
    let label = parts.label(actor);
    let number = table[label as usize];
    if number != 0 {
        numbers.push(number)?;
        return Ok(last);
    }
    numbers.push(last + 1)?;
    table[label as usize] = last + 1;
    Ok(last + 1)
}

/// The number of each actor's part, from 1 in the order of their first actors.
fn numbered(alloc: Global, count: u32, parts: &Parts) -> Result<Vec<u32>, Memory>
    requires { length parts.now ≡ count }
    ensures { IfOk result (λ numbers. IsNumbered parts.now numbers.items) }
{
    let mut table: Vec<u32> = vec![in alloc; 0; count as usize]?;
    let mut numbers: Vec<u32> = Vec::new(alloc);
    let mut last: u32 = 0;
    for actor in 0..count {
        last = put_number(parts, &mut table, &mut numbers, actor, last)?;
    }
    drop(table);
    Ok(numbers)
}

/// The number of each actor's cluster. Two actors are in one cluster exactly where a chain of edges, walked either way, joins
/// them; clusters are numbered from 1 by their least actor.
///
/// # Errors
/// Out of memory.
pub fn clusters(alloc: Global, net: &Net) -> Result<Vec<u32>, Memory>
    ensures { IfOk result (λ numbers. AreClusters (vec_len net.now.actors) net.now.edges.items
        numbers.items) }
{
    let count = net.actors.len() as u32;
    let parts = connected(alloc, count, &net.edges)?;
    let numbers = numbered(alloc, count, &parts)?;
    drop(parts);
    Ok(numbers)
}
