//! The rings of a cluster at its start.

ghost use Rattle.std.specs.Prelude.{◌≡◌, ◌<◌, ◌≤◌, ℕ, [], IfOk, Some, length, slice_get, slice_index};
ghost use Rattle.tdf_bind_connections.specs.declared.edges.EdgeRow.{EdgeRow as EdgeRowOf};
ghost use Rattle.tdf_cluster_net.specs.Numbers.{AllBelow};
ghost use Rattle.tdf_exec_parts.specs.Rings.{AreOwnFirstRings};
ghost use Rattle.tdf_rings.specs.Rings.{ring_of};
ghost use Rattle.tdf_exec_layout.specs.Below.{initial_list};

use std::alloc::Global;
use tdf_base::{Memory, row_number};
use tdf_bind_connections::EdgeRow;
use tdf_bind_tables::FlatTables;
use tdf_exec_layout::initial_samples;
use tdf_fixed::Raw;
use tdf_places::Sparse;
use tdf_rings::Ring;

/// Puts samples into an empty ring.
fn put_samples(ring: &mut Ring, samples: &[Raw])
    requires empty { ring.old.samples ≡ [] }
    requires room { length samples.now ≤ ring.old.capacity }
    ensures { ring.new ≡ ring_of samples.now ring.old.capacity }
{
    for i in 0..samples.len() {
        ring.put(samples[i]);
    }
}

/// A ring with room for so many samples, which holds those of an edge at first.
fn first_ring(
    alloc: Global,
    tables: &FlatTables,
    edge: &EdgeRow,
    bound: u32,
) -> Result<Ring, Memory>
    requires room { length (initial_list tables.now edge.now) ≤ bound }
    ensures { IfOk result (λ ring. ring ≡ ring_of (initial_list tables.now edge.now) bound) }
{
    let samples = initial_samples(alloc, tables, *edge)?;
    let mut ring = Ring::new(alloc, bound)?;
    put_samples(&mut ring, &samples);
    Ok(ring)
}

/// The rings of the edges with these numbers, in order, with room for their bounds and their samples at first; no other edge is looked
/// at. A bound of more than 32 bits is refused: such a ring has no memory.
///
/// # Errors
/// Out of memory.
pub fn first_rings(
    alloc: Global,
    tables: &FlatTables,
    numbers: &[u32],
    bounds: &Sparse,
) -> Result<Vec<Ring>, Memory>
    requires inside { AllBelow (length tables.now.edges) numbers.now }
    requires fits { (i : ℕ) (edge : EdgeRowOf) → i < length numbers.now
        → slice_get tables.now.edges (slice_index numbers.now i) ≡ Some edge
        → length (initial_list tables.now edge)
        ≤ slice_index bounds.now.items (slice_index numbers.now i) }
    ensures { IfOk result (λ rings. AreOwnFirstRings tables.now bounds.now.items numbers.now
        (length numbers.now) rings.items) }
{
    let mut rings = Vec::with_capacity(alloc, numbers.len())?;
    for i in 0..numbers.len() {
        let e = numbers[i] as usize;
        let bound = row_number(bounds.get_near(i, e) as usize)?;
        rings.push(first_ring(alloc, tables, &tables.edges[e], bound)?)?;
    }
    Ok(rings)
}
