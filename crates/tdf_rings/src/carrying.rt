//! Rings that get new capacities and keep their samples.

ghost use Rattle.std.specs.Prelude.{◌≡◌, ◌≤◌, ◌<◌, [], IfOk, OnErr, OnOk, length};
ghost use Rattle.tdf_rings.specs.Carried.{AreCarried, FitIn};
ghost use Rattle.tdf_rings.specs.Rings.{ring_of};
ghost use Rattle.tdf_rings.specs.views.Fresh.{AreCarriedUpTo, AreFresh, fresh_of};

use crate::ring::Ring;
use std::alloc::Global;
use tdf_base::Memory;

/// Puts the samples of one ring into an empty one.
fn copy(from: &Ring, to: &mut Ring)
    requires empty { to.old.samples ≡ [] }
    requires room { length from.now.samples ≤ to.old.capacity }
    ensures { to.new ≡ ring_of from.now.samples to.old.capacity }
{
    for i in 0..from.len() {
        to.put(from.read(i));
    }
}

/// A ring of another capacity with the same samples.
///
/// # Errors
/// Out of memory.
fn copy_of(alloc: Global, ring: &Ring, capacity: u32) -> Result<Ring, Memory>
    requires { length ring.now.samples ≤ capacity }
    ensures { IfOk result (λ new. new ≡ ring_of ring.now.samples capacity) }
{
    let mut new = Ring::new(alloc, capacity)?;
    copy(ring, &mut new);
    Ok(new)
}

/// The new ring of an edge, where its bound differs.
///
/// # Errors
/// Out of memory.
fn fresh_of(alloc: Global, ring: &Ring, bound: u32) -> Result<Option<Ring>, Memory>
    requires { length ring.now.samples ≤ bound }
    ensures { IfOk result (λ new. new ≡ fresh_of ring.now bound) }
{
    if ring.capacity() == bound {
        return Ok(None);
    }
    Ok(Some(copy_of(alloc, ring, bound)?))
}

/// The new rings, made before anything is moved.
///
/// # Errors
/// Out of memory.
fn all_fresh(alloc: Global, rings: &[Ring], bounds: &[u32]) -> Result<Vec<Option<Ring>>, Memory>
    requires { FitIn bounds.now rings.now }
    ensures { IfOk result (λ list. AreFresh rings.now bounds.now (length rings.now) list.items) }
{
    let mut list = Vec::with_capacity(alloc, rings.len())?;
    for e in 0..rings.len() {
        list.push(fresh_of(alloc, &rings[e], bounds[e])?)?;
    }
    Ok(list)
}

/// Puts a new ring in the place of the old one.
fn place(ring: &mut Ring, fresh: &mut Option<Ring>, bound: u32)
    requires { fresh.old ≡ fresh_of ring.old bound }
    ensures { ring.new ≡ ring_of ring.old.samples bound }
{
    if let Some(new) = fresh.take() {
        *ring = new;
    }
}

/// Puts all new rings in their places.
fn place_all(rings: &mut [Ring], fresh: &mut [Option<Ring>], bounds: &[u32])
    requires fit { FitIn bounds.now rings.old }
    requires fresh { AreFresh rings.old bounds.now (length rings.old) fresh.old }
    ensures { AreCarriedUpTo bounds.now (length rings.old) rings.old rings.new }
{
    for e in 0..rings.len() {
        place(&mut rings[e], &mut fresh[e], bounds[e]);
    }
}

/// Gives each ring its bound as its capacity; all keep their samples.
///
/// # Errors
/// Out of memory; then nothing changes.
pub fn carry(alloc: Global, rings: &mut Vec<Ring>, bounds: &[u32]) -> Result<(), Memory>
    requires fit { FitIn bounds.now rings.old.items }
    ensures ok { OnOk result (AreCarried bounds.now rings.old.items rings.new.items) }
    ensures err { OnErr result (rings.new ≡ rings.old) }
{
    let mut fresh = all_fresh(alloc, rings, bounds)?;
    place_all(rings, &mut fresh, bounds);
    Ok(())
}
