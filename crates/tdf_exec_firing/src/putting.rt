//! The samples that an actor writes go on its rings.

ghost use Rattle.std.specs.Prelude.{◌≡◌, ℕ, ◌∷◌, ◌<◌, [], length, Some, slice_get, slice_index, slice_set};
ghost use Rattle.tdf_exec_firing.specs.Actors.{CanPutOne};
ghost use Rattle.tdf_exec_firing.specs.Edges.{with_rings};
ghost use Rattle.tdf_exec_firing.specs.Firing.{front_of};
ghost use Rattle.tdf_exec_firing.specs.declared.wires.OutWire.{OutWire as OutWireOf};
ghost use Rattle.tdf_exec_firing.specs.machine.Moving.{AreApart, AreChangedUpTo, CanGive, out_edge, put_by, with_more};
ghost use Rattle.tdf_rings.specs.Carried.{ring_at};

use crate::edges::Edges;
use crate::wires::OutWire;
use tdf_expr::Ports;
use tdf_fixed::Raw;
use tdf_rings::Ring;

/// The first `n` samples of a port go on a ring.
fn give(ports: &Ports, port: u32, n: u32, ring: &mut Ring)
    requires can { CanGive port n ports.now ring.old }
    ensures { ring.new ≡ with_more (front_of ports.now (Some port) n) ring.old }
{
    if n == 1 {
        ring.put(ports.sample(port, 0));
        return;
    }
    for i in 0..n {
        ring.put(ports.sample(port, i));
    }
}

/// The edge of a wire gets its samples.
fn put_output(wire: OutWire, edges: &mut Edges, ports: &Ports)
    requires edge { wire.edge < length edges.old.rings }
    requires rate { length edges.old.writes ≡ length edges.old.rings }
    requires can { CanGive wire.port (slice_index edges.old.writes wire.edge) ports.now
        (ring_at edges.old.rings wire.edge) }
    ensures { edges.new ≡ with_rings (slice_set edges.old.rings wire.edge
        (put_by edges.old.writes ports.now wire (ring_at edges.old.rings wire.edge))) edges.old }
{
    edges.places.law_apart();
    let place = edges.places.at(wire.edge);
    let n = edges.writes[place];
    give(ports, wire.port, n, &mut edges.rings[place]);
}

/// The edges of all wires get their samples.
pub(crate) fn put_outputs(outs: &[OutWire], edges: &mut Edges, ports: &Ports)
    requires edges { AreApart out_edge outs.now (length edges.old.rings) }
    requires rates { length edges.old.writes ≡ length edges.old.rings }
    requires can { (j : ℕ) (w : OutWireOf) → slice_get outs.now j ≡ Some w
        → CanGive w.port (slice_index edges.old.writes w.edge) ports.now
        (ring_at edges.old.rings w.edge) }
    ensures put { AreChangedUpTo out_edge (put_by edges.old.writes ports.now) outs.now
        (length outs.now) edges.old.rings edges.new.rings }
    ensures rest { edges.new ≡ with_rings edges.new.rings edges.old }
{
    for i in 0..outs.len() {
        put_output(outs[i], edges, ports);
    }
}

/// An edge gets one sample.
fn put_one(value: Raw, edge: u32, edges: &mut Edges)
    requires edge { edge < length edges.old.rings }
    requires room { length (ring_at edges.old.rings edge).samples
        < (ring_at edges.old.rings edge).capacity }
    ensures { edges.new ≡ with_rings (slice_set edges.old.rings edge
        (with_more (value ∷ []) (ring_at edges.old.rings edge))) edges.old }
{
    edges.places.law_apart();
    let place = edges.places.at(edge);
    edges.rings[place].put(value);
}

/// Each edge gets one sample.
pub(crate) fn put_on_all(value: Raw, list: &Vec<u32>, edges: &mut Edges)
    requires can { CanPutOne list.now.items edges.old.rings }
    ensures put { AreChangedUpTo (λ (e : ℕ). e) (λ (e : ℕ). with_more (value ∷ [])) list.now.items
        (length list.now.items) edges.old.rings edges.new.rings }
    ensures rest { edges.new ≡ with_rings edges.new.rings edges.old }
{
    for i in 0..list.len() {
        put_one(value, list[i], edges);
    }
}
