//! The samples that a module reads go from its rings into its ports.

ghost use Rattle.std.specs.Prelude.{◌≡◌, ℕ, ◌<◌, length, Some, slice_get, slice_index, slice_set};
ghost use Rattle.tdf_expr.specs.Frames.{ArePortsFit};
ghost use Rattle.tdf_exec_firing.specs.Edges.{with_rings};
ghost use Rattle.tdf_exec_firing.specs.declared.wires.InWire.{InWire as InWireOf};
ghost use Rattle.tdf_exec_firing.specs.machine.Filling.{AreFilledUpTo, CanFill, IsCleared, IsFilled, count_read, list_read};
ghost use Rattle.tdf_exec_firing.specs.machine.Moving.{AreApart, AreChangedUpTo, in_edge, taken_by, without};
ghost use Rattle.tdf_rings.specs.Carried.{ring_at};

use crate::edges::Edges;
use crate::wires::InWire;
use tdf_expr::Ports;
use tdf_rings::Ring;

/// How an activation begins: nothing is written or asked for, and the samples that bodies write are 0.
pub(crate) fn clear(ports: &mut Ports)
    ensures cleared { IsCleared ports.old ports.new }
    ensures fit { ArePortsFit ports.new }
{
    ports.law_fit();
    ports.reset();
    ports.law_fit();
}

/// The first `n` samples of a ring go into a port.
fn fill(ring: &Ring, n: u32, ports: &mut Ports, port: u32)
    requires can { CanFill port n ring.now.samples ports.old }
    ensures { IsFilled port n ring.now.samples ports.old ports.new }
{
    for i in 0..n {
        ports.set(port, i, ring.read(i));
    }
}

/// A port takes the first `n` samples of a ring.
fn take_from(ring: &mut Ring, n: u32, ports: &mut Ports, port: u32)
    requires can { CanFill port n ring.old.samples ports.old }
    ensures filled { IsFilled port n ring.old.samples ports.old ports.new }
    ensures taken { ring.new ≡ without n ring.old }
{
    if n == 1 {
        ports.set(port, 0, ring.pop());
        return;
    }
    fill(ring, n, ports, port);
    ring.take(n);
}

/// The port of a wire takes its samples.
fn take_input(wire: InWire, edges: &mut Edges, ports: &mut Ports)
    requires edge { wire.edge < length edges.old.rings }
    requires rate { length edges.old.reads ≡ length edges.old.rings }
    requires can { CanFill wire.port (slice_index edges.old.reads wire.edge)
        (ring_at edges.old.rings wire.edge).samples ports.old }
    ensures filled { IsFilled wire.port (slice_index edges.old.reads wire.edge)
        (ring_at edges.old.rings wire.edge).samples ports.old ports.new }
    ensures taken { edges.new ≡ with_rings (slice_set edges.old.rings wire.edge
        (taken_by edges.old.reads wire (ring_at edges.old.rings wire.edge))) edges.old }
{
    edges.places.law_apart();
    let place = edges.places.at(wire.edge);
    let n = edges.reads[place];
    take_from(&mut edges.rings[place], n, ports, wire.port);
}

/// The ports of all wires take their samples.
pub(crate) fn take_inputs(ins: &[InWire], edges: &mut Edges, ports: &mut Ports)
    requires edges { AreApart in_edge ins.now (length edges.old.rings) }
    requires rates { length edges.old.reads ≡ length edges.old.rings }
    requires fit { ArePortsFit ports.old }
    requires once { (i j : ℕ) (v w : InWireOf) → slice_get ins.now i ≡ Some v
        → slice_get ins.now j ≡ Some w → v.port ≡ w.port → i ≡ j }
    requires can { (j : ℕ) (w : InWireOf) → slice_get ins.now j ≡ Some w
        → CanFill w.port (slice_index edges.old.reads w.edge)
        (ring_at edges.old.rings w.edge).samples ports.old }
    ensures filled { AreFilledUpTo ins.now (count_read edges.old.reads) (list_read edges.old.rings)
        (length ins.now) ports.old ports.new }
    ensures taken { AreChangedUpTo in_edge (taken_by edges.old.reads) ins.now (length ins.now)
        edges.old.rings edges.new.rings }
    ensures rest { edges.new ≡ with_rings edges.new.rings edges.old }
{
    for i in 0..ins.len() {
        take_input(ins[i], edges, ports);
    }
}
