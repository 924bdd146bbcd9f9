//! One firing of a module, of a sampler and of a sink.

ghost use Rattle.std.specs.Prelude.{◌≡◌, ◌<◌, length, Some, slice_get};
ghost use Rattle.tdf_expr.specs.Made.{AreMadeFor};
ghost use Rattle.tdf_exec_firing.specs.Actors.{CanPutOne, HasTaken, HavePut};
ghost use Rattle.tdf_exec_firing.specs.Edges.{with_rings};
ghost use Rattle.tdf_exec_firing.specs.Firing.{AreMoved, AreOfFormats, AreEdgeRates, AreZerosBehind, CanFire, HasActed, HoldFormats, samples_read};
ghost use Rattle.tdf_exec_firing.specs.Wires.{AreWired};
ghost use Rattle.tdf_rings.specs.Carried.{ring_at};

use crate::edges::Edges;
use crate::putting::{put_on_all, put_outputs};
use crate::taking::{clear, take_inputs};
use crate::wires::Wires;
use tdf_expr::{Body, Checked, Frame, Ports, run_body};
use tdf_fixed::Raw;

/// A module and its edges, as they are at each firing: the checked model, the number of its block, and the edges.
#[derive(Clone, Copy)]
pub struct WiredModule<'m> {
    pub checked: &'m Checked,
    pub block: u32,
    pub wires: &'m Wires,
}

/// One firing of a module: it takes the samples that it reads, its processing body runs, and it puts the samples that it
/// writes. It takes no memory and is never refused.
pub fn fire_module(module: &WiredModule, edges: &mut Edges, frame: &mut Frame, ports: &mut Ports)
    requires made { AreMadeFor module.now.checked.now module.now.block frame.old ports.old }
    requires wired { AreWired module.now.wires.now ports.old.spans (length edges.old.rings) }
    requires rates { AreEdgeRates edges.old.reads edges.old.writes (length edges.old.rings) }
    requires can { CanFire module.now.wires.now edges.old.reads edges.old.writes ports.old.spans
        edges.old.rings }
    requires formats { AreOfFormats module.now.wires.now ports.old.spans edges.old.rings }
    requires zeros { AreZerosBehind module.now.wires.now edges.old.reads ports.old }
    ensures acted { HasActed module.now.checked.now module.now.block
        (samples_read module.now.wires.now edges.old.reads edges.old.rings)
        frame.old ports.old frame.new ports.new }
    ensures moved { AreMoved module.now.wires.now edges.old.reads edges.old.writes ports.new
        edges.old.rings edges.new.rings }
    ensures rest { edges.new ≡ with_rings edges.new.rings edges.old }
    ensures made { AreMadeFor module.now.checked.now module.now.block frame.new ports.new }
    ensures zeros { AreZerosBehind module.now.wires.now edges.old.reads ports.new }
    ensures formats { HoldFormats ports.new }
{
    clear(ports);
    take_inputs(module.wires.ins(), edges, ports);
    run_body(module.checked, module.block, Body::Processing, frame, ports);
    ports.law_fit();
    put_outputs(module.wires.outs(), edges, ports);
}

/// One firing of a sampler: its value goes on each of its edges. It takes no memory and is never refused.
pub fn fire_sampler(value: Raw, list: &Vec<u32>, edges: &mut Edges)
    requires can { CanPutOne list.now.items edges.old.rings }
    ensures put { HavePut value list.now.items edges.old.rings edges.new.rings }
    ensures rest { edges.new ≡ with_rings edges.new.rings edges.old }
{
    put_on_all(value, list, edges);
}

/// One firing of a sink: the first sample of its edge, which is taken. It takes no memory and is never refused.
pub fn fire_sink(edge: u32, edges: &mut Edges) -> Raw
    requires edge { edge < length edges.old.rings }
    requires present { 0 < length (ring_at edges.old.rings edge).samples }
    ensures value { slice_get (ring_at edges.old.rings edge).samples 0 ≡ Some result }
    ensures taken { HasTaken edge edges.old.rings edges.new.rings }
    ensures rest { edges.new ≡ with_rings edges.new.rings edges.old }
{
    edges.places.law_apart();
    let place = edges.places.at(edge);
    edges.rings[place].pop()
}
