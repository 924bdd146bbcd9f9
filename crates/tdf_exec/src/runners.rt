//! What each actor needs to fire, and one firing.

use std::marker::Model;
use tdf_dynamic::ModuleFrame;
use tdf_exec_firing::Wires;

/// A port that a body writes, whose signal is traced.
#[derive(Clone, Copy, Debug, PartialEq, Eq)]
pub struct TracedPort {
    /// The number of the port in the flat model.
    pub number: u32,
    /// The place of the port in its block.
    pub port: u32,
    /// The number of its signal.
    pub signal: u32,
    /// Its rate in force.
    pub rate: u32,
}

/// What a module has beside its values and ports: the number of its block, its edges, and its ports whose signals are traced.
#[derive(Drop)]
pub struct Rest {
    pub(crate) block: u32,
    pub(crate) wires: Wires,
    pub(crate) traced: Vec<TracedPort>,
}

/// A module: its values and ports, and the rest. Each is in a box, so that it moves as a pointer where the modules of a cluster
/// are asked for changes.
#[derive(Drop)]
pub struct ModuleRunner {
    pub(crate) instance: Box<ModuleFrame>,
    pub(crate) rest: Box<Rest>,
}

impl Model for ModuleRunner {
    ghost use Rattle.tdf_exec.specs.Runners.{ModuleOf};

    ghost Value = { ModuleOf };

    ghost view = { λ a. record {
      block = a.rest.value.block;
      frame = a.instance.value.frame;
      ports = a.instance.value.ports;
      wires = a.rest.value.wires;
      traced = a.rest.value.traced.items;
    } };
}

/// A sampler: its edges, and its place among the samplers of the cluster.
#[derive(Drop)]
pub struct SamplerRunner {
    pub(crate) edges: Vec<u32>,
    pub(crate) place: u32,
}

impl Model for SamplerRunner {
    ghost use Rattle.tdf_exec.specs.Runners.{SamplerOf};

    ghost Value = { SamplerOf };

    ghost view = { λ a. record { edges = a.edges.items; place = a.place } };
}

/// A sink: its edge.
#[derive(Clone, Copy, Debug, PartialEq, Eq)]
pub struct SinkRunner {
    pub edge: u32,
}

/// What an actor needs to fire. An actor of another cluster never does.
#[derive(Drop)]
pub enum Runner {
    Module(ModuleRunner),
    Sampler(SamplerRunner),
    Sink(SinkRunner),
    Outside,
}

ghost use Rattle.std.specs.List.{flat_map};
ghost use Rattle.std.specs.Prelude.{◌≡◌, ℕ, ◌+◌, ◌≤◌, [], length, Some, slice_get};
ghost use Rattle.tdf_exec.specs.machine.Fired.{CanFireModule, CanGive, CanRun, CanSink, HasFired, HasGiven, HasRun, HasSent};
ghost use Rattle.tdf_exec.specs.Gained.{with_gains};
ghost use Rattle.tdf_exec.specs.Made.{IsInSpans};
ghost use Rattle.tdf_exec.specs.Traced.{traced_port_samples, traced_count};
ghost use Rattle.tdf_exec.specs.declared.runners.Runner.TheVariants.{Module};
ghost use Rattle.tdf_exec.specs.declared.runners.TracedPort.{TracedPort as TracedPortOf};
ghost use Rattle.tdf_exec_firing.specs.Actors.{HasTaken};
ghost use Rattle.tdf_exec_firing.specs.Edges.{with_rings};

use tdf_convert::{Inputs, Outputs, Sent, Traced};
use tdf_exec_firing::{Edges, WiredModule, fire_module, fire_sampler, fire_sink};
use tdf_expr::{Checked, Ports};

impl ModuleRunner {
    /// One firing.
    fn fire(&mut self, checked: &Checked, edges: &mut Edges)
        requires { CanFireModule checked.now edges.old.reads edges.old.writes edges.old.rings
            self.old }
        ensures fired { HasFired checked.now edges.old.reads edges.old.writes edges.old.rings
            edges.new.rings self.old self.new }
        ensures rest { edges.new ≡ with_rings edges.new.rings edges.old }
    {
        let rest = &*self.rest;
        let module = WiredModule {
            checked,
            block: rest.block,
            wires: &rest.wires,
        };
        let instance = &mut *self.instance;
        fire_module(&module, edges, &mut instance.frame, &mut instance.ports);
    }
}

/// The samples of a port whose signal is traced.
fn trace_port(ports: &Ports, traced: TracedPort, outputs: &mut Outputs)
    requires port { IsInSpans ports.now.spans traced }
    requires room { length outputs.old.traced + traced.rate ≤ outputs.old.traced_room }
    ensures { outputs.new ≡ with_gains outputs.old [] (traced_port_samples ports.now traced) }
{
    for i in 0..traced.rate {
        outputs.put_traced(Traced {
            signal: traced.signal,
            value: ports.sample(traced.port, i),
        });
    }
}

/// The samples of all ports of a module whose signals are traced.
fn trace_ports(ports: &Ports, list: &Vec<TracedPort>, outputs: &mut Outputs)
    requires ports { (j : ℕ) (t : TracedPortOf) → slice_get list.now.items j ≡ Some t
        → IsInSpans ports.now.spans t }
    requires room { length outputs.old.traced + traced_count list.now.items
        ≤ outputs.old.traced_room }
    ensures { outputs.new ≡ with_gains outputs.old []
        (flat_map (traced_port_samples ports.now) list.now.items) }
{
    for j in 0..list.len() {
        trace_port(ports, list[j], outputs);
    }
}

/// One firing of a module, with the samples of its ports whose signals are traced.
fn run_module(
    checked: &Checked,
    module: &mut ModuleRunner,
    edges: &mut Edges,
    outputs: &mut Outputs,
)
    requires can { CanFireModule checked.now edges.old.reads edges.old.writes edges.old.rings
        module.old }
    requires gives { CanGive (Module module.old) outputs.old }
    ensures fired { HasFired checked.now edges.old.reads edges.old.writes edges.old.rings
        edges.new.rings module.old module.new }
    ensures rest { edges.new ≡ with_rings edges.new.rings edges.old }
    ensures given { outputs.new ≡ with_gains outputs.old []
        (flat_map (traced_port_samples module.new.ports) module.new.traced) }
{
    module.fire(checked, edges);
    let rest = &*module.rest;
    trace_ports(&module.instance.ports, &rest.traced, outputs);
}

/// One firing of a sink, which sends its sample.
fn run_sink(actor: u32, edge: u32, edges: &mut Edges, outputs: &mut Outputs)
    requires can { CanSink edges.old.rings edge }
    requires room { length outputs.old.sent + 1 ≤ outputs.old.sent_room }
    ensures taken { HasTaken edge edges.old.rings edges.new.rings }
    ensures rest { edges.new ≡ with_rings edges.new.rings edges.old }
    ensures given { HasSent actor edge edges.old.rings outputs.old outputs.new }
{
    let value = fire_sink(edge, edges);
    outputs.put_sent(Sent { actor, value });
}

/// One firing of an actor.
pub(crate) fn fire_runner(
    checked: &Checked,
    inputs: &Inputs,
    actor: u32,
    runner: &mut Runner,
    edges: &mut Edges,
    outputs: &mut Outputs,
)
    requires can { CanRun checked.now inputs.now edges.old.reads edges.old.writes edges.old.rings
        runner.old }
    requires gives { CanGive runner.old outputs.old }
    ensures ran { HasRun checked.now inputs.now edges.old.reads edges.old.writes edges.old.rings
        edges.new.rings runner.old runner.new }
    ensures rest { edges.new ≡ with_rings edges.new.rings edges.old }
    ensures given { HasGiven actor edges.old.rings runner.new outputs.old outputs.new }
{
    match runner {
        Runner::Module(module) => run_module(checked, module, edges, outputs),
        Runner::Sampler(sampler) => {
            fire_sampler(inputs.value(sampler.place), &sampler.edges, edges)
        }
        Runner::Sink(sink) => run_sink(actor, sink.edge, edges, outputs),
        Runner::Outside => {}
    }
}
