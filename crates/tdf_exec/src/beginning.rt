//! What the actors of a cluster keep at its start.

ghost use Rattle.std.specs.Prelude.{◌≡◌, ◌+◌, ◌<◌, ℕ, [], Contains, IfOk, if◌then◌else◌, length, Some, slice_get, slice_index_or};
ghost use Rattle.tdf_cluster_plans.specs.Groups.{AreTableGroups};
ghost use Rattle.tdf_dynamic_plans.specs.Attributes.{clusters_of};
ghost use Rattle.tdf_exec.specs.Made.{is_sampler_runner};
ghost use Rattle.tdf_exec.specs.machine.Moving.{kept_of, whole_of};
ghost use Rattle.tdf_exec.specs.machine.Starting.{AreTakenUpTo, CanBegin, HoldsText, IsBegun, IsFirstRunner, IsOfModule};
ghost use Rattle.tdf_exec.specs.views.Actors.{spread_runners};
ghost use Rattle.tdf_bind_tables.specs.declared.actors.ActorRow.{ActorRow as ActorRowOf};
ghost use Rattle.tdf_exec_layout.specs.declared.wiring.ActorWires.{ActorWires as ActorWiresOf};

use crate::runners::{ModuleRunner, Rest, Runner, SamplerRunner, SinkRunner};
use crate::telling::sum;
use std::alloc::Global;
use std::mem;
use tdf_base::Memory;
use tdf_bind::Flat;
use tdf_cluster_plans::TableGroups;
use tdf_dynamic::ModuleFrame;
use tdf_exec_firing::{Wires, law_begin};
use tdf_exec_layout::ActorWires;
use tdf_expr::{Body, Frame, Ports, run_body};

/// A module of these parts.
fn module_of(alloc: Global, instance: ModuleFrame, rest: Rest) -> Result<ModuleRunner, Memory>
    ensures { IfOk result (λ x. x ≡ whole_of instance (kept_of rest)) }
{
    let instance = Box::new(alloc, instance)?;
    let rest = Box::new(alloc, rest)?;
    Ok(ModuleRunner { instance, rest })
}

/// A module; its initialize body has run where `begins` says so.
fn begun(
    alloc: Global,
    flat: &Flat,
    number: usize,
    wires: Wires,
    begins: bool,
) -> Result<ModuleRunner, Memory>
    requires can { CanBegin flat.now }
    requires module { number < length flat.now.tables.modules }
    ensures { IfOk result (λ x. IsBegun flat.now (HoldsText flat.now begins) number wires x) }
{
    law_begin();
    let block = flat.tables.modules[number].block;
    let mut frame = Frame::new(alloc, &flat.checked, block)?;
    let mut ports = Ports::new(alloc, &flat.checked, block)?;
    ports.law_fit();
    let traced = Vec::new(alloc);
    let rest = Rest {
        block,
        wires,
        traced,
    };
    if !begins {
        return module_of(alloc, ModuleFrame { frame, ports }, rest);
    }
    run_body(
        &flat.checked,
        block,
        Body::Initialize,
        &mut frame,
        &mut ports,
    );
    module_of(alloc, ModuleFrame { frame, ports }, rest)
}

/// What is kept for an actor; `place` samplers come before it.
fn first_runner(
    alloc: Global,
    flat: &Flat,
    number: usize,
    place: u32,
    wires: ActorWires,
    begins: bool,
) -> Result<Runner, Memory>
    requires can { CanBegin flat.now }
    requires module { IsOfModule flat.now number wires }
    ensures { IfOk result (λ r. IsFirstRunner flat.now (HoldsText flat.now begins) number place
        wires r) }
{
    match wires {
        ActorWires::Module(wires) => Ok(Runner::Module(begun(alloc, flat, number, wires, begins)?)),
        ActorWires::Sampler(edges) => Ok(Runner::Sampler(SamplerRunner { edges, place })),
        ActorWires::Sink(edge) => Ok(Runner::Sink(SinkRunner { edge })),
        ActorWires::Elsewhere => Ok(Runner::Outside),
    }
}

/// The number of samplers with one actor more; more than fit in memory have none.
fn samplers_with(samplers: u32, runner: &Runner) -> Result<u32, Memory>
    ensures { IfOk result (λ next. next ≡ samplers + (if is_sampler_runner runner.now then 1 else 0)) }
{
    match runner {
        Runner::Module(_) => Ok(samplers),
        Runner::Sampler(_) => sum(samplers, 1),
        Runner::Sink(_) => Ok(samplers),
        Runner::Outside => Ok(samplers),
    }
}

/// What is kept for the actors of a cluster, in the order of their numbers; each takes what it is told of its edges. Actors of other clusters
/// aren't looked at. The things of the model by cluster are given. `begins` says whether the initialize bodies run.
///
/// # Errors
/// Out of memory.
pub(crate) fn first_runners(
    alloc: Global,
    flat: &Flat,
    groups: &TableGroups,
    cluster: u32,
    wires: &mut Vec<ActorWires>,
    begins: bool,
) -> Result<Vec<Runner>, Memory>
    requires can { CanBegin flat.now }
    requires has { Contains (clusters_of flat.now.tables) cluster }
    requires groups { AreTableGroups flat.now.tables groups.now }
    requires long { length wires.old.items ≡ length flat.now.tables.actors }
    requires modules { (m : ℕ) (row : ActorRowOf) (w : ActorWiresOf)
        → slice_get flat.now.tables.actors m ≡ Some row → slice_get wires.old.items m ≡ Some w
        → row.cluster ≡ cluster → IsOfModule flat.now m w }
    ensures long { IfOk result (λ runners. length runners.items
        ≡ length (slice_index_or groups.now.actors cluster [])) }
    ensures taken { IfOk result (λ runners. (samplers : ℕ) × AreTakenUpTo flat.now
        (HoldsText flat.now begins) cluster (length wires.old.items) wires.old.items
        wires.new.items samplers (spread_runners flat.now.tables
        (slice_index_or groups.now.actors cluster []) runners.items)) }
{
    let numbers = groups.actors(cluster);
    let mut runners = Vec::with_capacity(alloc, numbers.len())?;
    let mut samplers = 0;
    for i in 0..numbers.len() {
        let m = numbers[i] as usize;
        let row = mem::replace(&mut wires[m], ActorWires::Elsewhere);
        let runner = first_runner(alloc, flat, m, samplers, row, begins)?;
        samplers = samplers_with(samplers, &runner)?;
        runners.push(runner)?;
    }
    Ok(runners)
}
