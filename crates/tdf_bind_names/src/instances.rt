//! The instances of a composite.

ghost use Rattle.std.specs.List.{flat_map};
ghost use Rattle.std.specs.Option.{option_map};
ghost use Rattle.std.specs.Prelude.{◌≡◌, ◌++◌, map, IfOk, OnOk};
ghost use Rattle.tdf_bind_names.specs.Resolved.{instance_of, instance_with, instances_of, targets_of};
ghost use Rattle.tdf_bind_names.specs.Targets.{or_first};
ghost use Rattle.tdf_bind_names.specs.machine.Bindings.{target_at};
ghost use Rattle.tdf_bind_names.specs.machine.Lists.{list_of};
ghost use Rattle.tdf_lang_tree.specs.Views.{pure_composite};

use crate::bindings::Bindings;
use std::alloc::Global;
use tdf_base::{Memory, Name};
use tdf_bind_hierarchy::{Instance, Target};
use tdf_bind_ports::{Known, Ports};
use tdf_lang_tree::{Composite, Member, PortLine};

fn or_first(target: Option<Target>) -> Target
    ensures { result ≡ or_first target }
{
    match target {
        None => Target::Own(0),
        Some(target) => target,
    }
}

/// A target for each port of an instance.
#[tactic(auto, using(crate::proofs::Lists::target_laws))]
fn targets_of(
    alloc: Global,
    bindings: &Bindings,
    instance: &[u8],
    ports: &[&PortLine],
) -> Result<Vec<Target>, Memory>
    ensures { IfOk result (λ targets. targets.items
        ≡ targets_of (target_at bindings.now) instance.now (map (λ p. p.now) ports.entry.now)) }
{
    let mut targets = Vec::new(alloc);
    for port in ports {
        targets.push(or_first(bindings.target(instance, port.name.as_bytes())))?;
    }
    Ok(targets)
}

fn instance_with(
    alloc: Global,
    bindings: &Bindings,
    name: &Name,
    block: Option<usize>,
    ports: Option<&Ports>,
) -> Result<Option<Instance>, Memory>
    ensures { IfOk result (λ i. list_of i
        ≡ instance_with (target_at bindings.now) name.now block (option_map (λ p. p.now) ports.entry)) }
{
    match (block, ports) {
        (Some(block), Some(ports)) => {
            let targets = targets_of(alloc, bindings, name.as_bytes(), ports.lines())?;
            match Name::copied(alloc, name.as_bytes()) {
                Ok(name) => Ok(Some(Instance {
                    name,
                    block,
                    targets,
                })),
                Err(failed) => {
                    drop(targets);
                    Err(failed)
                }
            }
        }
        _ => Ok(None),
    }
}

/// The instance that a line declares, if it declares one.
#[tactic(auto, unfolding(crate::specs::Resolved::instance_of))]
fn instance_of(
    alloc: Global,
    known: &Known,
    bindings: &Bindings,
    member: &Member,
) -> Result<Option<Instance>, Memory>
    ensures { IfOk result (λ i. list_of i ≡ instance_of known.now (target_at bindings.now) member.now) }
{
    match member {
        Member::Instance { name, block, .. } => {
            let place = known.place(block.as_bytes());
            let ports = known.ports(block.as_bytes());
            instance_with(alloc, bindings, name, place, ports)
        }
        Member::Port(_) => Ok(None),
        Member::Signal { .. } => Ok(None),
        Member::DeSignal { .. } => Ok(None),
        Member::Bind { .. } => Ok(None),
    }
}

fn push_instance(out: &mut Vec<Instance>, instance: Option<Instance>) -> Result<(), Memory>
    ensures { OnOk result (out.new.items ≡ out.old.items ++ list_of instance) }
{
    match instance {
        None => Ok(()),
        Some(instance) => {
            out.push(instance)?;
            Ok(())
        }
    }
}

#[tactic(auto, using(crate::proofs::Lists::instance_laws))]
fn push_instances(
    alloc: Global,
    known: &Known,
    bindings: &Bindings,
    members: &Vec<Member>,
) -> Result<Vec<Instance>, Memory>
    ensures { IfOk result (λ instances. instances.items
        ≡ flat_map (instance_of known.now (target_at bindings.now)) members.now.items) }
{
    let mut out = Vec::new(alloc);
    for member in members {
        let instance = instance_of(alloc, known, bindings, member)?;
        push_instance(&mut out, instance)?;
    }
    Ok(out)
}

/// The instances of a composite.
///
/// # Errors
/// Out of memory.
pub(crate) fn instances_of(
    alloc: Global,
    known: &Known,
    block: &Composite,
) -> Result<Vec<Instance>, Memory>
    ensures { IfOk result (λ instances.
        instances.items ≡ instances_of known.now (pure_composite block.now).members) }
{
    let bindings = Bindings::of(alloc, block)?;
    let instances = push_instances(alloc, known, &bindings, &block.members);
    drop(bindings);
    instances
}
