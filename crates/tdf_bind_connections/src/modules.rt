//! The tables of modules and of their ports.

ghost use Rattle.std.specs.Prelude.{◌≡◌, IfOk, OnOk, ◌++◌};
ghost use Rattle.tdf_bind_connections.specs.Modules.{signal_at, port_row, AreModules};
ghost use Rattle.tdf_bind_connections.specs.machine.ModuleSteps.{no_modules, with_instance, with_module, ports_before};

use crate::roles::{Initials, ModuleData, PortData, Rate, Role};
use std::alloc::Global;
use std::marker::Model;
use tdf_base::{Memory, row_number};
use tdf_bind_hierarchy::{InstanceRow, SharedPath, SignalNumber};
use tdf_lang_tree::PortKind;

/// A module.
#[derive(Drop)]
pub struct ModuleRow {
    /// Its path.
    pub path: SharedPath,
    /// The place of its block among the blocks of modules and of processes in the text.
    pub block: u32,
    /// Whether it changes attributes.
    pub changes: bool,
    /// Whether it accepts changes of attributes.
    pub accepts: bool,
    /// Its timestep, 0 where none is assigned.
    pub step: u64,
}

/// A port of a module.
#[derive(Drop)]
pub struct PortRow {
    /// Its path.
    pub path: SharedPath,
    /// The number of its module.
    pub module: u32,
    /// Whether it takes or gives samples, and whether of a signal of samples or of an event signal.
    pub kind: PortKind,
    /// Its rate at the start.
    pub rate: Rate,
    /// Its delay in samples.
    pub delay: u32,
    /// Its timestep, 0 where none is assigned.
    pub step: u64,
    /// The number of the signal that it reaches, among those of its kind.
    pub signal: u32,
    /// Its initial samples.
    pub initials: Initials,
}

/// The modules of a model, and all their ports by module and declaration.
#[derive(Drop)]
pub struct Modules {
    /// The modules, in preorder.
    pub modules: Vec<ModuleRow>,
    /// The ports.
    pub ports: Vec<PortRow>,
}

impl Model for Modules {
    ghost use Rattle.tdf_bind_connections.specs.Modules.{ModulesOf};

    ghost Value = { ModulesOf };

    ghost view = { λ a. record { modules = a.modules.items; ports = a.ports.items } };
}

/// The number of the signal that a port of an instance reaches, by the port's place.
pub(crate) fn signal_at(signals: &[SignalNumber], place: usize) -> usize
    ensures { result ≡ signal_at signals.now place }
{
    if place < signals.len() {
        return signals[place].number;
    }
    0
}

fn port_row(
    alloc: Global,
    number: usize,
    instance: &InstanceRow,
    place: usize,
    port: &PortData,
) -> Result<PortRow, Memory>
    ensures { IfOk result (λ row. row ≡ port_row number instance.now place port.now) }
{
    let front = Some(instance.path.shared()?);
    Ok(PortRow {
        path: SharedPath::named(alloc, &front, &port.name)?,
        module: row_number(number)?,
        kind: port.kind,
        rate: port.rate,
        delay: port.delay,
        step: port.step,
        signal: row_number(signal_at(&instance.signals, place))?,
        initials: port.initials.shared()?,
    })
}

fn put_ports(
    alloc: Global,
    rows: &mut Vec<PortRow>,
    number: usize,
    instance: &InstanceRow,
    ports: &[PortData],
) -> Result<(), Memory>
    ensures { OnOk result (rows.new.items ≡ rows.old.items ++ ports_before number instance.now ports.now) }
{
    for place in 0..ports.len() {
        let row = port_row(alloc, number, instance, place, &ports[place])?;
        rows.push(row)?;
    }
    Ok(())
}

fn put_module(
    alloc: Global,
    all: &mut Modules,
    instance: &InstanceRow,
    role: &ModuleData,
) -> Result<(), Memory>
    ensures { OnOk result (all.new ≡ with_module instance.now role.now all.old) }
{
    let number = all.modules.len();
    let row = ModuleRow {
        path: instance.path.shared()?,
        block: role.block,
        changes: role.changes,
        accepts: role.accepts,
        step: role.step,
    };
    all.modules.push(row)?;
    put_ports(alloc, &mut all.ports, number, instance, &role.ports)
}

fn put_instance(
    alloc: Global,
    all: &mut Modules,
    roles: &[Role],
    instance: &InstanceRow,
) -> Result<(), Memory>
    ensures { OnOk result (all.new ≡ with_instance roles.now instance.now all.old) }
{
    match roles.get(instance.block) {
        Some(Role::Module(role)) => put_module(alloc, all, instance, role),
        _ => Ok(()),
    }
}

/// The modules among the instances of a model, and their ports, where `roles` says what each block is.
///
/// # Errors
/// Out of memory.
pub fn modules_of(
    alloc: Global,
    roles: &[Role],
    instances: &[InstanceRow],
) -> Result<Modules, Memory>
    ensures { IfOk result (λ modules. AreModules roles.now instances.now modules) }
{
    let mut all = Modules {
        modules: Vec::new(alloc),
        ports: Vec::new(alloc),
    };
    for instance in instances {
        put_instance(alloc, &mut all, roles, instance)?;
    }
    Ok(all)
}
