//! The ports that write signals.

ghost use Rattle.std.specs.List.{enumerate_from, cons_option};
ghost use Rattle.std.specs.Prelude.{◌≡◌, ◌++◌, [], IfOk, OnOk, filter_map};
ghost use Rattle.tdf_bind_connections.specs.ProcessBlocks.{placed_blocks};
ghost use Rattle.tdf_bind_connections.specs.Writers.{gives, port_writer, place_writer, module_writers, writers_at, block_writers, writers_to};
ghost use Rattle.tdf_bind_connections.specs.machine.WriterSteps.{with_instance_writers};

use crate::modules::{PortRow, signal_at};
use crate::roles::Role;
use std::alloc::Global;
use tdf_base::{Memory, row_number};
use tdf_bind_hierarchy::{InstanceRow, SignalNumber};
use tdf_lang_tree::PortKind;

/// A port that writes a signal.
#[derive(Clone, Copy, Debug)]
pub struct Writer {
    /// The number of the signal, among those of its kind.
    pub signal: u32,
    /// The number of the port, where it is one of a module.
    pub port: Option<u32>,
}

/// Whether a port writes a signal of a kind: an event signal, or one of samples.
fn gives(event: bool, kind: PortKind) -> bool
    ensures { result ≡ gives event kind }
{
    match kind {
        PortKind::Out => !event,
        PortKind::DeOut => event,
        PortKind::In => false,
        PortKind::DeIn => false,
    }
}

fn put_port(
    writers: &mut Vec<Writer>,
    event: bool,
    number: usize,
    port: &PortRow,
) -> Result<(), Memory>
    ensures { OnOk result (writers.new.items ≡ writers.old.items ++ cons_option (port_writer event number port.now) []) }
{
    if !gives(event, port.kind) {
        return Ok(());
    }
    writers.push(Writer {
        signal: port.signal,
        port: Some(row_number(number)?),
    })?;
    Ok(())
}

fn put_ports(writers: &mut Vec<Writer>, event: bool, ports: &[PortRow]) -> Result<(), Memory>
    ensures { OnOk result (writers.new.items ≡ writers.old.items ++ module_writers event ports.now) }
{
    for number in 0..ports.len() {
        put_port(writers, event, number, &ports[number])?;
    }
    Ok(())
}

fn put_place(
    writers: &mut Vec<Writer>,
    event: bool,
    signals: &[SignalNumber],
    place: usize,
    kind: PortKind,
) -> Result<(), Memory>
    ensures { OnOk result (writers.new.items ≡ writers.old.items ++ cons_option (place_writer event signals.now place kind) []) }
{
    if !gives(event, kind) {
        return Ok(());
    }
    writers.push(Writer {
        signal: row_number(signal_at(signals, place))?,
        port: None,
    })?;
    Ok(())
}

fn put_places(
    writers: &mut Vec<Writer>,
    event: bool,
    signals: &[SignalNumber],
    kinds: &[PortKind],
) -> Result<(), Memory>
    ensures { OnOk result (writers.new.items ≡ writers.old.items ++ writers_at event signals.now kinds.now) }
{
    for place in 0..kinds.len() {
        put_place(writers, event, signals, place, kinds[place])?;
    }
    Ok(())
}

fn put_instance(
    writers: &mut Vec<Writer>,
    event: bool,
    roles: &[Role],
    instance: &InstanceRow,
) -> Result<(), Memory>
    ensures { OnOk result (writers.new.items ≡ with_instance_writers event roles.now instance.now writers.old.items) }
{
    match roles.get(instance.block) {
        Some(Role::Processes(role)) => put_places(writers, event, &instance.signals, &role.ports),
        _ => Ok(()),
    }
}

fn put_blocks(
    writers: &mut Vec<Writer>,
    event: bool,
    roles: &[Role],
    instances: &[InstanceRow],
) -> Result<(), Memory>
    ensures { OnOk result (writers.new.items ≡ writers.old.items ++ block_writers event (placed_blocks roles.now instances.now)) }
{
    for instance in instances {
        put_instance(writers, event, roles, instance)?;
    }
    Ok(())
}

/// The ports that write signals of a kind: those of modules, then those of blocks of processes.
///
/// # Errors
/// Out of memory.
pub(crate) fn writers_to(
    alloc: Global,
    event: bool,
    roles: &[Role],
    instances: &[InstanceRow],
    ports: &[PortRow],
) -> Result<Vec<Writer>, Memory>
    ensures { IfOk result (λ writers. writers.items ≡ writers_to event roles.now instances.now ports.now) }
{
    let mut writers = Vec::new(alloc);
    put_ports(&mut writers, event, ports)?;
    put_blocks(&mut writers, event, roles, instances)?;
    Ok(writers)
}
