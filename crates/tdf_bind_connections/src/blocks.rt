//! The tables of the instances of blocks of processes, of their processes, and of their events.

ghost use Rattle.std.specs.Prelude.{◌≡◌, ◌+◌, IfOk, OnOk, ◌++◌, map};
ghost use Rattle.tdf_bind_connections.specs.Modules.{signal_at};
ghost use Rattle.tdf_bind_connections.specs.ProcessBlocks.{process_row, event_row, AreProcessBlocks};
ghost use Rattle.tdf_bind_connections.specs.machine.BlockSteps.{with_block, with_block_at, processes_of};

use crate::modules::signal_at;
use crate::roles::{ProcessData, ProcessLine, Role};
use std::alloc::Global;
use std::marker::Model;
use tdf_base::{Memory, Name, row_number};
use tdf_bind_hierarchy::{InstanceRow, SharedPath, SignalNumber};

/// An instance of a block of processes.
#[derive(Drop)]
pub struct BlockRow {
    /// Its path.
    pub path: SharedPath,
    /// The place of its block among the blocks of modules and of processes in the text.
    pub block: u32,
    /// The number of the event signal that each of its ports reaches.
    pub signals: Vec<u32>,
}

impl Model for BlockRow {
    ghost use Rattle.tdf_bind_connections.specs.ProcessBlocks.{BlockRowOf};

    ghost Value = { BlockRowOf };

    ghost view = { λ a. record { path = a.path; block = a.block; signals = a.signals.items } };
}

/// A process.
#[derive(Drop)]
pub struct ProcessRow {
    /// The number of its instance among those of blocks of processes.
    pub owner: u32,
    /// Its place among the processes of its block.
    pub number: u32,
    /// Whether it runs at the start.
    pub starts: bool,
    /// The numbers of the event signals that it is sensitive to.
    pub signals: Vec<u32>,
    /// The numbers of the events that it is sensitive to.
    pub events: Vec<u32>,
}

impl Model for ProcessRow {
    ghost use Rattle.tdf_bind_connections.specs.ProcessBlocks.{ProcessRowOf};

    ghost Value = { ProcessRowOf };

    ghost view = { λ a. record {
      owner = a.owner;
      number = a.number;
      starts = a.starts;
      signals = a.signals.items;
      events = a.events.items;
    } };
}

/// An event.
#[derive(Drop)]
pub struct EventRow {
    /// The number of its instance among those of blocks of processes.
    pub owner: u32,
    /// Its name in the block.
    pub name: Name,
}

/// The instances of blocks of processes in preorder, and their processes and events by instance and declaration.
#[derive(Drop)]
pub struct ProcessBlocks {
    /// The instances.
    pub blocks: Vec<BlockRow>,
    /// The processes.
    pub processes: Vec<ProcessRow>,
    /// The events.
    pub events: Vec<EventRow>,
}

impl Model for ProcessBlocks {
    ghost use Rattle.tdf_bind_connections.specs.ProcessBlocks.{ProcessBlocksOf};

    ghost Value = { ProcessBlocksOf };

    ghost view = { λ a. record { blocks = a.blocks.items; processes = a.processes.items; events = a.events.items } };
}

fn all_numbers(alloc: Global, signals: &[SignalNumber]) -> Result<Vec<u32>, Memory>
    ensures { IfOk result (λ numbers. numbers.items ≡ map (λ signal. signal.number) signals.now) }
{
    let mut numbers = Vec::new(alloc);
    for i in 0..signals.len() {
        numbers.push(row_number(signals[i].number)?)?;
    }
    Ok(numbers)
}

fn numbers_at(alloc: Global, signals: &[SignalNumber], places: &[usize]) -> Result<Vec<u32>, Memory>
    ensures { IfOk result (λ numbers. numbers.items ≡ map (signal_at signals.now) places.now) }
{
    let mut numbers = Vec::new(alloc);
    for i in 0..places.len() {
        numbers.push(row_number(signal_at(signals, places[i]))?)?;
    }
    Ok(numbers)
}

fn event_number(first: usize, place: usize) -> Result<u32, Memory>
    ensures { IfOk result (λ number. number ≡ first + place) }
{
    let before = row_number(first)?;
    let here = row_number(place)?;
    row_number(before as usize + here as usize)
}

fn event_numbers(alloc: Global, first: usize, places: &[usize]) -> Result<Vec<u32>, Memory>
    ensures { IfOk result (λ numbers. numbers.items ≡ map (λ place. first + place) places.now) }
{
    let mut numbers = Vec::new(alloc);
    for i in 0..places.len() {
        numbers.push(event_number(first, places[i])?)?;
    }
    Ok(numbers)
}

fn process_row(
    alloc: Global,
    owner: usize,
    first: usize,
    signals: &[SignalNumber],
    number: usize,
    process: &ProcessLine,
) -> Result<ProcessRow, Memory>
    ensures { IfOk result (λ row. row ≡ process_row owner first signals.now number process.now) }
{
    Ok(ProcessRow {
        owner: row_number(owner)?,
        number: row_number(number)?,
        starts: process.starts,
        signals: numbers_at(alloc, signals, &process.ports)?,
        events: event_numbers(alloc, first, &process.events)?,
    })
}

fn put_processes(
    alloc: Global,
    rows: &mut Vec<ProcessRow>,
    owner: usize,
    first: usize,
    signals: &[SignalNumber],
    processes: &[ProcessLine],
) -> Result<(), Memory>
    ensures { OnOk result (rows.new.items ≡ rows.old.items ++ processes_of owner first signals.now processes.now) }
{
    for number in 0..processes.len() {
        let row = process_row(alloc, owner, first, signals, number, &processes[number])?;
        rows.push(row)?;
    }
    Ok(())
}

fn event_row(alloc: Global, owner: usize, name: &Name) -> Result<EventRow, Memory>
    ensures { IfOk result (λ row. row ≡ event_row owner name.now) }
{
    Ok(EventRow {
        owner: row_number(owner)?,
        name: Name::copied(alloc, name.as_bytes())?,
    })
}

fn put_events(
    alloc: Global,
    rows: &mut Vec<EventRow>,
    owner: usize,
    names: &[Name],
) -> Result<(), Memory>
    ensures { OnOk result (rows.new.items ≡ rows.old.items ++ map (event_row owner) names.now) }
{
    for i in 0..names.len() {
        let row = event_row(alloc, owner, &names[i])?;
        rows.push(row)?;
    }
    Ok(())
}

fn block_row(alloc: Global, instance: &InstanceRow, block: u32) -> Result<BlockRow, Memory>
    ensures { IfOk result (λ row. row ≡ record { path = instance.now.path; block = block; signals = map (λ signal. signal.number) instance.now.signals }) }
{
    Ok(BlockRow {
        path: instance.path.shared()?,
        block,
        signals: all_numbers(alloc, &instance.signals)?,
    })
}

fn put_block(
    alloc: Global,
    all: &mut ProcessBlocks,
    instance: &InstanceRow,
    role: &ProcessData,
) -> Result<(), Memory>
    ensures { OnOk result (all.new ≡ with_block instance.now role.now all.old) }
{
    let owner = all.blocks.len();
    let first = all.events.len();
    let row = block_row(alloc, instance, role.block)?;
    all.blocks.push(row)?;
    put_processes(
        alloc,
        &mut all.processes,
        owner,
        first,
        &instance.signals,
        &role.processes,
    )?;
    put_events(alloc, &mut all.events, owner, &role.events)
}

fn put_instance(
    alloc: Global,
    all: &mut ProcessBlocks,
    roles: &[Role],
    instance: &InstanceRow,
) -> Result<(), Memory>
    ensures { OnOk result (all.new ≡ with_block_at roles.now instance.now all.old) }
{
    match roles.get(instance.block) {
        Some(Role::Processes(role)) => put_block(alloc, all, instance, role),
        _ => Ok(()),
    }
}

/// The blocks of processes among the instances of a model, where `roles` says what each block is.
///
/// # Errors
/// Out of memory.
pub fn process_blocks_of(
    alloc: Global,
    roles: &[Role],
    instances: &[InstanceRow],
) -> Result<ProcessBlocks, Memory>
    ensures { IfOk result (λ blocks. AreProcessBlocks roles.now instances.now blocks) }
{
    let mut all = ProcessBlocks {
        blocks: Vec::new(alloc),
        processes: Vec::new(alloc),
        events: Vec::new(alloc),
    };
    for instance in instances {
        put_instance(alloc, &mut all, roles, instance)?;
    }
    Ok(all)
}
