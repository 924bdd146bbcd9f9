//! The parts of a kernel before the first instant.

ghost use Rattle.std.specs.List.{All};
ghost use Rattle.std.specs.Prelude.{◌≡◌, ◌<◌, ◌^◌, ℕ, IfOk, OnOk, Some, length, map, slice_get};
ghost use Rattle.tdf_events_queue.specs.Lists.{list_at};
ghost use Rattle.tdf_events.specs.Kernel.{AreSensitive};
ghost use Rattle.tdf_events.specs.Processes.{owned_from};
ghost use Rattle.tdf_events.specs.machine.Making.{AreAdded, AreAllPorts, AreFrames, AreStarted};
ghost use Rattle.tdf_expr.specs.Checked.{IsChecked};
ghost use Rattle.tdf_expr.specs.Made.{block_count};
ghost use Rattle.tdf_bind_connections.specs.ProcessBlocks.{BlockRowOf, ProcessRowOf};

use crate::ported::ProcessPorts;
use std::alloc::Global;
use tdf_base::Memory;
use tdf_bind_connections::{BlockRow, EventRow, ProcessRow, SignalRow};
use tdf_events_queue::{Lists, NumberSet};
use tdf_expr::{Checked, Frame};
use tdf_fixed::Raw;

/// The starting values of signals.
pub(crate) fn start_values(alloc: Global, signals: &[SignalRow]) -> Result<Vec<Raw>, Memory>
    ensures { IfOk result (λ values. values.items ≡ map (λ row. row.start) signals.now) }
{
    let mut values = Vec::new(alloc);
    for i in 0..signals.len() {
        values.push(signals[i].start)?;
    }
    Ok(values)
}

/// What each instance holds at first.
pub(crate) fn start_frames(
    alloc: Global,
    checked: &Checked,
    blocks: &[BlockRow],
) -> Result<Vec<Frame>, Memory>
    requires made { IsChecked checked.now }
    requires inside { (n : ℕ) (row : BlockRowOf) → slice_get blocks.now n ≡ Some row
        → row.block < block_count checked.now }
    ensures { IfOk result (λ frames. AreFrames checked.now blocks.now (length blocks.now)
        frames.items) }
{
    let mut frames = Vec::new(alloc);
    for i in 0..blocks.len() {
        let row = &blocks[i];
        let frame = Frame::new(alloc, checked, row.block)?;
        frames.push(frame)?;
    }
    Ok(frames)
}

/// The ports of each instance.
pub(crate) fn start_ports(
    alloc: Global,
    checked: &Checked,
    blocks: &[BlockRow],
) -> Result<Vec<ProcessPorts>, Memory>
    requires made { IsChecked checked.now }
    requires inside { (n : ℕ) (row : BlockRowOf) → slice_get blocks.now n ≡ Some row
        → row.block < block_count checked.now }
    ensures { IfOk result (λ all. AreAllPorts checked.now blocks.now (length blocks.now)
        all.items) }
{
    let mut all = Vec::new(alloc);
    for i in 0..blocks.len() {
        let row = &blocks[i];
        let ports = ProcessPorts::new(alloc, checked, row.block)?;
        all.push(ports)?;
    }
    Ok(all)
}

/// The processes that run at the start are triggered.
fn trigger_starts(set: &mut NumberSet, processes: &[ProcessRow])
    requires few { length processes.now < 2 ^ 32 }
    requires none { AreStarted processes.now 0 set.old.flags }
    ensures { AreStarted processes.now (length processes.now) set.new.flags }
{
    for i in 0..processes.len() {
        let row = &processes[i];
        if row.starts {
            set.insert(i as u32);
        }
    }
}

/// Adds a process under each of these numbers.
fn add_all(lists: &mut Lists, numbers: &[u32], process: u32) -> Result<(), Memory>
    requires { All (λ s. s < length lists.old) numbers.now }
    ensures { OnOk result (AreAdded numbers.now process (length numbers.now) lists.old lists.new) }
{
    for i in 0..numbers.len() {
        lists.add(numbers[i], process)?;
    }
    Ok(())
}

/// By signal, the processes that are sensitive to it.
pub(crate) fn by_signal(
    alloc: Global,
    signals: u32,
    processes: &[ProcessRow],
) -> Result<Lists, Memory>
    requires few { length processes.now < 2 ^ 32 }
    requires inside { All (λ row. All (λ s. s < signals) row.signals) processes.now }
    ensures long { IfOk result (λ lists. length lists ≡ signals) }
    ensures lists { IfOk result (AreSensitive (λ row. row.signals) processes.now
        (length processes.now)) }
{
    let mut lists = Lists::new(alloc, signals)?;
    for i in 0..processes.len() {
        let row = &processes[i];
        add_all(&mut lists, &row.signals, i as u32)?;
    }
    Ok(lists)
}

/// By event, the processes that are sensitive to it.
pub(crate) fn by_event(
    alloc: Global,
    events: u32,
    processes: &[ProcessRow],
) -> Result<Lists, Memory>
    requires few { length processes.now < 2 ^ 32 }
    requires inside { All (λ row. All (λ s. s < events) row.events) processes.now }
    ensures long { IfOk result (λ lists. length lists ≡ events) }
    ensures lists { IfOk result (AreSensitive (λ row. row.events) processes.now
        (length processes.now)) }
{
    let mut lists = Lists::new(alloc, events)?;
    for i in 0..processes.len() {
        let row = &processes[i];
        add_all(&mut lists, &row.events, i as u32)?;
    }
    Ok(lists)
}

/// By instance, its events.
pub(crate) fn own_events(alloc: Global, blocks: u32, events: &[EventRow]) -> Result<Lists, Memory>
    requires few { length events.now < 2 ^ 32 }
    requires inside { All (λ row. row.owner < blocks) events.now }
    ensures long { IfOk result (λ lists. length lists ≡ blocks) }
    ensures lists { (n : ℕ) → n < blocks
        → IfOk result (λ lists. list_at lists n ≡ owned_from n 0 events.now) }
{
    let mut lists = Lists::new(alloc, blocks)?;
    for i in 0..events.len() {
        lists.add(events[i].owner, i as u32)?;
    }
    Ok(lists)
}

/// The processes that run at the start.
pub(crate) fn started(alloc: Global, processes: &[ProcessRow]) -> Result<NumberSet, Memory>
    requires few { length processes.now < 2 ^ 32 }
    ensures { IfOk result (λ set. set.flags ≡ map (λ row. row.starts) processes.now) }
{
    let mut set = NumberSet::new(alloc, processes.len() as u32)?;
    trigger_starts(&mut set, processes);
    Ok(set)
}
