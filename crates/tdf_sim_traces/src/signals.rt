//! The traced signals of samples, and the ports that drive them.

/// A traced signal of samples, and the port that drives it.
#[derive(Clone, Copy, Debug, PartialEq, Eq)]
pub struct TracedSignal {
    /// The place of its cluster among all, from 0.
    pub cluster: u32,
    /// The number of the port's module.
    pub module: u32,
    /// The number of the port.
    pub port: u32,
    /// The number of the signal.
    pub signal: u32,
}

ghost use Rattle.std.specs.List.{list_any};
ghost use Rattle.std.specs.Prelude.{◌≡◌, ◌+◌, ◌<◌, Some, length, nat_eq, slice_get, IfOk, OnOk, false};
ghost use Rattle.tdf_sim_history.specs.Cells.{driver_of_row};
ghost use Rattle.tdf_sim_traces.specs.Signals.{AreTold, AreTracedSignals, IsDriverOf, IsListed, IsTracedAt};
ghost use Rattle.tdf_sim_traces.specs.machine.Pushing.{AreSignalsTo, HasTrace, driver_of_trace};

use std::alloc::Global;
use tdf_base::Memory;
use tdf_bind::Flat;
use tdf_bind_connections::TraceRow;

/// Whether a signal is listed.
fn has_signal(list: &[TracedSignal], signal: u32) -> bool
    ensures { result ≡ list_any (λ listed. nat_eq listed.signal signal) list.now }
{
    list.iter().any(|listed| listed.signal == signal)
}

/// What is listed of the port that drives a signal.
fn listed(flat: &Flat, signal: u32, port: u32) -> TracedSignal
    requires traced { HasTrace flat.now.tables.traces signal }
    requires driver { driver_of_row (slice_get flat.now.tables.signals signal) ≡ Some port }
    requires is { IsDriverOf flat.now.tables signal port }
    ensures listed { IsListed flat.now result }
    ensures signal { result.signal ≡ signal }
{
    let module = flat.tables.ports[port as usize].module;
    TracedSignal {
        cluster: flat.tables.actors[module as usize].cluster - 1,
        module,
        port,
        signal,
    }
}

/// The port of a module that drives the signal of a trace, if the trace is one of samples.
fn driver_of(flat: &Flat, row: &TraceRow) -> Option<u32>
    requires { row.now.event ≡ false → row.now.signal < length flat.now.tables.signals }
    ensures { result ≡ driver_of_trace flat.now.tables row.now }
{
    if row.event {
        return None;
    }
    flat.tables.signals[row.signal as usize].driver
}

/// The signal of a trace is listed, if it is one of samples that a port of a module drives.
fn push_signal(flat: &Flat, column: usize, list: &mut Vec<TracedSignal>) -> Result<(), Memory>
    requires told { AreTold flat.now.tables }
    requires column { column < length flat.now.tables.traces }
    requires so_far { AreSignalsTo flat.now column list.old.items }
    ensures { OnOk result (AreSignalsTo flat.now (column + 1) list.new.items) }
{
    let row = &flat.tables.traces[column];
    if has_signal(list, row.signal) {
        return Ok(());
    }
    match driver_of(flat, row) {
        None => Ok(()),
        Some(port) => {
            list.push(listed(flat, row.signal, port))?;
            Ok(())
        }
    }
}

/// The traced signals of samples that ports of modules drive, each once.
///
/// # Errors
/// Out of memory.
pub(crate) fn traced_signals(alloc: Global, flat: &Flat) -> Result<Vec<TracedSignal>, Memory>
    requires { AreTold flat.now.tables }
    ensures { IfOk result (λ list. AreTracedSignals flat.now list.items) }
{
    let mut list = Vec::new(alloc);
    for column in 0..flat.tables.traces.len() {
        push_signal(flat, column, &mut list)?;
    }
    Ok(list)
}

/// The signal that a trace shows, where it is one of samples that a port of a module drives. It takes no memory.
pub fn traced_at(flat: &Flat, column: usize) -> Option<TracedSignal>
    requires told { AreTold flat.now.tables }
    requires column { column < length flat.now.tables.traces }
    ensures { IsTracedAt flat.now column result }
{
    let row = &flat.tables.traces[column];
    match driver_of(flat, row) {
        None => None,
        Some(port) => Some(listed(flat, row.signal, port)),
    }
}
