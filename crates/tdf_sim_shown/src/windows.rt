//! The positions of traced signals in the periods of their clusters.

ghost use Rattle.std.specs.List.{count_by};
ghost use Rattle.std.specs.Prelude.{◌≡◌, ◌<◌, ◌+◌, ◌*◌, ◌&&◌, IfOk, IfSome, length, nat_eq, nat_lt};
ghost use Rattle.tdf_base.specs.Limits.{time_end};
ghost use Rattle.tdf_bind_invariants.specs.Limits.{AreWithinLimits};
ghost use Rattle.tdf_sim_resumed.specs.Below.{due_before};
ghost use Rattle.tdf_sim_traces.specs.Periods.{CanBegin, clock_of, positions_in};
ghost use Rattle.tdf_sim_shown.specs.Columns.{CanTellColumns};
ghost use Rattle.tdf_sim_shown.specs.machine.Windows.{AreWindowsOf, HasRoom, HaveRoom, IsWindowAt, window_in};

use std::alloc::Global;
use tdf_base::Memory;
use tdf_bind::Flat;
use tdf_schedule::Entry;
use tdf_sim_resumed::Cluster;
use tdf_sim_traces::{Clock, TracedSignal, positions, traced_at};
use tdf_trace_states::Window;

/// How many entries of a plan with offsets below an end are of an actor.
fn firings_before(entries: &[Entry], actor: u32, end: u64) -> u64
    ensures is { result
        ≡ count_by (λ x. nat_eq x.actor actor && nat_lt x.offset end) entries.now }
{
    entries
        .iter()
        .filter(|entry| entry.actor == actor && entry.offset < end)
        .count() as u64
}

/// How many samples are known after so many firings, each of which gives so many.
fn known_of(delay: u32, fired: u64, rate: u32) -> u64
    requires { fired * rate < time_end }
    ensures { result ≡ delay + fired * rate }
{
    u64::from(delay) + fired * u64::from(rate)
}

/// The positions of a traced signal in the period of its cluster that began at a time, with what is known of its samples at another.
fn window_of(flat: &Flat, since: u64, time: u64, cluster: &Cluster, traced: TracedSignal) -> Window
    requires limits { AreWithinLimits flat.now }
    requires can { CanBegin flat.now since cluster.now traced }
    requires few { positions_in flat.now.tables cluster.now traced < time_end }
    requires place { cluster.now.place ≡ due_before since time cluster.now.entries }
    ensures is { result ≡ window_in flat.now.tables since cluster.now traced }
    ensures room { HasRoom result }
{
    let count = positions(flat, cluster, traced);
    let rate = cluster.rate(flat, traced.port);
    let delay = flat.tables.ports[traced.port as usize].delay;
    let end = time.saturating_sub(since);
    let fired = firings_before(&cluster.plan().entries, traced.module, end);
    Window {
        since,
        step: cluster.period() / count,
        count,
        first: 0,
        known: known_of(delay, fired, rate),
    }
}

/// Those of the signal that a trace shows, where it is one of samples that a port of a module drives.
fn window_at(flat: &Flat, clock: &Clock, column: usize) -> Option<Window>
    requires can { CanTellColumns flat.now (clock_of clock.now) }
    requires column { column < length flat.now.tables.traces }
    ensures is { IsWindowAt flat.now (clock_of clock.now) column result }
    ensures room { IfSome result HasRoom }
{
    match traced_at(flat, column) {
        None => None,
        Some(traced) => {
            let place = traced.cluster as usize;
            Some(window_of(
                flat,
                clock.since[place],
                clock.time,
                &clock.clusters[place],
                traced,
            ))
        }
    }
}

/// Those of the signals of all traces.
///
/// # Errors
/// Out of memory.
pub(crate) fn windows_of(
    alloc: Global,
    flat: &Flat,
    clock: &Clock,
) -> Result<Vec<Option<Window>>, Memory>
    requires can { CanTellColumns flat.now (clock_of clock.now) }
    ensures are { IfOk result (λ windows.
        AreWindowsOf flat.now (clock_of clock.now) windows.items) }
    ensures long { IfOk result (λ windows.
        length windows.items ≡ length flat.now.tables.traces) }
    ensures room { IfOk result (λ windows. HaveRoom windows.items) }
{
    let mut windows = Vec::new(alloc);
    for column in 0..flat.tables.traces.len() {
        windows.push(window_at(flat, clock, column))?;
    }
    Ok(windows)
}
