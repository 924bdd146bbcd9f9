//! The parts of a kernel that goes on from a state.

ghost use Rattle.std.specs.Prelude.{◌≡◌, ◌<◌, ◌≤◌, ◌&&◌, ℕ, IfOk, None, Some, length, map, nat_eq, slice_get};
ghost use Rattle.tdf_events_queue.specs.Times.{pending_time};
ghost use Rattle.tdf_events.specs.Kernel.{IsKernelOf, side_of};
ghost use Rattle.tdf_events.specs.Runnable.{IsRunnable};
ghost use Rattle.tdf_events.specs.State.{ArePendingFrom, IsKernelState, resumed_side};
ghost use Rattle.tdf_events.specs.machine.Resuming.{AreValuesIn, CanHold, HaveCells, with_pending};
ghost use Rattle.tdf_events.specs.views.Parts.{kernel_of};

use crate::notices::Notices;
use crate::parts::{Parts, parts_of};
use std::alloc::Global;
use tdf_base::Memory;
use tdf_bind::Flat;
use tdf_bind_connections::SignalRow;
use tdf_events_queue::NumberSet;
use tdf_expr::Frame;
use tdf_fixed::Raw;
use tdf_saved::{KernelState, Pending};

/// Numbers as values of the formats of signals.
fn values_in(alloc: Global, signals: &[SignalRow], nums: &[i128]) -> Result<Vec<Raw>, Memory>
    requires { length nums.now ≡ length signals.now }
    ensures { IfOk result (λ values. AreValuesIn (map (λ row. row.format) signals.now) nums.now
        (length nums.now) values.items) }
{
    let mut values = Vec::new(alloc);
    for i in 0..nums.len() {
        let format = signals[i].format;
        values.push(Raw {
            num: nums[i],
            frac: format.wl - format.iwl,
        })?;
    }
    Ok(values)
}

/// Each instance gets its cells.
fn set_all(frames: &mut Vec<Frame>, blocks: &[Vec<i128>])
    requires long { length blocks.now ≡ length frames.old.items }
    requires fit { CanHold frames.old.items (map (λ nums. nums.items) blocks.now) }
    ensures { HaveCells (map (λ nums. nums.items) blocks.now) (length blocks.now)
        frames.old.items frames.new.items }
{
    for i in 0..blocks.len() {
        frames[i].set_cells(&blocks[i]);
    }
}

/// Each notification gives its event its time.
fn notify_all(notices: &mut Notices, list: &[Pending], time: u64)
    requires pending { ArePendingFrom (length notices.old.times) time list.now }
    requires none { (event : ℕ) → pending_time notices.old.times event ≡ None }
    ensures { notices.new ≡ record notices.old { times = with_pending list.now notices.old.times } }
{
    for i in 0..list.len() {
        notices.set_time(list[i].event, list[i].time);
    }
}

/// Where an instant has happened, no process is still to start.
fn keep_starts(triggered: &mut NumberSet, time: u64)
    ensures { triggered.new.flags ≡ map (λ starts. nat_eq time 0 && starts) triggered.old.flags }
{
    if 0 < time {
        triggered.clear();
    }
}

/// The parts of a kernel that goes on from a state of its model at a time.
pub(crate) fn resumed_parts(
    alloc: Global,
    flat: &Flat,
    state: &KernelState,
    time: u64,
) -> Result<Parts, Memory>
    requires runnable { IsRunnable flat.now }
    requires state { IsKernelState flat.now time state.now }
    ensures side { IfOk result (λ parts.
        side_of (kernel_of parts) ≡ resumed_side flat.now time state.now) }
    ensures kernel { IfOk result (λ parts. IsKernelOf flat.now (kernel_of parts)) }
{
    let tables = &flat.tables;
    let values = values_in(alloc, &tables.de_signals, &state.values)?;
    let mut parts = parts_of(alloc, flat)?;
    parts.values = values;
    set_all(&mut parts.frames, &state.blocks);
    notify_all(&mut parts.notices, &state.pending, time);
    keep_starts(&mut parts.triggered, time);
    Ok(parts)
}
