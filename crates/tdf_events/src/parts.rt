//! The parts of a kernel.

ghost use Rattle.std.specs.Prelude.{◌≡◌, IfOk};
ghost use Rattle.tdf_events.specs.Kernel.{IsKernelOf, side_of};
ghost use Rattle.tdf_events.specs.Runnable.{IsRunnable};
ghost use Rattle.tdf_events.specs.Side.{start_side};
ghost use Rattle.tdf_events.specs.views.Parts.{kernel_of};

use crate::making::{
    by_event, by_signal, own_events, start_frames, start_ports, start_values, started,
};
use crate::notices::Notices;
use crate::ported::ProcessPorts;
use crate::waiting::Waiting;
use std::alloc::Global;
use tdf_base::Memory;
use tdf_bind::Flat;
use tdf_events_queue::{Lists, NumberSet};
use tdf_expr::Frame;
use tdf_fixed::Raw;

/// What a kernel holds.
#[derive(Drop)]
pub(crate) struct Parts {
    /// The settled value of each event signal.
    pub(crate) values: Vec<Raw>,
    /// What each instance of a block of processes holds.
    pub(crate) frames: Vec<Frame>,
    /// The ports of each instance.
    pub(crate) ports: Vec<ProcessPorts>,
    /// The pending notifications.
    pub(crate) notices: Notices,
    /// The processes that run in the next evaluation.
    pub(crate) triggered: NumberSet,
    /// The values that wait for the next update.
    pub(crate) waiting: Waiting,
    /// By signal, the processes that are sensitive to it.
    pub(crate) by_signal: Lists,
    /// By event, the processes that are sensitive to it.
    pub(crate) by_event: Lists,
    /// By instance, its events.
    pub(crate) own_events: Lists,
}

/// The parts before the first instant.
pub(crate) fn parts_of(alloc: Global, flat: &Flat) -> Result<Parts, Memory>
    requires { IsRunnable flat.now }
    ensures side { IfOk result (λ parts. side_of (kernel_of parts) ≡ start_side flat.now) }
    ensures kernel { IfOk result (λ parts. IsKernelOf flat.now (kernel_of parts)) }
{
    let tables = &flat.tables;
    let signals = tables.de_signals.len() as u32;
    let events = tables.events.len() as u32;
    let values = start_values(alloc, &tables.de_signals)?;
    let frames = start_frames(alloc, &flat.checked, &tables.blocks)?;
    let ports = start_ports(alloc, &flat.checked, &tables.blocks)?;
    let notices = Notices::new(alloc, events)?;
    let triggered = started(alloc, &tables.processes)?;
    let waiting = Waiting::new(alloc, signals)?;
    let by_signal = by_signal(alloc, signals, &tables.processes)?;
    let by_event = by_event(alloc, events, &tables.processes)?;
    let own_events = own_events(alloc, tables.blocks.len() as u32, &tables.events)?;
    Ok(Parts {
        values,
        frames,
        ports,
        notices,
        triggered,
        waiting,
        by_signal,
        by_event,
        own_events,
    })
}
