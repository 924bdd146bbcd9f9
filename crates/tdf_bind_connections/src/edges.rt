//! The edges between modules, samplers and sinks.

ghost use Rattle.std.specs.List.{cons_option};
ghost use Rattle.std.specs.Prelude.{◌≡◌, ◌+◌, ◌≤◌, ◌++◌, [], IfOk, OnOk, All, length};
ghost use Rattle.tdf_bind_connections.specs.Edges.{is_event_port, driver_port, in_edge, driven_edge, sampler_edge, sink_edge, edge_by, edges_of, HasShortDelay};
ghost use Rattle.tdf_bind_connections.specs.machine.EdgeSteps.{actor_after};

use crate::drivers::SignalRow;
use crate::modules::PortRow;
use std::alloc::Global;
use tdf_base::{Memory, row_number};
use tdf_lang_tree::PortKind;

/// An edge: samples go from its writer to its reader, in order. Actors are numbered: the modules, then the samplers and
/// sinks, one for each `de_in` and `de_out` port of a module, in the order of the ports.
#[derive(Clone, Copy, Debug)]
pub struct EdgeRow {
    /// The number of the port that gives the edge: an `in`, `de_in` or `de_out` port of a module.
    pub port: u32,
    /// The number of the `out` port that writes, for an `in` port.
    pub driver: Option<u32>,
    /// The number of the actor that writes.
    pub writer: u32,
    /// The number of the actor that reads.
    pub reader: u32,
    /// Samples that are there before any firing: the delays of the ports.
    pub initial: u32,
}

/// Whether a port is a sampler or a sink.
fn is_event_port(kind: PortKind) -> bool
    ensures { result ≡ is_event_port kind }
{
    match kind {
        PortKind::In => false,
        PortKind::Out => false,
        PortKind::DeIn => true,
        PortKind::DeOut => true,
    }
}

fn driver_port(signals: &[SignalRow], signal: u32) -> Option<u32>
    ensures { result ≡ driver_port signals.now signal }
{
    let place = signal as usize;
    if place < signals.len() {
        return signals[place].driver;
    }
    None
}

fn in_edge(
    ports: &[PortRow],
    number: usize,
    port: &PortRow,
    out: u32,
) -> Result<Option<EdgeRow>, Memory>
    requires short { HasShortDelay port.now }
    requires all_short { All HasShortDelay ports.now }
    ensures { IfOk result (λ edge. edge ≡ in_edge ports.now number port.now out) }
{
    let place = out as usize;
    if place >= ports.len() {
        return Ok(None);
    }
    Ok(Some(EdgeRow {
        port: row_number(number)?,
        driver: Some(out),
        writer: ports[place].module,
        reader: port.module,
        initial: port.delay + ports[place].delay,
    }))
}

fn driven_edge(
    signals: &[SignalRow],
    ports: &[PortRow],
    number: usize,
    port: &PortRow,
) -> Result<Option<EdgeRow>, Memory>
    requires short { HasShortDelay port.now }
    requires all_short { All HasShortDelay ports.now }
    ensures { IfOk result (λ edge. edge ≡ driven_edge ports.now number port.now (driver_port signals.now port.now.signal)) }
{
    match driver_port(signals, port.signal) {
        None => Ok(None),
        Some(out) => in_edge(ports, number, port, out),
    }
}

fn sampler_edge(number: usize, actor: usize, port: &PortRow) -> Result<EdgeRow, Memory>
    ensures { IfOk result (λ edge. edge ≡ sampler_edge number actor port.now) }
{
    Ok(EdgeRow {
        port: row_number(number)?,
        driver: None,
        writer: row_number(actor)?,
        reader: port.module,
        initial: port.delay,
    })
}

fn sink_edge(number: usize, actor: usize, port: &PortRow) -> Result<EdgeRow, Memory>
    ensures { IfOk result (λ edge. edge ≡ sink_edge number actor port.now) }
{
    Ok(EdgeRow {
        port: row_number(number)?,
        driver: None,
        writer: port.module,
        reader: row_number(actor)?,
        initial: port.delay,
    })
}

fn edge_by(
    signals: &[SignalRow],
    ports: &[PortRow],
    number: usize,
    actor: usize,
    port: &PortRow,
) -> Result<Option<EdgeRow>, Memory>
    requires short { HasShortDelay port.now }
    requires all_short { All HasShortDelay ports.now }
    ensures { IfOk result (λ edge. edge ≡ edge_by signals.now ports.now number actor port.now) }
{
    match port.kind {
        PortKind::In => driven_edge(signals, ports, number, port),
        PortKind::Out => Ok(None),
        PortKind::DeIn => Ok(Some(sampler_edge(number, actor, port)?)),
        PortKind::DeOut => Ok(Some(sink_edge(number, actor, port)?)),
    }
}

fn put_edge(edges: &mut Vec<EdgeRow>, edge: Option<EdgeRow>) -> Result<(), Memory>
    ensures { OnOk result (edges.new.items ≡ edges.old.items ++ cons_option edge []) }
{
    match edge {
        None => Ok(()),
        Some(edge) => {
            edges.push(edge)?;
            Ok(())
        }
    }
}

/// The number of the actor after one that is a port's, if it is.
fn after(actor: usize, kind: PortKind) -> Result<usize, Memory>
    ensures { IfOk result (λ next. next ≡ actor_after actor kind) }
{
    if !is_event_port(kind) {
        return Ok(actor);
    }
    Ok(row_number(actor)? as usize + 1)
}

/// The edges that the ports of modules give, where there are `modules` modules. The delays of ports are within their limit.
///
/// # Errors
/// Out of memory.
pub fn edges_of(
    alloc: Global,
    modules: usize,
    signals: &[SignalRow],
    ports: &[PortRow],
) -> Result<Vec<EdgeRow>, Memory>
    requires { All HasShortDelay ports.now }
    ensures { IfOk result (λ edges. edges.items ≡ edges_of modules signals.now ports.now) }
{
    let mut edges = Vec::new(alloc);
    let mut actor = modules;
    for number in 0..ports.len() {
        let port = &ports[number];
        let edge = edge_by(signals, ports, number, actor, port)?;
        put_edge(&mut edges, edge)?;
        actor = after(actor, port.kind)?;
    }
    Ok(edges)
}
