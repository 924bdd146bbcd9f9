//! The ports of modules whose signals are traced.

use crate::runners::TracedPort;
use std::marker::Model;

/// The ports of a module whose signals are traced, as they are found.
#[derive(Drop)]
pub(crate) struct TracedPorts {
    list: Vec<TracedPort>,
}

impl Model for TracedPorts {
    ghost use Rattle.std.specs.Prelude.{List};
    ghost use Rattle.tdf_exec.specs.declared.runners.TracedPort.{TracedPort};

    ghost Value = { List TracedPort };

    ghost view = { λ a. a.list.items };
}

ghost use Rattle.std.specs.List.{list_any};
ghost use Rattle.std.specs.Prelude.{◌≡◌, ◌&&◌, ◌++◌, ◌∷◌, ◌<◌, ◌≤◌, ℕ, [], All, IfOk, List, OnOk, Some, length, map, replicate, slice_get};
ghost use Rattle.tdf_cluster_net.specs.Numbers.{AllBelow, Rise};
ghost use Rattle.tdf_dynamic_plans.specs.Attributes.{RowsStandOnce};
ghost use Rattle.tdf_dynamic_plans.specs.Rates.{AreRates};
ghost use Rattle.tdf_exec_layout.specs.Traced.{is_trace_of};
ghost use Rattle.tdf_exec.specs.declared.runners.Runner.{Runner as RunnerOf};
ghost use Rattle.tdf_exec.specs.declared.runners.TracedPort.{TracedPort as TracedPortOf};
ghost use Rattle.tdf_exec.specs.machine.Tracing.{AreGivenTraced, AreMarked, AreNumbered, AreTracedUpTo, CanGet, is_written_traced, marked, put_traced, rated, with_traced};
ghost use Rattle.tdf_exec.specs.views.Actors.{spread_runners};
ghost use Rattle.tdf_streams.specs.Places.{place_of_port};
ghost use Rattle.tdf_bind_connections.specs.declared.modules.PortRow.{PortRow as PortRowOf};

use crate::runners::Runner;
use std::alloc::Global;
use std::mem;
use tdf_base::{Memory, row_number};
use tdf_bind::Flat;
use tdf_bind_connections::{PortRow, TraceRow};
use tdf_bind_tables::FlatTables;
use tdf_dynamic_plans::Attrs;
use tdf_exec_layout::port_places;
use tdf_lang_tree::PortKind;

impl TracedPorts {
    fn new(alloc: Global) -> TracedPorts
        ensures { result ≡ [] }
    {
        TracedPorts {
            list: Vec::new(alloc),
        }
    }

    fn put(&mut self, port: TracedPort) -> Result<(), Memory>
        ensures { OnOk result (self.new ≡ self.old ++ port ∷ []) }
    {
        self.list.push(port)?;
        Ok(())
    }
}

/// Marks the signal of a trace, where it is one of samples.
fn mark(marks: &mut Vec<bool>, trace: &TraceRow)
    ensures { marks.new.items ≡ marked trace.now marks.old.items }
{
    if trace.event {
        return;
    }
    if (trace.signal as usize) < marks.len() {
        marks[trace.signal as usize] = true;
    }
}

/// Which signals of samples are traced, by their numbers.
fn marks_of(alloc: Global, tables: &FlatTables) -> Result<Vec<bool>, Memory>
    ensures { IfOk result (λ marks.
        AreMarked tables.now.traces (length tables.now.traces) marks.items) }
{
    let mut marks: Vec<bool> = vec![in alloc; false; tables.signals.len()]?;
    for n in 0..tables.traces.len() {
        mark(&mut marks, &tables.traces[n]);
    }
    Ok(marks)
}

/// Whether a signal of samples is traced; a number beyond the marks is looked for.
fn is_marked(marks: &Vec<bool>, traces: &[TraceRow], signal: u32) -> bool
    requires { AreMarked traces.now (length traces.now) marks.now.items }
    ensures { result ≡ list_any (is_trace_of signal) traces.now }
{
    if (signal as usize) < marks.len() {
        return marks[signal as usize];
    }
    traces
        .iter()
        .any(|trace| !trace.event && trace.signal == signal)
}

/// Whether a port writes a signal of samples which is traced.
fn is_traced(marks: &Vec<bool>, traces: &[TraceRow], port: &PortRow) -> bool
    requires { AreMarked traces.now (length traces.now) marks.now.items }
    ensures { result ≡ is_written_traced traces.now port.now }
{
    match port.kind {
        PortKind::In => false,
        PortKind::Out => is_marked(marks, traces, port.signal),
        PortKind::DeIn => false,
        PortKind::DeOut => false,
    }
}

/// A port comes to its module, if its signal is traced; it has no rate.
fn put_port(
    flat: &Flat,
    marks: &Vec<bool>,
    place: u32,
    n: usize,
    rows: &mut Vec<TracedPorts>,
) -> Result<(), Memory>
    requires marks { AreMarked flat.now.tables.traces (length flat.now.tables.traces) marks.now.items }
    requires number { n < length flat.now.tables.ports }
    requires place { place ≡ place_of_port flat.now.tables.ports n }
    requires rows { length rows.old.items ≡ length flat.now.tables.modules }
    requires modules { All (λ port. port.«module» < length flat.now.tables.modules) flat.now.tables.ports }
    ensures { (port : PortRowOf) → slice_get flat.now.tables.ports n ≡ Some port
        → OnOk result (rows.new.items ≡ put_traced flat.now.tables n port rows.old.items) }
{
    let port = &flat.tables.ports[n];
    if !is_traced(marks, &flat.tables.traces, port) {
        return Ok(());
    }
    let number = row_number(n)?;
    rows[port.module as usize].put(TracedPort {
        number,
        port: place,
        signal: port.signal,
        rate: 0,
    })
}

/// No ports for any of so many modules.
fn no_rows(alloc: Global, count: usize) -> Result<Vec<TracedPorts>, Memory>
    ensures { IfOk result (λ rows. rows.items ≡ replicate count []) }
{
    let mut rows = Vec::with_capacity(alloc, count)?;
    for _ in 0..count {
        rows.push(TracedPorts::new(alloc))?;
    }
    Ok(rows)
}

/// The ports of each module whose signals are traced, by one look at each port; they have no rates.
///
/// # Errors
/// Out of memory.
pub(crate) fn traced_rows(alloc: Global, flat: &Flat) -> Result<Vec<TracedPorts>, Memory>
    requires modules { All (λ port. port.«module» < length flat.now.tables.modules) flat.now.tables.ports }
    ensures { IfOk result (λ rows.
        AreTracedUpTo flat.now.tables (length flat.now.tables.ports) rows.items) }
{
    let marks = marks_of(alloc, &flat.tables)?;
    let places = port_places(alloc, flat.tables.modules.len(), &flat.tables.ports)?;
    let mut rows = no_rows(alloc, flat.tables.modules.len())?;
    for n in 0..flat.tables.ports.len() {
        put_port(flat, &marks, places[n], n, &mut rows)?;
    }
    Ok(rows)
}

/// A traced port with its rate under a table in which each module has one row.
fn rated(tables: &FlatTables, attrs: &Attrs, port: TracedPort) -> TracedPort
    requires rates { AreRates tables.now attrs.now.rows }
    requires once { RowsStandOnce attrs.now.rows }
    requires number { port.number < length tables.now.ports }
    ensures { result ≡ rated tables.now attrs.now.rows port }
{
    TracedPort {
        number: port.number,
        port: port.port,
        signal: port.signal,
        rate: attrs.rate_of_port(tables, port.number),
    }
}

/// Traced ports get their rates under a table in which each module has one row. It takes no memory.
pub(crate) fn rate_ports(tables: &FlatTables, attrs: &Attrs, list: &mut Vec<TracedPort>)
    requires rates { AreRates tables.now attrs.now.rows }
    requires once { RowsStandOnce attrs.now.rows }
    requires numbers { AreNumbered tables.now.ports list.old.items }
    ensures { list.new.items ≡ map (rated tables.now attrs.now.rows) list.old.items }
{
    for j in 0..list.len() {
        list[j] = rated(tables, attrs, list[j]);
    }
}

/// The ports of a row, with their rates under a table in which each module has one row; the row has none after it.
fn taken(
    alloc: Global,
    tables: &FlatTables,
    attrs: &Attrs,
    row: &mut TracedPorts,
) -> Vec<TracedPort>
    requires rates { AreRates tables.now attrs.now.rows }
    requires once { RowsStandOnce attrs.now.rows }
    requires numbers { AreNumbered tables.now.ports row.old }
    ensures { result.items ≡ map (rated tables.now attrs.now.rows) row.old }
{
    let TracedPorts { list } = mem::replace(row, TracedPorts::new(alloc));
    let mut list = list;
    rate_ports(tables, attrs, &mut list);
    list
}

/// A module takes its ports; what isn't a module takes none.
fn give_traced(
    alloc: Global,
    tables: &FlatTables,
    attrs: &Attrs,
    row: &mut TracedPorts,
    runner: &mut Runner,
)
    requires rates { AreRates tables.now attrs.now.rows }
    requires once { RowsStandOnce attrs.now.rows }
    requires can { CanGet tables.now.ports row.old runner.old }
    ensures { runner.new ≡ with_traced (map (rated tables.now attrs.now.rows) row.old)
        runner.old }
{
    match runner {
        Runner::Module(module) => module.rest.traced = taken(alloc, tables, attrs, row),
        Runner::Sampler(_) => {}
        Runner::Sink(_) => {}
        Runner::Outside => {}
    }
}

/// The modules among the actors with these numbers take their ports. What is kept for the actors stands in the order of the numbers.
pub(crate) fn give_all(
    alloc: Global,
    tables: &FlatTables,
    attrs: &Attrs,
    numbers: &[u32],
    rows: &mut Vec<TracedPorts>,
    runners: &mut Vec<Runner>,
)
    requires rates { AreRates tables.now attrs.now.rows }
    requires once { RowsStandOnce attrs.now.rows }
    requires many { length rows.old.items ≤ length tables.now.actors }
    requires long { length runners.old.items ≡ length numbers.now }
    requires within { AllBelow (length tables.now.actors) numbers.now }
    requires rising { Rise numbers.now }
    requires can { (m : ℕ) (list : List TracedPortOf) (r : RunnerOf)
        → slice_get rows.old.items m ≡ Some list
        → slice_get (spread_runners tables.now numbers.now runners.old.items) m ≡ Some r
        → CanGet tables.now.ports list r }
    ensures given { AreGivenTraced tables.now attrs.now.rows numbers.now (length numbers.now)
        rows.old.items rows.new.items
        (spread_runners tables.now numbers.now runners.old.items)
        (spread_runners tables.now numbers.now runners.new.items) }
    ensures same { length runners.new.items ≡ length runners.old.items }
{
    for i in 0..numbers.len() {
        let m = numbers[i] as usize;
        if m >= rows.len() {
            continue;
        }
        let row = &mut rows[m];
        let runner = &mut runners[i];
        give_traced(alloc, tables, attrs, row, runner);
    }
}
