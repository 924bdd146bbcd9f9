//! All tables of a model, or the first fault of binding.

ghost use Rattle.std.specs.List.{AllZip};
ghost use Rattle.std.specs.Prelude.{◌≡◌, ◌<◌, ◌↔◌, [], Some, IfOk, OnOk, IfErr, IsTrue, All, length, map, max};
ghost use Rattle.tdf_base.specs.Limits.{most_clusters};
ghost use Rattle.tdf_bind_tables.specs.Actors.{cluster_of, AreActors};
ghost use Rattle.tdf_bind_tables.specs.FlatTables.{path_of, path_at, driver_report, trace_report, clusters_report, AreShort, FollowsFrom, IsFlat, IsFlatRefusal, ports_in};
ghost use Rattle.tdf_bind_tables.specs.machine.FlatSteps.{IsDriverErr, IsTraceErr, IsDriverFault, IsTraceFault, IsFirstErr, assembled, IsAssembled, IsGraphErr};
ghost use Rattle.tdf_bind_tables.specs.declared.flat.BindErr.TheVariants as why;
ghost use Rattle.tdf_graph.specs.Clusters.{greatest};
ghost use Rattle.tdf_bind_hierarchy.specs.Bound.{AreBound};
ghost use Rattle.tdf_bind_hierarchy.specs.Laws.{IsInRange};
ghost use Rattle.tdf_bind_hierarchy.specs.Tables.{table};
ghost use Rattle.tdf_bind_connections.specs.Drivers.{writers_in, misdriven, AreSignals};
ghost use Rattle.tdf_bind_connections.specs.Edges.{HasShortDelay, edges_of};
ghost use Rattle.tdf_bind_connections.specs.Modules.{AreModules};
ghost use Rattle.tdf_bind_connections.specs.ProcessBlocks.{AreProcessBlocks};
ghost use Rattle.tdf_bind_connections.specs.Traces.{IsTraceOf, unknown_lines};

use crate::actors::{ActorRow, actors_of};
use std::alloc::Global;
use std::marker::Model;
use tdf_base::{Code, Fault, MOST_CLUSTERS, Memory, Path, Place};
use tdf_bind_connections::{
    BlockRow, DriverErr, DriverFault, EdgeRow, EventRow, ModuleRow, Modules, PortRow,
    ProcessBlocks, ProcessRow, Role, SignalRow, Signals, TraceErr, TraceLine, TraceRow, connect,
    edges_of, modules_of, process_blocks_of, traces_of,
};
use tdf_bind_hierarchy::{Block, Signal, SignalNumber, Tables, law_numbers, tables_of};

/// The flat model: all instances, signals, actors, edges, processes, events and traces.
#[derive(Drop)]
pub struct FlatTables {
    /// The modules, in preorder.
    pub modules: Vec<ModuleRow>,
    /// The ports of the modules, by module and declaration.
    pub ports: Vec<PortRow>,
    /// The modules, then the samplers and sinks by port.
    pub actors: Vec<ActorRow>,
    /// The edges, by the port that gives each.
    pub edges: Vec<EdgeRow>,
    /// The signals of samples, in preorder.
    pub signals: Vec<SignalRow>,
    /// The event signals, in preorder.
    pub de_signals: Vec<SignalRow>,
    /// The instances of blocks of processes, in preorder.
    pub blocks: Vec<BlockRow>,
    /// Their processes, by instance and declaration.
    pub processes: Vec<ProcessRow>,
    /// Their events, by instance and declaration.
    pub events: Vec<EventRow>,
    /// The traces, by line.
    pub traces: Vec<TraceRow>,
}

impl Model for FlatTables {
    ghost use Rattle.tdf_bind_tables.specs.FlatTables.{FlatTablesOf};

    ghost Value = { FlatTablesOf };

    ghost view = { λ a. record {
      modules = a.modules.items;
      ports = a.ports.items;
      actors = a.actors.items;
      edges = a.edges.items;
      signals = a.signals.items;
      de_signals = a.de_signals.items;
      blocks = a.blocks.items;
      processes = a.processes.items;
      events = a.events.items;
      traces = a.traces.items;
    } };
}

/// Why a model is not bound.
#[derive(Drop)]
pub enum BindErr {
    /// The first fault.
    Refused(Fault),
    /// Out of memory.
    Memory,
}

impl From<Memory> for BindErr {
    ghost use Rattle.std.specs.Prelude.{◌≡◌};
    ghost use Rattle.tdf_bind_tables.specs.declared.flat.BindErr.TheVariants as why;

    ghost from_gives = { λ _ e. e ≡ why.Memory };

    fn from(_refused: Memory) -> BindErr {
        BindErr::Memory
    }
}

fn path_in(alloc: Global, signals: &[Signal], number: usize) -> Result<Path, Memory>
    ensures { IfOk result (λ path. path ≡ path_of signals.now number) }
{
    if number < signals.len() {
        return signals[number].path.text(alloc);
    }
    Ok(Path::new(Vec::new(alloc)))
}

fn path_at(alloc: Global, tables: &Tables, number: SignalNumber) -> Result<Path, Memory>
    ensures { IfOk result (λ path. path ≡ path_at tables.now number) }
{
    if number.event {
        return path_in(alloc, &tables.event_signals, number.number);
    }
    path_in(alloc, &tables.signals, number.number)
}

fn driver_report(alloc: Global, tables: &Tables, fault: DriverFault) -> Result<Fault, Memory>
    ensures { IfOk result (λ report. report ≡ driver_report tables.now fault) }
{
    Ok(Fault {
        code: fault.code,
        place: Place::At(path_at(alloc, tables, fault.signal)?),
    })
}

fn driver_error(alloc: Global, tables: &Tables, error: DriverErr) -> BindErr
    ensures { IsDriverErr tables.now error result }
{
    match error {
        DriverErr::Memory => BindErr::Memory,
        DriverErr::Refused(fault) => match driver_report(alloc, tables, fault) {
            Ok(report) => BindErr::Refused(report),
            Err(_) => BindErr::Memory,
        },
    }
}

fn trace_error(error: TraceErr) -> BindErr
    ensures { IsTraceErr error result }
{
    match error {
        TraceErr::Memory => BindErr::Memory,
        TraceErr::Unknown(line) => BindErr::Refused(Fault {
            code: Code::UnknownPath,
            place: Place::Line(line),
        }),
    }
}

fn signals_or(
    alloc: Global,
    tables: &Tables,
    roles: &[Role],
    ports: &[PortRow],
) -> Result<Signals, BindErr>
    requires in_range { All (IsInRange tables.now) tables.now.order }
    ensures signals { IfOk result (AreSignals (writers_in roles.now tables.now ports.now) tables.now.signals tables.now.event_signals) }
    ensures fine { OnOk result (misdriven roles.now tables.now ports.now ≡ []) }
    ensures refused { IfErr result (IsDriverFault tables.now (misdriven roles.now tables.now ports.now)) }
{
    match connect(alloc, roles, tables, ports) {
        Ok(signals) => Ok(signals),
        Err(error) => Err(driver_error(alloc, tables, error)),
    }
}

fn traces_or(alloc: Global, tables: &Tables, lines: &[TraceLine]) -> Result<Vec<TraceRow>, BindErr>
    ensures traces { IfOk result (λ rows. AllZip (IsTraceOf tables.now) rows.items lines.now) }
    ensures fine { OnOk result (unknown_lines tables.now lines.now ≡ []) }
    ensures refused { IfErr result (IsTraceFault (unknown_lines tables.now lines.now)) }
{
    match traces_of(alloc, tables, lines) {
        Ok(rows) => Ok(rows),
        Err(error) => Err(trace_error(error)),
    }
}

/// The greatest number of a cluster.
pub(crate) fn cluster_count(actors: &[ActorRow]) -> u32
    ensures { result ≡ greatest (map cluster_of actors.now) }
{
    let mut most = 0;
    for i in 0..actors.len() {
        most = actors[i].cluster.max(most);
    }
    most
}

fn has_many_clusters(actors: &[ActorRow]) -> bool
    ensures { IsTrue result ↔ most_clusters < greatest (map cluster_of actors.now) }
{
    cluster_count(actors) as usize > MOST_CLUSTERS
}

/// The edges of a model and its actors.
#[derive(Drop)]
struct Graph {
    edges: Vec<EdgeRow>,
    actors: Vec<ActorRow>,
}

fn graph_of(
    alloc: Global,
    modules: usize,
    signals: &[SignalRow],
    ports: &[PortRow],
) -> Result<Graph, Memory>
    requires short { All HasShortDelay ports.now }
    requires own { All (λ port. port.«module» < modules) ports.now }
    ensures edges { IfOk result (λ graph. graph.edges.items ≡ edges_of modules signals.now ports.now) }
    ensures actors { IfOk result (λ graph. AreActors modules ports.now graph.edges.items graph.actors.items) }
{
    let edges = edges_of(alloc, modules, signals, ports)?;
    let actors = actors_of(alloc, modules, ports, &edges)?;
    Ok(Graph { edges, actors })
}

/// The signals and the traces of a model.
#[derive(Drop)]
struct Wires {
    signals: Signals,
    traces: Vec<TraceRow>,
}

fn wires_of(
    alloc: Global,
    tables: &Tables,
    roles: &[Role],
    lines: &[TraceLine],
    ports: &[PortRow],
) -> Result<Wires, BindErr>
    requires in_range { All (IsInRange tables.now) tables.now.order }
    requires ports { ports.now ≡ ports_in roles.now tables.now }
    ensures signals { IfOk result (λ wires. AreSignals (writers_in roles.now tables.now ports.now) tables.now.signals tables.now.event_signals wires.signals) }
    ensures traces { IfOk result (λ wires. AllZip (IsTraceOf tables.now) wires.traces.items lines.now) }
    ensures drivers { OnOk result (misdriven roles.now tables.now ports.now ≡ []) }
    ensures known { OnOk result (unknown_lines tables.now lines.now ≡ []) }
    ensures refused { IfErr result (IsFirstErr roles.now tables.now lines.now) }
{
    match signals_or(alloc, tables, roles, ports) {
        Err(error) => Err(error),
        Ok(signals) => match traces_or(alloc, tables, lines) {
            Ok(traces) => Ok(Wires { signals, traces }),
            Err(error) => {
                drop(signals);
                Err(error)
            }
        },
    }
}

fn wires_in(
    alloc: Global,
    tables: &Tables,
    roles: &[Role],
    lines: &[TraceLine],
    modules: &Modules,
) -> Result<Wires, BindErr>
    requires in_range { All (IsInRange tables.now) tables.now.order }
    requires ports { modules.now.ports ≡ ports_in roles.now tables.now }
    ensures signals { IfOk result (λ wires. AreSignals (writers_in roles.now tables.now modules.now.ports) tables.now.signals tables.now.event_signals wires.signals) }
    ensures traces { IfOk result (λ wires. AllZip (IsTraceOf tables.now) wires.traces.items lines.now) }
    ensures drivers { OnOk result (misdriven roles.now tables.now modules.now.ports ≡ []) }
    ensures known { OnOk result (unknown_lines tables.now lines.now ≡ []) }
    ensures refused { IfErr result (IsFirstErr roles.now tables.now lines.now) }
{
    wires_of(alloc, tables, roles, lines, &modules.ports)
}

/// The tables in one.
fn assembled(modules: Modules, blocks: ProcessBlocks, wires: Wires, graph: Graph) -> FlatTables
    ensures { result ≡ assembled modules blocks wires.signals wires.traces.items graph.edges.items graph.actors.items }
{
    FlatTables {
        modules: modules.modules,
        ports: modules.ports,
        actors: graph.actors,
        edges: graph.edges,
        signals: wires.signals.signals,
        de_signals: wires.signals.de_signals,
        blocks: blocks.blocks,
        processes: blocks.processes,
        events: blocks.events,
        traces: wires.traces,
    }
}

fn too_many_clusters() -> BindErr
    ensures { result ≡ why.Refused clusters_report }
{
    BindErr::Refused(Fault {
        code: Code::Clusters,
        place: Place::Nowhere,
    })
}

fn with_graph(
    alloc: Global,
    modules: Modules,
    blocks: ProcessBlocks,
    wires: Wires,
) -> Result<FlatTables, BindErr>
    requires short { All HasShortDelay modules.ports }
    requires own { All (λ port. port.«module» < length modules.modules) modules.ports }
    ensures flat { IfOk result (IsAssembled modules blocks wires.signals wires.traces.items) }
    ensures refused { IfErr result (IsGraphErr modules wires.signals) }
{
    match graph_of(
        alloc,
        modules.modules.len(),
        &wires.signals.signals,
        &modules.ports,
    ) {
        Err(_) => {
            drop(modules);
            drop(blocks);
            drop(wires);
            Err(BindErr::Memory)
        }
        Ok(graph) => {
            if has_many_clusters(&graph.actors) {
                drop(modules);
                drop(blocks);
                drop(wires);
                drop(graph);
                return Err(too_many_clusters());
            }
            Ok(assembled(modules, blocks, wires, graph))
        }
    }
}

fn modules_in(alloc: Global, tables: &Tables, roles: &[Role]) -> Result<Modules, Memory>
    ensures { IfOk result (λ modules. AreModules roles.now tables.now.instances modules) }
{
    modules_of(alloc, roles, &tables.instances)
}

fn blocks_in(alloc: Global, tables: &Tables, roles: &[Role]) -> Result<ProcessBlocks, Memory>
    ensures { IfOk result (λ blocks. AreProcessBlocks roles.now tables.now.instances blocks) }
{
    process_blocks_of(alloc, roles, &tables.instances)
}

fn flat_in(
    alloc: Global,
    tables: &Tables,
    roles: &[Role],
    lines: &[TraceLine],
) -> Result<FlatTables, BindErr>
    requires in_range { All (IsInRange tables.now) tables.now.order }
    requires short { AreShort roles.now }
    ensures flat { IfOk result (FollowsFrom tables.now roles.now lines.now) }
    ensures refused { IfErr result (IsFirstErr roles.now tables.now lines.now) }
{
    let modules = modules_in(alloc, tables, roles)?;
    let blocks = blocks_in(alloc, tables, roles)?;
    match wires_in(alloc, tables, roles, lines, &modules) {
        Err(error) => {
            drop(modules);
            drop(blocks);
            Err(error)
        }
        Ok(wires) => with_graph(alloc, modules, blocks, wires),
    }
}

/// The flat model of resolved blocks, where `top` is the place of the outermost one, `roles` says what each block is, and
/// `lines` ask for traces.
///
/// # Errors
/// The first fault: of drivers in preorder of the signals, then of traces by line, then of the number of clusters; or out of
/// memory.
pub fn flat_of(
    alloc: Global,
    blocks: &[Block],
    top: usize,
    roles: &[Role],
    lines: &[TraceLine],
) -> Result<FlatTables, BindErr>
    requires bound { AreBound blocks.now top }
    requires short { AreShort roles.now }
    ensures flat { IfOk result (IsFlat blocks.now top roles.now lines.now) }
    ensures refused { IfErr result (IsFlatRefusal blocks.now top roles.now lines.now) }
{
    law_numbers();
    let tables = tables_of(alloc, blocks, top)?;
    let flat = flat_in(alloc, &tables, roles, lines);
    drop(tables);
    flat
}
