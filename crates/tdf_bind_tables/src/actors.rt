//! Modules, samplers and sinks, with their clusters.

ghost use Rattle.std.specs.List.{cons_option, range_with_len};
ghost use Rattle.std.specs.Prelude.{◌≡◌, ◌+◌, ◌++◌, [], IfOk, OnOk, map, length, All};
ghost use Rattle.tdf_graph.specs.Ranges.{IsEdge};
ghost use Rattle.tdf_bind_tables.specs.Actors.{module_actor, port_actor, actor_places, actor_place, cluster_of, net_edge, AreActors, AreActorEdges};
ghost use Rattle.tdf_bind_tables.specs.machine.ActorSteps.{event_actors};
ghost use Rattle.tdf_graph.specs.Clusters.{AreClusters};

use std::alloc::Global;
use tdf_base::{Memory, row_number};
use tdf_bind_connections::{EdgeRow, PortRow};
use tdf_graph::{Actor, Edge, Net, clusters};
use tdf_lang_tree::PortKind;

/// An actor: a module, or the sampler or sink at a port of a module. The modules come first, then the samplers and sinks in
/// the order of their ports.
#[derive(Clone, Copy, Debug)]
pub struct ActorRow {
    /// What it is.
    pub kind: Actor,
    /// The number of the module.
    pub module: u32,
    /// The number of the port, 0 for a module.
    pub port: u32,
    /// The number of its cluster, from 1.
    pub cluster: u32,
}

/// An actor before its cluster is known.
#[derive(Clone, Copy, Debug)]
pub struct ActorPlace {
    /// What it is.
    pub kind: Actor,
    /// The number of the module.
    pub module: u32,
    /// The number of the port, 0 for a module.
    pub port: u32,
}

fn module_places(alloc: Global, modules: usize) -> Result<Vec<ActorPlace>, Memory>
    ensures { IfOk result (λ places. places.items ≡ map module_actor (range_with_len 0 modules)) }
{
    let mut places = Vec::new(alloc);
    for number in 0..modules {
        places.push(ActorPlace {
            kind: Actor::Module,
            module: row_number(number)?,
            port: 0,
        })?;
    }
    Ok(places)
}

fn port_actor(number: usize, port: &PortRow) -> Result<Option<ActorPlace>, Memory>
    ensures { IfOk result (λ place. place ≡ port_actor number port.now) }
{
    match port.kind {
        PortKind::In => Ok(None),
        PortKind::Out => Ok(None),
        PortKind::DeIn => Ok(Some(ActorPlace {
            kind: Actor::Sampler,
            module: port.module,
            port: row_number(number)?,
        })),
        PortKind::DeOut => Ok(Some(ActorPlace {
            kind: Actor::Sink,
            module: port.module,
            port: row_number(number)?,
        })),
    }
}

fn put_place(places: &mut Vec<ActorPlace>, place: Option<ActorPlace>) -> Result<(), Memory>
    ensures { OnOk result (places.new.items ≡ places.old.items ++ cons_option place []) }
{
    match place {
        None => Ok(()),
        Some(place) => {
            places.push(place)?;
            Ok(())
        }
    }
}

fn put_places(places: &mut Vec<ActorPlace>, ports: &[PortRow]) -> Result<(), Memory>
    ensures { OnOk result (places.new.items ≡ places.old.items ++ event_actors ports.now) }
{
    for number in 0..ports.len() {
        let place = port_actor(number, &ports[number])?;
        put_place(places, place)?;
    }
    Ok(())
}

fn places_of(alloc: Global, modules: usize, ports: &[PortRow]) -> Result<Vec<ActorPlace>, Memory>
    ensures { IfOk result (λ places. places.items ≡ actor_places modules ports.now) }
{
    let mut places = module_places(alloc, modules)?;
    put_places(&mut places, ports)?;
    Ok(places)
}

fn actor_row(place: ActorPlace, cluster: u32) -> ActorRow
    ensures place { actor_place result ≡ place }
    ensures cluster { cluster_of result ≡ cluster }
{
    ActorRow {
        kind: place.kind,
        module: place.module,
        port: place.port,
        cluster,
    }
}

fn rows_of(alloc: Global, places: &[ActorPlace], numbers: &[u32]) -> Result<Vec<ActorRow>, Memory>
    requires { length numbers.now ≡ length places.now }
    ensures places { IfOk result (λ rows. map actor_place rows.items ≡ places.now) }
    ensures clusters { IfOk result (λ rows. map cluster_of rows.items ≡ numbers.now) }
{
    let mut rows = Vec::new(alloc);
    for i in 0..places.len() {
        rows.push(actor_row(places[i], numbers[i]))?;
    }
    Ok(rows)
}

fn kinds_of(alloc: Global, places: &[ActorPlace]) -> Result<Vec<Actor>, Memory>
    ensures { IfOk result (λ kinds. length kinds.items ≡ length places.now) }
{
    let mut kinds = Vec::new(alloc);
    for i in 0..places.len() {
        kinds.push(places[i].kind)?;
    }
    Ok(kinds)
}

fn net_edge(edge: EdgeRow) -> Edge
    ensures { result ≡ net_edge edge }
{
    Edge {
        writer: edge.writer,
        reader: edge.reader,
        write_rate: 1,
        read_rate: 1,
        initial: edge.initial,
    }
}

fn net_edges(alloc: Global, edges: &[EdgeRow]) -> Result<Vec<Edge>, Memory>
    ensures { IfOk result (λ net. net.items ≡ map net_edge edges.now) }
{
    let mut net = Vec::new(alloc);
    for i in 0..edges.len() {
        net.push(net_edge(edges[i]))?;
    }
    Ok(net)
}

fn clusters_of(alloc: Global, places: &[ActorPlace], edges: &[EdgeRow]) -> Result<Vec<u32>, Memory>
    requires { All (IsEdge (length places.now)) (map net_edge edges.now) }
    ensures { IfOk result (λ numbers. AreClusters (length places.now) (map net_edge edges.now) numbers.items) }
{
    let actors = kinds_of(alloc, places)?;
    let net_edges = net_edges(alloc, edges)?;
    row_number(actors.len())?;
    row_number(net_edges.len())?;
    let net = Net::new(actors, net_edges, Vec::new(alloc)).unwrap();
    clusters(alloc, &net)
}

/// The actors of a model, where there are `modules` modules, with the clusters that the edges make of them.
///
/// # Errors
/// Out of memory.
pub fn actors_of(
    alloc: Global,
    modules: usize,
    ports: &[PortRow],
    edges: &[EdgeRow],
) -> Result<Vec<ActorRow>, Memory>
    requires { AreActorEdges modules ports.now edges.now }
    ensures { IfOk result (λ rows. AreActors modules ports.now edges.now rows.items) }
{
    let places = places_of(alloc, modules, ports)?;
    let numbers = clusters_of(alloc, &places, edges)?;
    rows_of(alloc, &places, &numbers)
}
