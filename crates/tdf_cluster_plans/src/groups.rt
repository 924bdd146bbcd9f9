//! The things of a model by cluster.

use std::marker::Model;
use tdf_cluster_net::Groups;

/// For each cluster of a model the numbers of its actors, edges and ports; and for each actor those of its ports.
#[derive(Drop)]
pub struct TableGroups {
    actors: Groups,
    edges: Groups,
    ports: Groups,
    actor_ports: Groups,
}

impl Model for TableGroups {
    ghost use Rattle.tdf_cluster_plans.specs.Groups.{TableGroupsOf};

    ghost Value = { TableGroupsOf };

    ghost view = { λ a. record { actors = a.actors; edges = a.edges; ports = a.ports; actor_ports = a.actor_ports } };
}

ghost use Rattle.std.specs.Prelude.{◌≡◌, ◌<◌, ◌≤◌, [], All, IfOk, length, map, slice_index_or};
ghost use Rattle.tdf_cluster_plans.specs.Groups.{AreTableGroups, edge_cluster, port_cluster};
ghost use Rattle.tdf_dynamic_plans.specs.Attributes.{clusters_of};
ghost use Rattle.tdf_dynamic_plans.specs.Rates.{IsWired};
ghost use Rattle.tdf_graph.specs.Clusters.{greatest};

use std::alloc::Global;
use std::rc::Rc;
use tdf_base::{Memory, row_number};
use tdf_bind_connections::{EdgeRow, PortRow};
use tdf_bind_tables::FlatTables;
use tdf_dynamic_plans::clusters_of;

/// The clusters of edges.
fn edge_clusters(alloc: Global, edges: &[EdgeRow], clusters: &[u32]) -> Result<Vec<u32>, Memory>
    requires { All (λ edge. edge.writer < length clusters.now) edges.now }
    ensures { IfOk result (λ of. of.items ≡ map (edge_cluster clusters.now) edges.now) }
{
    let mut of = Vec::with_capacity(alloc, edges.len())?;
    for i in 0..edges.len() {
        of.push(clusters[edges[i].writer as usize])?;
    }
    Ok(of)
}

/// The clusters of ports.
fn port_clusters(alloc: Global, ports: &[PortRow], clusters: &[u32]) -> Result<Vec<u32>, Memory>
    requires { All (λ port. port.«module» < length clusters.now) ports.now }
    ensures { IfOk result (λ of. of.items ≡ map (port_cluster clusters.now) ports.now) }
{
    let mut of = Vec::with_capacity(alloc, ports.len())?;
    for i in 0..ports.len() {
        of.push(clusters[ports[i].module as usize])?;
    }
    Ok(of)
}

/// The modules of ports.
fn port_modules(alloc: Global, ports: &[PortRow]) -> Result<Vec<u32>, Memory>
    ensures { IfOk result (λ of. of.items ≡ map (λ port. port.«module») ports.now) }
{
    let mut of = Vec::with_capacity(alloc, ports.len())?;
    for i in 0..ports.len() {
        of.push(ports[i].module)?;
    }
    Ok(of)
}

/// The things with these numbers have their places in the list: a map of places, which `tdf_places` tests before it takes it.
fn put_places(places: &mut Vec<u32>, numbers: &[u32]) -> Result<(), Memory> {
    for i in 0..numbers.len() {
        let number = numbers[i] as usize;
        if number < places.len() {
            places[number] = row_number(i)?;
        }
    }
    Ok(())
}

/// For each of `count` things its place in the list of its own cluster.
fn places_in(alloc: Global, groups: &Groups, count: usize) -> Result<Rc<Vec<u32>>, Memory> {
    let mut places: Vec<u32> = vec![in alloc; 0; count]?;
    for cluster in 0..groups.count() {
        put_places(&mut places, groups.group(row_number(cluster)?))?;
    }
    Ok(Rc::new(alloc, places)?)
}

impl TableGroups {
    /// The things of a model by cluster, of which there are `count`.
    ///
    /// # Errors
    /// Out of memory.
    pub fn of(alloc: Global, tables: &FlatTables, count: u32) -> Result<TableGroups, Memory>
        requires wired { IsWired tables.now }
        requires count { greatest (clusters_of tables.now) ≤ count }
        ensures { IfOk result (AreTableGroups tables.now) }
    {
        row_number(tables.actors.len())?;
        row_number(tables.edges.len())?;
        row_number(tables.ports.len())?;
        let count = count as usize + 1;
        let clusters = clusters_of(alloc, tables)?;
        let of_edges = edge_clusters(alloc, &tables.edges, &clusters)?;
        let of_ports = port_clusters(alloc, &tables.ports, &clusters)?;
        let actors = Groups::of(alloc, count, &clusters)?;
        let edges = Groups::of(alloc, count, &of_edges)?;
        let ports = Groups::of(alloc, count, &of_ports)?;
        let modules = port_modules(alloc, &tables.ports)?;
        let actor_ports = Groups::of(alloc, tables.actors.len(), &modules)?;
        Ok(TableGroups {
            actors,
            edges,
            ports,
            actor_ports,
        })
    }

    /// The number that those of all clusters are below.
    pub fn count(&self) -> usize
        ensures { result ≡ length self.now.actors }
    {
        self.actors.count()
    }

    /// The numbers of the actors of a cluster.
    pub fn actors(&self, cluster: u32) -> &[u32]
        requires { cluster < length self.now.actors }
        ensures { result.now ≡ slice_index_or self.now.actors cluster [] }
    {
        self.actors.group(cluster)
    }

    /// The numbers of its edges.
    pub fn edges(&self, cluster: u32) -> &[u32]
        requires { cluster < length self.now.edges }
        ensures { result.now ≡ slice_index_or self.now.edges cluster [] }
    {
        self.edges.group(cluster)
    }

    /// The place of each of `count` actors in the list of its cluster. All clusters share it.
    ///
    /// # Errors
    /// Out of memory.
    pub fn actor_places(&self, alloc: Global, count: usize) -> Result<Rc<Vec<u32>>, Memory> {
        places_in(alloc, &self.actors, count)
    }

    /// The same of edges.
    ///
    /// # Errors
    /// Out of memory.
    pub fn edge_places(&self, alloc: Global, count: usize) -> Result<Rc<Vec<u32>>, Memory> {
        places_in(alloc, &self.edges, count)
    }

    /// The numbers of its ports.
    pub fn ports(&self, cluster: u32) -> &[u32]
        requires { cluster < length self.now.ports }
        ensures { result.now ≡ slice_index_or self.now.ports cluster [] }
    {
        self.ports.group(cluster)
    }

    /// For each actor the numbers of its ports.
    pub fn ports_by_actor(&self) -> &Groups
        ensures { result.now ≡ self.now.actor_ports }
    {
        &self.actor_ports
    }
}
