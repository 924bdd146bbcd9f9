//! The net of a cluster, made of its own actors, edges and ports.

ghost use Rattle.std.specs.Prelude.{◌≡◌, ◌<◌, ◌^◌, All, IfOk, length};
ghost use Rattle.tdf_cluster_net.specs.Made.{AreRenamedEdges, AreRenamedPorts, IsEdgeAmong, IsMadeOf, IsPortAmong};

use crate::net::{ClusterNet, own_edge, own_port};
use std::alloc::Global;
use tdf_base::Memory;
use tdf_graph::{Actor, Edge, Net, Port};

/// Edges with numbers of their own.
fn renamed_edges(alloc: Global, numbers: &[u32], edges: &[Edge]) -> Result<Vec<Edge>, Memory>
    requires few { length numbers.now < 2 ^ 32 }
    requires among { All (IsEdgeAmong numbers.now) edges.now }
    ensures { IfOk result (λ own. AreRenamedEdges numbers.now edges.now (length edges.now) own.items) }
{
    let mut own = Vec::with_capacity(alloc, edges.len())?;
    for i in 0..edges.len() {
        let edge = own_edge(numbers, &edges[i]);
        own.push(edge)?;
    }
    Ok(own)
}

/// Ports with the numbers of their own that their actors have.
fn renamed_ports(alloc: Global, numbers: &[u32], ports: &[Port]) -> Result<Vec<Port>, Memory>
    requires few { length numbers.now < 2 ^ 32 }
    requires among { All (IsPortAmong numbers.now) ports.now }
    ensures { IfOk result (λ own. AreRenamedPorts numbers.now ports.now (length ports.now) own.items) }
{
    let mut own = Vec::with_capacity(alloc, ports.len())?;
    for i in 0..ports.len() {
        let port = own_port(numbers, &ports[i]);
        own.push(port)?;
    }
    Ok(own)
}

impl<'g> ClusterNet<'g> {
    /// The net of a cluster's own actors, edges and ports. These edges and ports have the numbers of the whole net still, and the numbers
    /// that all have there are given.
    ///
    /// # Errors
    /// Out of memory.
    pub fn made(
        alloc: Global,
        actor_numbers: &'g [u32],
        edge_numbers: &'g [u32],
        port_numbers: &'g [u32],
        actors: Vec<Actor>,
        edges: &[Edge],
        ports: &[Port],
    ) -> Result<ClusterNet<'g>, Memory>
        requires few_actors { length actor_numbers.now < 2 ^ 32 }
        requires few_edges { length edges.now < 2 ^ 32 }
        requires few_ports { length port_numbers.now < 2 ^ 32 }
        requires actors { length actors.items ≡ length actor_numbers.now }
        requires ports { length ports.now ≡ length port_numbers.now }
        requires edges_among { All (IsEdgeAmong actor_numbers.now) edges.now }
        requires ports_among { All (IsPortAmong actor_numbers.now) ports.now }
        ensures { IfOk result (IsMadeOf (record {
          actor_numbers = actor_numbers.now;
          edge_numbers = edge_numbers.now;
          port_numbers = port_numbers.now;
          actors = actors.items;
          edges = edges.now;
          ports = ports.now;
        })) }
    {
        let own_edges = renamed_edges(alloc, actor_numbers, edges)?;
        let own_ports = renamed_ports(alloc, actor_numbers, ports)?;
        let net = Net {
            actors,
            edges: own_edges,
            ports: own_ports,
        };
        Ok(ClusterNet {
            net,
            actors: actor_numbers,
            edges: edge_numbers,
            ports: port_numbers,
        })
    }
}
