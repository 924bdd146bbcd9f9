//! The net of one cluster.

use std::marker::Model;
use tdf_graph::Net;

/// The net of one cluster: actors, edges and ports by numbers of its own, and the numbers that they have in the whole net.
#[derive(Drop)]
pub struct ClusterNet<'g> {
    pub(crate) net: Net,
    pub(crate) actors: &'g [u32],
    pub(crate) edges: &'g [u32],
    pub(crate) ports: &'g [u32],
}

impl<'g> Model for ClusterNet<'g> {
    ghost use Rattle.std.specs.Prelude.{◌≡◌, length};
    ghost use Rattle.tdf_cluster_net.specs.Own.{HasFewNumbers, OwnOf};

    ghost Value = { OwnOf };

    ghost view = { λ a. record {
      actors = a.net.actors.items;
      edges = a.net.edges.items;
      ports = a.net.ports.items;
      actor_numbers = a.actors.now;
      edge_numbers = a.edges.now;
      port_numbers = a.ports.now;
    } };

    ghost invariant = { λ a. HasFewNumbers (record {
      actors = a.net.actors.items;
      edges = a.net.edges.items;
      ports = a.net.ports.items;
      actor_numbers = a.actors.now;
      edge_numbers = a.edges.now;
      port_numbers = a.ports.now;
    }) };
}

ghost use Rattle.std.specs.Prelude.{◌≡◌, ◌<◌, ◌^◌, length};
ghost use Rattle.tdf_cluster_net.specs.Numbers.{IsAmong};
ghost use Rattle.tdf_cluster_net.specs.Own.{whole_edge, whole_port};

use crate::numbers::place_of;
use tdf_graph::{Edge, Port};

/// An edge of the cluster with numbers of its own.
pub(crate) fn own_edge(numbers: &[u32], edge: &Edge) -> Edge
    requires few { length numbers.now < 2 ^ 32 }
    requires writer { IsAmong numbers.now edge.now.writer }
    requires reader { IsAmong numbers.now edge.now.reader }
    ensures whole { whole_edge numbers.now result ≡ edge.now }
    ensures writer { result.writer < length numbers.now }
    ensures reader { result.reader < length numbers.now }
{
    Edge {
        writer: place_of(numbers, edge.writer),
        reader: place_of(numbers, edge.reader),
        write_rate: edge.write_rate,
        read_rate: edge.read_rate,
        initial: edge.initial,
    }
}

/// A port of the cluster with the number of its own that its actor has.
pub(crate) fn own_port(numbers: &[u32], port: &Port) -> Port
    requires few { length numbers.now < 2 ^ 32 }
    requires actor { IsAmong numbers.now port.now.actor }
    ensures whole { whole_port numbers.now result ≡ port.now }
    ensures actor { result.actor < length numbers.now }
{
    Port {
        actor: place_of(numbers, port.actor),
        rate: port.rate,
    }
}
