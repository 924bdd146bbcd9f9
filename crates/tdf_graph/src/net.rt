//! A net, whose actors and rates are in range.

ghost use Rattle.std.specs.Prelude.{◌≡◌, ◌<◌, ◌^◌, ◌↔◌, length, vec_len, All, IsTrue, IsSome, IfSome};
ghost use Rattle.tdf_graph.specs.Ranges.{IsRate, IsEdge, IsGraphPort, IsGraphInRange};

use crate::actors::{Actor, Edge, Port};
use tdf_base::{GREATEST_DELAY, GREATEST_RATE};

/// Actors, the edges between them, and the ports of the modules by module and declaration. Every number is in range.
#[derive(Drop)]
pub struct Net {
    /// The actors, by number.
    pub actors: Vec<Actor>,
    /// The edges, by number.
    pub edges: Vec<Edge>,
    /// The ports of the modules, by module and declaration.
    pub ports: Vec<Port>,
    pub ghost in_range: { IsGraphInRange (vec_len actors) edges.items ports.items },
    pub ghost few_actors: { vec_len actors < 2 ^ 32 },
    pub ghost few_edges: { vec_len edges < 2 ^ 32 },
    pub ghost few_ports: { vec_len ports < 2 ^ 32 },
}

fn is_rate(rate: u32) -> bool
    ensures { IsTrue result ↔ IsRate rate }
{
    1 <= rate && u64::from(rate) <= GREATEST_RATE
}

fn is_edge(count: usize, edge: &Edge) -> bool
    ensures { IsTrue result ↔ IsEdge count edge.now }
{
    (edge.writer as usize) < count
        && (edge.reader as usize) < count
        && is_rate(edge.write_rate)
        && is_rate(edge.read_rate)
        && u64::from(edge.initial) <= 2 * GREATEST_DELAY
}

fn is_port(count: usize, port: &Port) -> bool
    ensures { IsTrue result ↔ IsGraphPort count port.now }
{
    (port.actor as usize) < count && is_rate(port.rate)
}

fn are_edges(count: usize, edges: &[Edge]) -> bool
    ensures { IsTrue result ↔ All (IsEdge count) edges.now }
{
    edges.iter().all(|edge| is_edge(count, edge))
}

fn are_ports(count: usize, ports: &[Port]) -> bool
    ensures { IsTrue result ↔ All (IsGraphPort count) ports.now }
{
    ports.iter().all(|port| is_port(count, port))
}

impl Net {
    /// The net of these lists. `None` exactly where an actor's number is out of range, a rate is outside 1 to 4,096, or an
    /// edge has more than 131,072 initial samples. It takes no memory.
    pub fn new(actors: Vec<Actor>, edges: Vec<Edge>, ports: Vec<Port>) -> Option<Net>
        requires actors { vec_len actors < 2 ^ 32 }
        requires edges { vec_len edges < 2 ^ 32 }
        requires ports { vec_len ports < 2 ^ 32 }
        ensures in_range { IsSome result ↔ IsGraphInRange (vec_len actors) edges.items ports.items }
        ensures actors { IfSome result (λ net. net.actors.items ≡ actors.items) }
        ensures edges { IfSome result (λ net. net.edges.items ≡ edges.items) }
        ensures ports { IfSome result (λ net. net.ports.items ≡ ports.items) }
    {
        if !are_edges(actors.len(), &edges) || !are_ports(actors.len(), &ports) {
            drop(actors);
            drop(edges);
            drop(ports);
            return None;
        }
        Some(Net {
            actors,
            edges,
            ports,
        })
    }

    /// The actors, by number.
    pub fn actors(&self) -> &[Actor]
        ensures { result.now ≡ self.now.actors.items }
    {
        &self.actors
    }

    /// The edges, by number.
    pub fn edges(&self) -> &[Edge]
        ensures { result.now ≡ self.now.edges.items }
    {
        &self.edges
    }

    /// The ports of the modules, by module and declaration.
    pub fn ports(&self) -> &[Port]
        ensures { result.now ≡ self.now.ports.items }
    {
        &self.ports
    }
}
