//! What is a cluster's own under a table: its actors, edges and ports, with the numbers of the whole model.

ghost use Rattle.std.specs.Prelude.{◌≡◌, All, IfOk, length, map, true};
ghost use Rattle.tdf_cluster_net.specs.Made.{ArePickedOf};
ghost use Rattle.tdf_cluster_net.specs.Numbers.{AllBelow};
ghost use Rattle.tdf_dynamic_plans.specs.Attributes.{RowsStandOnce};
ghost use Rattle.tdf_dynamic_plans.specs.Rates.{AreRates, net_ports, port_rate, rated_edge, rated_port};
ghost use Rattle.tdf_graph.specs.Ranges.{IsRate};

use std::alloc::Global;
use tdf_base::Memory;
use tdf_bind_connections::PortRow;
use tdf_bind_tables::{ActorRow, FlatTables};
use tdf_dynamic_plans::{ModuleAttrs, edge_under, port_under};
use tdf_graph::{Actor, Edge, Port};

fn kind_of(actor: &ActorRow) -> Actor
    ensures { result ≡ actor.now.kind }
{
    actor.kind
}

/// The kinds of the actors with these numbers.
pub(crate) fn own_actors(
    alloc: Global,
    actors: &[ActorRow],
    numbers: &[u32],
) -> Result<Vec<Actor>, Memory>
    requires { AllBelow (length actors.now) numbers.now }
    ensures { IfOk result (λ own. ArePickedOf (map (λ row. row.kind) actors.now) numbers.now
        (length numbers.now) own.items) }
{
    let mut own = Vec::with_capacity(alloc, numbers.len())?;
    for i in 0..numbers.len() {
        own.push(kind_of(&actors[numbers[i] as usize]))?;
    }
    Ok(own)
}

/// The ports with these numbers, with their rates. It is known or not that each module has one row.
pub(crate) fn own_ports(
    alloc: Global,
    table: &[ModuleAttrs],
    once: bool,
    ports: &[PortRow],
    numbers: &[u32],
) -> Result<Vec<Port>, Memory>
    requires inside { AllBelow (length ports.now) numbers.now }
    requires rates { All (λ port. IsRate (port_rate table.now port)) ports.now }
    requires once { once ≡ true → RowsStandOnce table.now }
    ensures { IfOk result (λ own. ArePickedOf (map (rated_port table.now) ports.now) numbers.now
        (length numbers.now) own.items) }
{
    let mut own = Vec::with_capacity(alloc, numbers.len())?;
    for i in 0..numbers.len() {
        let port = port_under(table, once, &ports[numbers[i] as usize]);
        own.push(port)?;
    }
    Ok(own)
}

/// The edges with these numbers, with the rates of their ports.
pub(crate) fn own_edges(
    alloc: Global,
    tables: &FlatTables,
    table: &[ModuleAttrs],
    once: bool,
    numbers: &[u32],
) -> Result<Vec<Edge>, Memory>
    requires inside { AllBelow (length tables.now.edges) numbers.now }
    requires rates { AreRates tables.now table.now }
    requires once { once ≡ true → RowsStandOnce table.now }
    ensures { IfOk result (λ own. ArePickedOf
        (map (rated_edge tables.now.ports (net_ports tables.now table.now)) tables.now.edges)
        numbers.now (length numbers.now) own.items) }
{
    let mut own = Vec::with_capacity(alloc, numbers.len())?;
    for i in 0..numbers.len() {
        let edge = edge_under(tables, table, once, &tables.edges[numbers[i] as usize]);
        own.push(edge)?;
    }
    Ok(own)
}
