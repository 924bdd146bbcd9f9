//! One port, and one edge, with the rates that a table of attributes gives.

ghost use Rattle.std.specs.Prelude.{◌≡◌, ◌<◌, ◌+◌, Some, length, slice_get, true};
ghost use Rattle.tdf_dynamic_plans.specs.Attributes.{AttrsOf, RowsStandOnce};
ghost use Rattle.tdf_dynamic_plans.specs.Rates.{AreRates, net_ports, port_rate, rated_edge, rated_port};
ghost use Rattle.tdf_graph.specs.Ranges.{IsRate};

use crate::attrs::ModuleAttrs;
use crate::rates::{rate_under, rates_of, told_rate};
use tdf_bind_connections::{EdgeRow, PortRow};
use tdf_bind_tables::FlatTables;
use tdf_graph::{Edge, Port};

/// Whether the module of a row is before that of the next one.
fn rises(table: &[ModuleAttrs], place: usize) -> bool
    requires { place + 1 < length table.now }
    ensures { result ≡ true → (one other : AttrsOf) → slice_get table.now place ≡ Some one
        → slice_get table.now (place + 1) ≡ Some other → one.number < other.number }
{
    let one = &table[place];
    let other = &table[place + 1];
    one.number < other.number
}

/// Whether the modules of the rows rise; then each has one row.
pub fn are_rising(table: &[ModuleAttrs]) -> bool
    ensures { result ≡ true → RowsStandOnce table.now }
{
    for i in 1..table.len() {
        if !rises(table, i - 1) {
            return false;
        }
    }
    true
}

/// A port with its rate. Where it is known that each module has one row, it takes no look at each.
pub fn port_under(table: &[ModuleAttrs], once: bool, port: &PortRow) -> Port
    requires rate { IsRate (port_rate table.now port.now) }
    requires once { once ≡ true → RowsStandOnce table.now }
    ensures { result ≡ rated_port table.now port.now }
{
    Port {
        actor: port.module,
        rate: rate_under(table, once, port),
    }
}

/// An edge with the rates of its ports. Where it is known that each module has one row, it takes no look at each.
pub fn edge_under(tables: &FlatTables, table: &[ModuleAttrs], once: bool, edge: &EdgeRow) -> Edge
    requires rates { AreRates tables.now table.now }
    requires once { once ≡ true → RowsStandOnce table.now }
    ensures { result ≡ rated_edge tables.now.ports (net_ports tables.now table.now) edge.now }
{
    let own = told_rate(tables, table, once, Some(edge.port));
    let driven = told_rate(tables, table, once, edge.driver);
    let rates = rates_of(&tables.ports, edge, own, driven);
    Edge {
        writer: edge.writer,
        reader: edge.reader,
        write_rate: rates.write,
        read_rate: rates.read,
        initial: edge.initial,
    }
}
