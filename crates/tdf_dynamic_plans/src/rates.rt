//! The rates of ports and edges that a table of attributes gives.

ghost use Rattle.std.specs.Prelude.{◌≡◌, List, ◌<◌, ◌≤◌, IfOk, IfSome, Some, true, length, replicate, slice_get, slice_index};
ghost use Rattle.tdf_dynamic_plans.specs.Rates.{times_value, port_rate, edge_kind, write_rate_by, read_rate_by, net_ports, AreRates};
ghost use Rattle.tdf_dynamic_plans.specs.Attributes.{RowsStandOnce};
ghost use Rattle.tdf_dynamic_plans.specs.machine.Placing.{number_at};
ghost use Rattle.tdf_graph.specs.Ranges.{IsRate};
ghost use Rattle.tdf_graph.specs.declared.actors.Port.{Port as PortOf};
ghost use Rattle.tdf_timestep.specs.Period.{rate_at_port};
ghost use Rattle.tdf_bind_connections.specs.declared.edges.EdgeRow.{EdgeRow as EdgeRowOf};
ghost use Rattle.tdf_bind_connections.specs.declared.modules.PortRow.{PortRow as PortRowOf};

use crate::attrs::{Attrs, ModuleAttrs};
use std::alloc::Global;
use tdf_base::Memory;
use tdf_bind_connections::{EdgeRow, PortRow, Rate};
use tdf_bind_tables::FlatTables;
use tdf_lang_tree::PortKind;

/// The value of a rate variable, 0 for one that isn't there.
fn value_at(values: &[u32], var: u32) -> u32
    ensures { result ≡ slice_index values.now var }
{
    let place = var as usize;
    if place < values.len() {
        return values[place];
    }
    0
}

fn times_value(rate: Rate, values: &[u32]) -> u32
    requires { IsRate (times_value rate.times values.now rate.var) }
    ensures { result ≡ times_value rate.times values.now rate.var }
{
    match rate.var {
        None => rate.times,
        Some(var) => rate.times * value_at(values, var),
    }
}

/// The rate of a port, 1 for a port of a module that is not in the table.
fn rate_in(table: &[ModuleAttrs], port: &PortRow) -> u32
    requires { IsRate (port_rate table.now port.now) }
    ensures { result ≡ port_rate table.now port.now }
{
    for i in 0..table.len() {
        let attrs = &table[i];
        if attrs.number == port.module {
            return times_value(port.rate, &attrs.rates);
        }
    }
    1
}

/// Whether the row at a place is that of a module.
fn is_row_of(table: &[ModuleAttrs], place: usize, module: u32) -> bool
    ensures inside { result ≡ true → place < length table.now }
    ensures is { result ≡ true → number_at table.now place ≡ Some «module» }
{
    if place >= table.len() {
        return false;
    }
    let attrs = &table[place];
    attrs.number == module
}

/// Where the row of a module stands, if no number is left out from the first row on.
fn place_in_turn(table: &[ModuleAttrs], module: u32) -> usize
    ensures { result ≤ «module» }
{
    if table.len() == 0 {
        return 0;
    }
    let first = &table[0];
    module.saturating_sub(first.number) as usize
}

/// Where a row of a module is found in turn or by halving; none, where neither finds it.
fn row_of(table: &[ModuleAttrs], module: u32) -> Option<usize>
    ensures inside { IfSome result (λ place. place < length table.now) }
    ensures is { IfSome result (λ place. number_at table.now place ≡ Some «module») }
{
    let place = place_in_turn(table, module);
    if is_row_of(table, place, module) {
        return Some(place);
    }
    let place = table.partition_point(|attrs| attrs.number < module);
    if is_row_of(table, place, module) {
        return Some(place);
    }
    None
}

/// The rate of a port, where each module has one row.
fn rate_once(table: &[ModuleAttrs], port: &PortRow) -> u32
    requires rate { IsRate (port_rate table.now port.now) }
    requires once { RowsStandOnce table.now }
    ensures { result ≡ port_rate table.now port.now }
{
    match row_of(table, port.module) {
        None => rate_in(table, port),
        Some(place) => {
            let attrs = &table[place];
            times_value(port.rate, &attrs.rates)
        }
    }
}

/// The word of the port that gives an edge.
fn edge_kind(rows: &[PortRow], edge: &EdgeRow) -> Option<PortKind>
    ensures { result ≡ edge_kind rows.now edge.now }
{
    let place = edge.port as usize;
    if place < rows.len() {
        return Some(rows[place].kind);
    }
    None
}

/// The rates that an edge is read and written with.
#[derive(Clone, Copy)]
pub(crate) struct Rates {
    pub(crate) read: u32,
    pub(crate) write: u32,
}

/// The rates of an edge by the word of the port that gives it, the rate of that port and the rate of the port that drives it.
fn rates_by(kind: Option<PortKind>, own: u32, driven: u32) -> Rates
    ensures read { (ports : List PortOf) (edge : EdgeRowOf)
        → rate_at_port ports (Some edge.port) ≡ own → rate_at_port ports edge.driver ≡ driven
        → result.read ≡ read_rate_by ports edge kind }
    ensures write { (ports : List PortOf) (edge : EdgeRowOf)
        → rate_at_port ports (Some edge.port) ≡ own → rate_at_port ports edge.driver ≡ driven
        → result.write ≡ write_rate_by ports edge kind }
{
    match kind {
        None => Rates { read: 1, write: 1 },
        Some(PortKind::In) => Rates {
            read: own,
            write: driven,
        },
        Some(PortKind::Out) => Rates { read: 1, write: 1 },
        Some(PortKind::DeIn) => Rates {
            read: own,
            write: 1,
        },
        Some(PortKind::DeOut) => Rates {
            read: 1,
            write: own,
        },
    }
}

/// The rates of an edge. Where both ports have the rate 1, as those of modules that are not in the table, the word isn't asked.
#[tactic(auto, using(crate::proofs::RatedEdges::ones))]
pub(crate) fn rates_of(rows: &[PortRow], edge: &EdgeRow, own: u32, driven: u32) -> Rates
    ensures read { (ports : List PortOf)
        → rate_at_port ports (Some edge.now.port) ≡ own
        → rate_at_port ports edge.now.driver ≡ driven
        → result.read ≡ read_rate_by ports edge.now (edge_kind rows.now edge.now) }
    ensures write { (ports : List PortOf)
        → rate_at_port ports (Some edge.now.port) ≡ own
        → rate_at_port ports edge.now.driver ≡ driven
        → result.write ≡ write_rate_by ports edge.now (edge_kind rows.now edge.now) }
{
    if own == 1 && driven == 1 {
        return Rates { read: 1, write: 1 };
    }
    rates_by(edge_kind(rows, edge), own, driven)
}

/// So many times the rate 1.
///
/// # Errors
/// Out of memory.
pub fn ones(alloc: Global, count: usize) -> Result<Vec<u32>, Memory>
    ensures { IfOk result (λ rates. rates.items ≡ replicate count 1) }
{
    Ok(vec![in alloc; 1; count]?)
}

/// The rate of a port. Where it is known that each module has one row, it takes no look at each.
pub(crate) fn rate_under(table: &[ModuleAttrs], once: bool, port: &PortRow) -> u32
    requires rate { IsRate (port_rate table.now port.now) }
    requires once { once ≡ true → RowsStandOnce table.now }
    ensures value { result ≡ port_rate table.now port.now }
    ensures some { 1 ≤ result }
{
    if once {
        rate_once(table, port)
    } else {
        rate_in(table, port)
    }
}

/// The rate of a port that is told by its number; 1 where none is told. Where it is known that each module has one row, it takes
/// no look at each.
#[tactic(auto, unfolding(crate::specs::Rates::net_ports), using(crate::proofs::Placing::told_rates))]
pub fn told_rate(tables: &FlatTables, table: &[ModuleAttrs], once: bool, number: Option<u32>) -> u32
    requires rates { AreRates tables.now table.now }
    requires once { once ≡ true → RowsStandOnce table.now }
    ensures value { result ≡ rate_at_port (net_ports tables.now table.now) number }
    ensures some { 1 ≤ result }
{
    match number {
        None => 1,
        Some(number) => {
            let place = number as usize;
            if place >= tables.ports.len() {
                return 1;
            }
            rate_under(table, once, &tables.ports[place])
        }
    }
}

impl Attrs {
    /// The rate of a port of the cluster, by its number in the flat model; 1 for a port of another cluster.
    pub fn port_rate(&self, tables: &FlatTables, port: u32) -> u32
        requires port { port < length tables.now.ports }
        requires rates { AreRates tables.now self.now.rows }
        ensures { (row : PortRowOf) → slice_get tables.now.ports port ≡ Some row
            → result ≡ port_rate self.now.rows row }
    {
        rate_in(&self.rows, &tables.ports[port as usize])
    }
    /// The same, where each module has one row: a port of a module that has its place in turn takes no search.
    pub fn rate_of_port(&self, tables: &FlatTables, port: u32) -> u32
        requires port { port < length tables.now.ports }
        requires rates { AreRates tables.now self.now.rows }
        requires once { RowsStandOnce self.now.rows }
        ensures { (row : PortRowOf) → slice_get tables.now.ports port ≡ Some row
            → result ≡ port_rate self.now.rows row }
    {
        rate_once(&self.rows, &tables.ports[port as usize])
    }
}
