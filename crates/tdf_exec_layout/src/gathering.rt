//! Each edge goes to its writer and to its reader.

ghost use Rattle.std.specs.Prelude.{◌≡◌, ◌<◌, IfOk, OnOk, length};
ghost use Rattle.tdf_bind_tables.specs.Ranges.{AreInRange};
ghost use Rattle.tdf_exec_layout.specs.Ports.{ArePortPlaces};
ghost use Rattle.tdf_exec_layout.specs.machine.Ends.{EndsUpTo, read_by, written_by};
ghost use Rattle.tdf_streams.specs.Places.{driver_or};

use crate::ends::{Ends, no_ends};
use std::alloc::Global;
use tdf_base::{Memory, row_number};
use tdf_bind_connections::EdgeRow;
use tdf_bind_tables::FlatTables;
use tdf_exec_firing::{InWire, OutWire};

/// The port whose samples an edge carries.
fn source(edge: &EdgeRow) -> u32
    ensures { result ≡ driver_or edge.now.port edge.now.driver }
{
    match edge.driver {
        None => edge.port,
        Some(driver) => driver,
    }
}

/// The reader of an edge gets it.
fn put_reader(
    tables: &FlatTables,
    places: &[u32],
    e: usize,
    edge: &EdgeRow,
    rows: &mut Vec<Ends>,
) -> Result<(), Memory>
    requires reader { edge.now.reader < length tables.now.actors }
    requires rows { length rows.old.items ≡ length tables.now.actors }
    requires places { ArePortPlaces tables.now.ports places.now }
    requires port { edge.now.port < length tables.now.ports }
    ensures { OnOk result (rows.new.items ≡ read_by tables.now e edge.now rows.old.items) }
{
    let wire = InWire {
        edge: row_number(e)?,
        port: places[edge.port as usize],
    };
    rows[edge.reader as usize].put_in(wire)
}

/// The writer of an edge gets it.
fn put_writer(
    tables: &FlatTables,
    places: &[u32],
    e: usize,
    edge: &EdgeRow,
    rows: &mut Vec<Ends>,
) -> Result<(), Memory>
    requires writer { edge.now.writer < length tables.now.actors }
    requires rows { length rows.old.items ≡ length tables.now.actors }
    requires places { ArePortPlaces tables.now.ports places.now }
    requires port { driver_or edge.now.port edge.now.driver < length tables.now.ports }
    ensures { OnOk result (rows.new.items ≡ written_by tables.now e edge.now rows.old.items) }
{
    let wire = OutWire {
        edge: row_number(e)?,
        port: places[source(edge) as usize],
    };
    rows[edge.writer as usize].put_out(wire)
}

/// The edges of each actor.
pub(crate) fn gathered(
    alloc: Global,
    tables: &FlatTables,
    places: &[u32],
) -> Result<Vec<Ends>, Memory>
    requires in_range { AreInRange tables.now }
    requires places { ArePortPlaces tables.now.ports places.now }
    ensures { IfOk result (λ rows. EndsUpTo tables.now (length tables.now.edges) rows.items) }
{
    let mut rows = no_ends(alloc, tables.actors.len())?;
    for e in 0..tables.edges.len() {
        let edge = &tables.edges[e];
        put_reader(tables, places, e, edge, &mut rows)?;
        put_writer(tables, places, e, edge, &mut rows)?;
    }
    Ok(rows)
}
