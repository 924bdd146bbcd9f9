//! The samples that an edge holds at first.

ghost use Rattle.std.specs.Prelude.{◌≡◌, ◌+◌, ◌≤◌, ◌<◌, ◌++◌, ℕ, IfOk, OnOk, Some, drop, length, replicate, slice_get, slice_index};
ghost use Rattle.tdf_exec_layout.specs.machine.Initials.{given_to};
ghost use Rattle.tdf_streams.specs.Cluster.{driver_samples, fraction_of_kind, fraction_of_row, initial_list, initial_samples, zero_of_port};

use std::alloc::Global;
use tdf_base::Memory;
use tdf_bind_connections::{EdgeRow, PortRow, SignalRow};
use tdf_bind_tables::FlatTables;
use tdf_fixed::Raw;
use tdf_lang_tree::PortKind;

/// How many fraction bits the samples of a signal have.
fn fraction(signals: &[SignalRow], signal: u32) -> u32
    ensures { result ≡ fraction_of_row (slice_get signals.now signal) }
{
    let place = signal as usize;
    if place < signals.len() {
        let format = signals[place].format;
        return format.wl.saturating_sub(format.iwl);
    }
    0
}

/// A 0 of the format of a port's signal.
fn zero_of(tables: &FlatTables, port: &PortRow) -> Raw
    ensures { result ≡ zero_of_port tables.now port.now }
{
    let frac = match port.kind {
        PortKind::In => fraction(&tables.signals, port.signal),
        PortKind::Out => fraction(&tables.signals, port.signal),
        PortKind::DeIn => fraction(&tables.de_signals, port.signal),
        PortKind::DeOut => fraction(&tables.de_signals, port.signal),
    };
    Raw { num: 0, frac }
}

/// Each sample that is given comes to its place, unless there is none; of several for one place the last one stays.
fn put_given(samples: &mut Vec<Raw>, given: &[(u32, Raw)])
    ensures { samples.new.items ≡ given_to given.now samples.old.items }
{
    for i in 0..given.len() {
        let (place, value) = given[i];
        if (place as usize) < samples.len() {
            samples[place as usize] = value;
        }
    }
}

/// The initial samples of a port, as many as its delay.
fn port_samples(alloc: Global, tables: &FlatTables, number: u32) -> Result<Vec<Raw>, Memory>
    ensures { IfOk result (λ samples.
        samples.items ≡ initial_samples tables.now (slice_get tables.now.ports number)) }
{
    let place = number as usize;
    if place >= tables.ports.len() {
        return Ok(Vec::new(alloc));
    }
    let port = &tables.ports[place];
    let zero = zero_of(tables, port);
    let mut samples = vec![in alloc; zero; port.delay as usize]?;
    put_given(&mut samples, port.initials.as_slice());
    Ok(samples)
}

fn driver_samples(
    alloc: Global,
    tables: &FlatTables,
    driver: Option<u32>,
) -> Result<Vec<Raw>, Memory>
    ensures { IfOk result (λ samples. samples.items ≡ driver_samples tables.now driver) }
{
    match driver {
        None => Ok(Vec::new(alloc)),
        Some(driver) => port_samples(alloc, tables, driver),
    }
}

/// Some samples, and others after them.
fn joined(mut first: Vec<Raw>, later: &[Raw]) -> Result<Vec<Raw>, Memory>
    ensures { IfOk result (λ samples. samples.items ≡ first.items ++ later.now) }
{
    first.extend_from_slice(later)?;
    Ok(first)
}

/// The samples that an edge holds at first: the initial samples of the port that gives it, then those of the port that
/// drives it.
///
/// # Errors
/// Out of memory.
pub fn initial_samples(
    alloc: Global,
    tables: &FlatTables,
    edge: EdgeRow,
) -> Result<Vec<Raw>, Memory>
    ensures { IfOk result (λ samples. samples.items ≡ initial_list tables.now edge) }
{
    let first = port_samples(alloc, tables, edge.port)?;
    let later = driver_samples(alloc, tables, edge.driver)?;
    joined(first, &later)
}
