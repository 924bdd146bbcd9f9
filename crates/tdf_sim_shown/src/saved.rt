//! What a snapshot has of a trace.

ghost use Rattle.std.specs.Prelude.{◌≡◌, length, IfOk, OnOk};
ghost use Rattle.tdf_sim_shown.specs.Saved.{GivesColumns, GivesRowsFrom};
ghost use Rattle.tdf_trace.specs.Missing.{IsFirstMissing};
ghost use Rattle.tdf_sim_shown.specs.machine.Waiting.{HaveLater, IsLaterFor, driven_at};

use std::alloc::Global;
use tdf_base::Memory;
use tdf_bind::Flat;
use tdf_bind_tables::FlatTables;
use tdf_saved::ColumnState;
use tdf_sim_traces::Shown;
use tdf_trace::Tracking;

/// The time from which rows are still to be written at a time: the least one, below it, of a position of a traced signal whose sample
/// isn't known, or that time. It takes no memory.
pub fn rows_from(shown: &Shown, time: u64) -> u64
    ensures rows { GivesRowsFrom shown.now time result }
    ensures first { IsFirstMissing shown.now.tracking.list (length shown.now.tracking.list) time
        result }
{
    shown.tracking.first_missing(time)
}

/// The signal of samples that a trace shows, where a port of a module drives it.
fn driven(tables: &FlatTables, column: usize) -> Option<u32>
    ensures { result ≡ driven_at tables.now column }
{
    match tables.traces.get(column) {
        None => None,
        Some(row) => {
            if row.event {
                return None;
            }
            match tables.signals.get(row.signal as usize) {
                None => None,
                Some(signal) => match signal.driver {
                    None => None,
                    Some(_) => Some(row.signal),
                },
            }
        }
    }
}

/// The numbers of the samples that wait for a position later than the period, of the column of a trace.
fn later_of(
    alloc: Global,
    tables: &FlatTables,
    tracking: &Tracking,
    column: usize,
) -> Result<Vec<i128>, Memory>
    ensures { IfOk result (λ nums.
        IsLaterFor (driven_at tables.now column) tracking.now.list nums.items) }
{
    match driven(tables, column) {
        None => Ok(Vec::new(alloc)),
        Some(signal) => tracking.later(alloc, signal),
    }
}

/// The states of columns get the numbers of the samples that wait.
fn add_later(
    alloc: Global,
    tables: &FlatTables,
    tracking: &Tracking,
    columns: &mut Vec<ColumnState>,
) -> Result<(), Memory>
    ensures { OnOk result (HaveLater tables.now tracking.now.list (length columns.old.items)
        columns.old.items columns.new.items) }
{
    for k in 0..columns.len() {
        let later = later_of(alloc, tables, tracking, k)?;
        columns[k].later = later;
    }
    Ok(())
}

/// The states of the columns of a trace whose rows are written up to the time from which on they are still to be written: what
/// each showed before it, its samples from there on up to the end of the period in progress, and those that are known for later
/// positions.
///
/// # Errors
/// Out of memory.
pub fn shown_columns(alloc: Global, flat: &Flat, shown: &Shown) -> Result<Vec<ColumnState>, Memory>
    ensures { IfOk result (λ columns. GivesColumns flat.now shown.now columns.items) }
{
    let mut columns = shown.trace.columns(alloc)?;
    add_later(alloc, &flat.tables, &shown.tracking, &mut columns)?;
    Ok(columns)
}
