//! The calls for statistics.

ghost use Rattle.std.specs.Prelude.{◌≡◌, ◌++◌, ◌≤◌, IfSome, OnErr, OnOk};
ghost use Rattle.tdf_io.specs.Bytes.{WritesText};
ghost use Rattle.tdf_sampling.specs.Statistics.{stats_text};
ghost use Rattle.tdf_tables.specs.Tables.{IsTableForm};

use crate::choosing::FEMTOSECONDS;
use crate::groups::{Kept, new_columns, write_group};
use crate::windows::write_windows;
use std::alloc::Global;
use tdf_base::Memory;
use tdf_io::{Sink, SinkErr, SureSink};
use tdf_tables::Table;

/// Writes the statistics of a table, line by line: of all its rows, or of those of each window of so many ps, 1 at least. It takes
/// some 90 bytes a column, and nothing by row.
///
/// # Errors
/// `Failed`, where a write failed, or `Memory`. The sink took a front part of the text then.
pub fn write_stats<K: Sink>(
    alloc: Global,
    table: &Table,
    window: Option<u64>,
    sink: &mut K,
) -> Result<(), SinkErr>
    requires table { IsTableForm table.now }
    requires step { IfSome window (λ step. 1 ≤ step) }
    ensures { WritesText K.taken K.faults sink.old sink.new (stats_text table.now window) result }
{
    let columns = match new_columns(alloc, table.columns()) {
        Ok(columns) => columns,
        Err(Memory) => return Err(SinkErr::Memory),
    };
    let mut kept = Kept {
        columns,
        line: Vec::new(alloc),
    };
    match window {
        None => write_group(&mut kept, table.labels(), table.rows(), sink),
        Some(step) => write_windows(
            &mut kept,
            table.labels(),
            table.rows(),
            u128::from(step) * FEMTOSECONDS,
            sink,
        ),
    }
}

/// Appends the statistics of a table: of all its rows, or of those of each window of so many ps, 1 at least.
///
/// # Errors
/// Out of memory; nothing was appended then.
pub fn push_stats(out: &mut Vec<u8>, table: &Table, window: Option<u64>) -> Result<(), Memory>
    requires table { IsTableForm table.now }
    requires step { IfSome window (λ step. 1 ≤ step) }
    ensures whole { OnOk result (out.new.items ≡ out.old.items ++ stats_text table.now window) }
    ensures part { OnErr result (out.new.items ≡ out.old.items) }
{
    let alloc = *out.allocator();
    let mut sink = SureSink::new(alloc);
    match write_stats(alloc, table, window, &mut sink) {
        Ok(()) => match out.extend_from_slice(sink.bytes()) {
            Ok(()) => Ok(()),
            Err(_) => Err(Memory),
        },
        Err(_) => Err(Memory),
    }
}
