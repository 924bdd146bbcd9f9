//! Noting a cell in some columns.
ghost use Rattle.std.specs.Prelude.{◌≡◌, ◌≤◌, length, OnOk};
ghost use Rattle.tdf_trace.specs.machine.Showing.{AreColumns, TakesCells};
ghost use Rattle.tdf_trace.specs.Columns.{HasFewPlaces};

use crate::trace::Trace;
use tdf_base::Memory;
use tdf_fixed::Raw;
use tdf_trace_rows::Cell;

/// Notes a cell in each of some columns.
///
/// # Errors
/// Out of memory; some of them may be noted then.
#[inline(always)]
pub(crate) fn note_all(
    trace: &mut Trace,
    columns: &Vec<u32>,
    time: u64,
    value: Option<Raw>,
) -> Result<(), Memory>
    requires columns { AreColumns (length trace.old.about.variables) columns.now.items }
    requires time { trace.old.rows.upto ≤ time }
    requires value { HasFewPlaces value }
    ensures took { OnOk result
        (TakesCells columns.now.items time value trace.old.rows trace.new.rows) }
    ensures upto { trace.new.rows.upto ≡ trace.old.rows.upto }
    ensures stage { trace.new.stage ≡ trace.old.stage }
    ensures about { trace.new.about ≡ trace.old.about }
{
    for i in 0..columns.len() {
        trace.note(Cell {
            column: columns[i],
            time,
            value,
        })?;
    }
    Ok(())
}
