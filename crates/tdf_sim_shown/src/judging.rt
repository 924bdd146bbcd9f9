//! All that is asked of the columns of a snapshot.

ghost use Rattle.std.specs.Prelude.{◌≡◌, Err, IfOk, IsOk};
ghost use Rattle.tdf_saved.specs.declared.err.StateErr.TheVariants as why;
ghost use Rattle.tdf_sim_resumed.specs.Valid.{HasMembersOf};
ghost use Rattle.tdf_sim_traces.specs.Periods.{clock_of};
ghost use Rattle.tdf_sim_shown.specs.Columns.{AreGoodColumns, CanTellColumns, WhereTheyStand, rows_among};

use crate::column_states::are_good;
use crate::missing::least_missing;
use crate::windows::windows_of;
use std::alloc::Global;
use tdf_bind::Flat;
use tdf_saved::{ColumnState, Snapshot, StateErr};
use tdf_sim_traces::Clock;

/// The time from which rows are still to be written by a snapshot, where a run can go on from its columns: `clock` has its time, and the
/// clusters inside the periods that it says.
///
/// # Errors
/// Bad exactly where it can't, or out of memory.
pub fn valid_rows(
    alloc: Global,
    flat: &Flat,
    snapshot: &Snapshot,
    clock: &Clock,
) -> Result<u64, StateErr>
    requires can { CanTellColumns flat.now (clock_of clock.now) }
    requires members { HasMembersOf flat.now snapshot.now }
    requires time { clock.now.time ≡ snapshot.now.time }
    ensures rows { IfOk result (λ rows. WhereTheyStand flat.now (clock_of clock.now) (λ clusters.
        rows ≡ rows_among flat.now clusters snapshot.now.time)) }
    ensures good { IsOk result → WhereTheyStand flat.now (clock_of clock.now) (λ clusters.
        AreGoodColumns flat.now clusters snapshot.now) }
    ensures bad { result ≡ Err why.Bad → WhereTheyStand flat.now (clock_of clock.now)
        (λ clusters. AreGoodColumns flat.now clusters snapshot.now → ⊥) }
{
    let windows = windows_of(alloc, flat, clock)?;
    let rows = least_missing(&windows, clock.time);
    let kernel = &snapshot.kernel;
    let columns: &[ColumnState] = &snapshot.columns;
    if are_good(flat, &windows, &kernel.values, rows, clock.time, columns) {
        return Ok(rows);
    }
    Err(StateErr::Bad)
}
