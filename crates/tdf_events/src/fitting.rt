//! Whether a state is one of the model's event side at a time.

ghost use Rattle.std.specs.Prelude.{◌≡◌, ◌<◌, ◌≤◌, ◌↔◌, ◌^◌, ℕ, Some, length, map, slice_get, true};
ghost use Rattle.tdf_bind_connections.specs.ProcessBlocks.{BlockRowOf};
ghost use Rattle.tdf_events.specs.Runnable.{IsRunnable};
ghost use Rattle.tdf_events.specs.State.{AreBlockCells, ArePendingFrom, IsKernelState, IsPendingFrom};
ghost use Rattle.tdf_expr.specs.Made.{block_count};
ghost use Rattle.tdf_expr.specs.Plans.{shape_written};
ghost use Rattle.tdf_expr_semantics.specs.Fits.{NumbersFit};

use tdf_base::TIME_END;
use tdf_bind::Flat;
use tdf_bind_connections::{BlockRow, SignalRow};
use tdf_expr::Checked;
use tdf_saved::{KernelState, Pending};

/// Whether there is a number for each signal, in the range of its format.
fn are_values(signals: &[SignalRow], nums: &[i128]) -> bool
    ensures { (result ≡ true)
        ↔ NumbersFit (map shape_written (map (λ row. row.format) signals.now)) nums.now }
{
    if nums.len() != signals.len() {
        return false;
    }
    for i in 0..nums.len() {
        if !signals[i].format.holds(nums[i]) {
            return false;
        }
    }
    true
}

/// Whether there are the cells of each instance.
fn are_cells(checked: &Checked, rows: &[BlockRow], blocks: &[Vec<i128>]) -> bool
    requires { (n : ℕ) (row : BlockRowOf) → slice_get rows.now n ≡ Some row
        → row.block < block_count checked.now }
    ensures { (result ≡ true)
        ↔ AreBlockCells checked.now rows.now (map (λ nums. nums.items) blocks.now) }
{
    if blocks.len() != rows.len() {
        return false;
    }
    for i in 0..blocks.len() {
        let row = &rows[i];
        if !checked.holds(row.block, &blocks[i]) {
            return false;
        }
    }
    true
}

/// Whether a notification is of an event from a least one on, and may come.
fn may_come(pending: Pending, least: u32, events: usize, time: u64) -> bool
    ensures { (result ≡ true) ↔ ((least ≤ pending.event) × IsPendingFrom events time pending) }
{
    least <= pending.event
        && (pending.event as usize) < events
        && time <= pending.time
        && pending.time - time <= TIME_END
}

/// Whether notifications may come, in order of their events.
fn are_pending(list: &[Pending], events: usize, time: u64) -> bool
    requires few { events < 2 ^ 32 }
    ensures { (result ≡ true) ↔ ArePendingFrom events time list.now }
{
    let mut least = 0;
    for i in 0..list.len() {
        let pending = list[i];
        if !may_come(pending, least, events, time) {
            return false;
        }
        least = pending.event + 1;
    }
    true
}

/// Whether a state is one of the model's event side at a time.
pub(crate) fn is_state(flat: &Flat, state: &KernelState, time: u64) -> bool
    requires { IsRunnable flat.now }
    ensures { (result ≡ true) ↔ IsKernelState flat.now time state.now }
{
    let tables = &flat.tables;
    are_values(&tables.de_signals, &state.values)
        && are_cells(&flat.checked, &tables.blocks, &state.blocks)
        && are_pending(&state.pending, tables.events.len(), time)
        && (0 < time || state.pending.is_empty())
}
