//! Going from row to row.
ghost use Rattle.std.specs.Prelude.{◌≡◌, ◌≤◌, ◌<◌, ◌-◌, ◌^◌, length, OnOk, OnErr, IsTrue, IsFalse, true, false, ℕ, Some, slice_get};
ghost use Rattle.tdf_trace.specs.Columns.{ColumnSeen, HasFewPlaces};
ghost use Rattle.tdf_trace.specs.machine.Putting.{IsPut};
ghost use Rattle.tdf_trace.specs.machine.Turning.{AreSound, AreTurned, IsNext, NoneWaits, OneWaits};

use crate::column::{Column, Held};
use std::alloc::AllocError;

/// The least time of a first cell, or the limit.
pub(crate) fn next_time(columns: &Vec<Column>, limit: u64) -> u64
    ensures { IsNext columns.now.items (length columns.now.items) limit result }
{
    let mut best = limit;
    for i in 0..columns.len() {
        let time = columns[i].front_time(limit);
        if time < best {
            best = time;
        }
    }
    best
}

/// Whether the row of this time has a cell that is only announced.
pub(crate) fn any_waits(columns: &Vec<Column>, time: u64) -> bool
    ensures one { result ≡ true → OneWaits columns.now.items time }
    ensures none { result ≡ false → NoneWaits columns.now.items time (length columns.now.items) }
{
    for i in 0..columns.len() {
        if columns[i].waits(time) {
            return true;
        }
    }
    false
}

/// All columns go to the row of this time. Returns the least time of a first cell then, or the last of all times.
#[inline(always)]
pub(crate) fn turn_all(columns: &mut Vec<Column>, time: u64) -> u64
    ensures turned { AreTurned time (length columns.old.items) columns.old.items columns.new.items }
    ensures next { IsNext columns.new.items (length columns.new.items) (2 ^ 64 - 1) result }
{
    let mut least = u64::MAX;
    for i in 0..columns.len() {
        let front = columns[i].turn(time);
        least = least.min(front);
    }
    least
}

/// One cell more in one column, or the value of one that was announced.
#[inline(always)]
pub(crate) fn put_cell(
    columns: &mut Vec<Column>,
    upto: u64,
    place: u32,
    item: Held,
) -> Result<(), AllocError>
    requires column { place < length columns.old.items }
    requires time { upto ≤ item.time }
    requires sound { AreSound upto columns.old.items }
    ensures ok { OnOk result (IsPut columns.old.items columns.new.items place item) }
    ensures err { OnErr result (columns.new.items ≡ columns.old.items) }
{
    columns[place as usize].put(item)?;
    Ok(())
}
