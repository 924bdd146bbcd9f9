//! Writing rows up to a time.
ghost use Rattle.std.specs.Prelude.{◌≡◌, ◌≤◌, ◌<◌, ◌++◌, [], length, max, true, false, IfOk, OnOk, OnErr};
ghost use Rattle.tdf_io.specs.Bytes.{WritesText};
ghost use Rattle.tdf_io.specs.Faults.{CountsSinkFaults};
ghost use Rattle.tdf_trace.specs.machine.Moving.{Breaks, IsDone, MovesOn};
ghost use Rattle.tdf_trace.specs.machine.Turning.{AreKept, AreSound, IsNextRow, NoneWaits, OneWaits};
ghost use Rattle.tdf_trace.specs.views.Seen.{AreShown, Fits, row_line, rows_seen};

use crate::about::About;
use crate::column::Column;
use crate::columns::{any_waits, turn_all};
use crate::{tables, vcd};
use tdf_base::Memory;
use tdf_io::{Sink, SinkErr, put_all};
use tdf_trace_rows::TraceKind;

/// The columns of a trace, the time below which its rows are written, the least time of a first cell of a column (the last of all
/// times where there is none), whether some cell may be only announced, and the room for a line.
#[derive(Drop)]
pub(crate) struct Rows {
    pub(crate) columns: Vec<Column>,
    pub(crate) upto: u64,
    pub(crate) least: u64,
    pub(crate) announces: bool,
    pub(crate) line: Vec<u8>,
}

/// Writes a line. Mostly one write call takes all of it.
#[inline(always)]
fn write_line<K: Sink>(sink: &mut K, line: &[u8]) -> Result<(), SinkErr>
    ensures { WritesText K.taken K.faults sink.old sink.new line.now result }
{
    if line.is_empty() {
        return Ok(());
    }
    match sink.write(line) {
        Ok(count) => {
            if count == line.len() {
                return Ok(());
            }
            put_all(sink, &line[count..])
        }
        Err(error) => Err(error),
    }
}

/// Writes the row that the columns show, as one piece.
#[inline(always)]
fn write_row<K: Sink>(
    line: &mut Vec<u8>,
    about: &About,
    columns: &Vec<Column>,
    time: u64,
    sink: &mut K,
) -> Result<(), SinkErr>
    requires fits { Fits about.now columns.now.items }
    requires shown { AreShown columns.now.items }
    ensures { WritesText K.taken K.faults sink.old sink.new (row_line about.now columns.now.items time) result }
{
    line.clear();
    let pushed = match about.kind {
        TraceKind::Table => tables::push_line(line, columns, time, about.resolution),
        TraceKind::Vcd => vcd::push_line(line, &about.variables, columns, time),
    };
    match pushed {
        Ok(()) => write_line(sink, line),
        Err(Memory) => Err(SinkErr::Memory),
    }
}

/// The time of the next row below the limit, or the limit.
#[inline(always)]
fn next_row(rows: &Rows, limit: u64) -> u64
    requires kept { AreKept rows.now.columns.items rows.now.least rows.now.announces }
    ensures { IsNextRow (rows_seen rows.now) limit result }
{
    let time = rows.least.min(limit);
    if rows.upto == 0 {
        return 0;
    }
    time
}

/// Whether the row of this time is held back: rows wait for cells that are only announced, and it has one.
#[inline(always)]
fn is_held_back(rows: &Rows, time: u64, waits: bool) -> bool
    requires kept { AreKept rows.now.columns.items rows.now.least rows.now.announces }
    ensures waits { result ≡ true → waits ≡ true }
    ensures one { result ≡ true → OneWaits rows.now.columns.items time }
    ensures none { result ≡ false → waits ≡ true → NoneWaits rows.now.columns.items time (length rows.now.columns.items) }
{
    if !waits {
        return false;
    }
    if !rows.announces {
        return false;
    }
    any_waits(&rows.columns, time)
}

/// Writes the next row below the limit, if there is one that needn't wait, and says whether it did.
fn write_next<K: Sink>(
    about: &About,
    rows: &mut Rows,
    limit: u64,
    waits: bool,
    sink: &mut K,
) -> Result<bool, SinkErr>
    requires fits { Fits about.now rows.old.columns.items }
    requires sound { AreSound rows.old.upto rows.old.columns.items }
    requires kept { AreKept rows.old.columns.items rows.old.least rows.old.announces }
    requires below { rows.old.upto < limit }
    ensures same { length rows.new.columns.items ≡ length rows.old.columns.items }
    ensures sound { AreSound rows.new.upto rows.new.columns.items }
    ensures kept { AreKept rows.new.columns.items rows.new.least rows.new.announces }
    ensures wrote { IfOk result (λ more. MovesOn about.now waits (rows_seen rows.old) (rows_seen rows.new) (K.taken sink.old) (K.taken sink.new)) }
    ensures on { IfOk result (λ more. more ≡ true → rows.old.upto < rows.new.upto) }
    ensures within { IfOk result (λ more. rows.new.upto ≤ limit) }
    ensures done { IfOk result (λ more. more ≡ false → IsDone waits (rows_seen rows.new) limit) }
    ensures part { OnErr result (Breaks about.now (rows_seen rows.old) limit (K.taken sink.old) (K.taken sink.new)) }
    ensures counted { CountsSinkFaults (K.faults sink.old) (K.faults sink.new) result }
{
    let time = next_row(rows, limit);
    if time >= limit {
        rows.upto = limit;
        return Ok(false);
    }
    if is_held_back(rows, time, waits) {
        return Ok(false);
    }
    rows.least = turn_all(&mut rows.columns, time);
    rows.upto = time + 1;
    match write_row(&mut rows.line, about, &rows.columns, time, sink) {
        Ok(()) => Ok(true),
        Err(error) => Err(error),
    }
}

/// Writes the rows below the limit, up to one that must wait.
pub(crate) fn write_below<K: Sink>(
    about: &About,
    rows: &mut Rows,
    limit: u64,
    waits: bool,
    sink: &mut K,
) -> Result<(), SinkErr>
    requires fits { Fits about.now rows.old.columns.items }
    requires sound { AreSound rows.old.upto rows.old.columns.items }
    requires kept { AreKept rows.old.columns.items rows.old.least rows.old.announces }
    ensures same { length rows.new.columns.items ≡ length rows.old.columns.items }
    ensures sound { AreSound rows.new.upto rows.new.columns.items }
    ensures kept { AreKept rows.new.columns.items rows.new.least rows.new.announces }
    ensures wrote { OnOk result (MovesOn about.now waits (rows_seen rows.old) (rows_seen rows.new) (K.taken sink.old) (K.taken sink.new)) }
    ensures within { OnOk result (rows.new.upto ≤ max rows.old.upto limit) }
    ensures done { OnOk result (IsDone waits (rows_seen rows.new) limit) }
    ensures part { OnErr result (Breaks about.now (rows_seen rows.old) limit (K.taken sink.old) (K.taken sink.new)) }
    ensures counted { CountsSinkFaults (K.faults sink.old) (K.faults sink.new) result }
{
    while rows.upto < limit {
        match write_next(about, rows, limit, waits, sink) {
            Ok(true) => {}
            Ok(false) => return Ok(()),
            Err(error) => return Err(error),
        }
    }
    Ok(())
}
