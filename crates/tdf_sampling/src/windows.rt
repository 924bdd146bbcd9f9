//! Rows, window after window, in one pass.

ghost use Rattle.std.specs.List.{AllByRecursion};
ghost use Rattle.std.specs.Prelude.{◌≡◌, ◌++◌, ◌<◌, ◌≤◌, ◌*◌, ◌^◌, IfOk, OnOk, ◌+◌, length};
ghost use Rattle.tdf_io.specs.Bytes.{WritesText};
ghost use Rattle.tdf_sampling.specs.Statistics.{group_text, window_line, windows_text};
ghost use Rattle.tdf_sampling.specs.machine.Windows.{count_before, first_limit, first_text, passed_before, rows_of};
ghost use Rattle.tdf_tables.specs.Tables.{AreRows, IsRow};
ghost use Rattle.tdf_tables.specs.Words.{words_of};

use crate::groups::{Kept, write_group};
use tdf_base::{Memory, push_word};
use tdf_fixed::push_femtoseconds;
use tdf_io::{Sink, SinkErr, put_all};
use tdf_tables::Row;

/// How many rows from the front on are before a time.
#[tactic(auto, using(crate::proofs::Counts::count_laws))]
fn count_before(rows: &[Row], limit: u128) -> usize
    ensures count { result ≡ passed_before limit rows.now }
    ensures within { result ≤ length rows.now }
{
    rows.iter().take_while(|row| row.time < limit).count()
}

/// Appends `window TIME`.
#[tactic(auto, unfolding(crate::specs::Statistics::window_line), using(crate::proofs::Texts::text_laws))]
fn push_window_line(line: &mut Vec<u8>, start: u128) -> Result<(), Memory>
    ensures { OnOk result (line.new.items ≡ line.old.items ++ window_line start) }
{
    push_word(line, b"window ")?;
    push_femtoseconds(line, start)?;
    push_word(line, b"\n")
}

/// Writes `window TIME`.
fn write_window_line<K: Sink>(line: &mut Vec<u8>, start: u128, sink: &mut K) -> Result<(), SinkErr>
    ensures { WritesText K.taken K.faults sink.old sink.new (window_line start) result }
{
    line.clear();
    match push_window_line(line, start) {
        Ok(()) => put_all(sink, line),
        Err(Memory) => Err(SinkErr::Memory),
    }
}

/// Writes the statistics of the rows of a window.
fn write_window<'t, K: Sink>(
    kept: &mut Kept<'t>,
    labels: &[u8],
    rows: &[Row<'t>],
    start: u128,
    sink: &mut K,
) -> Result<(), SinkErr>
    requires many { length (words_of labels.now) ≡ length kept.old.columns.items }
    requires rows { AllByRecursion (IsRow (length kept.old.columns.items)) (rows_of rows.now) }
    ensures same { length kept.new.columns.items ≡ length kept.old.columns.items }
    ensures wrote { WritesText K.taken K.faults sink.old sink.new
        (window_line start ++ group_text (words_of labels.now) (rows_of rows.now)) result }
{
    match write_window_line(&mut kept.line, start, sink) {
        Ok(()) => write_group(kept, labels, rows, sink),
        Err(error) => Err(error),
    }
}

/// Writes the statistics of the window of the first row, and says how many rows it has.
fn write_first<'t, K: Sink>(
    kept: &mut Kept<'t>,
    labels: &[u8],
    rows: &[Row<'t>],
    step: u128,
    sink: &mut K,
) -> Result<usize, SinkErr>
    requires many { length (words_of labels.now) ≡ length kept.old.columns.items }
    requires rows { AllByRecursion (IsRow (length kept.old.columns.items)) (rows_of rows.now) }
    requires some { 0 < length rows.now }
    requires step { 0 < step }
    requires small { step ≤ 2 ^ 80 }
    ensures same { length kept.new.columns.items ≡ length kept.old.columns.items }
    ensures count { IfOk result (λ n. n ≡ count_before (first_limit step (rows_of rows.now)) (rows_of rows.now)) }
    ensures within { IfOk result (λ n. n ≤ length rows.now) }
    ensures wrote { WritesText K.taken K.faults sink.old sink.new
        (first_text (words_of labels.now) step (rows_of rows.now)) result }
{
    let window = rows[0].time / step;
    let count = count_before(rows, (window + 1) * step);
    match write_window(kept, labels, &rows[..count], window * step, sink) {
        Ok(()) => Ok(count),
        Err(error) => Err(error),
    }
}

/// Writes the statistics of all rows by windows.
pub(crate) fn write_windows<'t, K: Sink>(
    kept: &mut Kept<'t>,
    labels: &[u8],
    rows: &[Row<'t>],
    step: u128,
    sink: &mut K,
) -> Result<(), SinkErr>
    requires many { length (words_of labels.now) ≡ length kept.old.columns.items }
    requires rows { AreRows (length kept.old.columns.items) (rows_of rows.now) }
    requires some { 0 < length rows.now }
    requires step { 0 < step }
    requires small { step ≤ 2 ^ 80 }
    ensures { WritesText K.taken K.faults sink.old sink.new
        (windows_text (words_of labels.now) step (rows_of rows.now)) result }
{
    let mut from = 0;
    while from < rows.len() {
        match write_first(kept, labels, &rows[from..], step, sink) {
            Ok(count) => from += count,
            Err(error) => return Err(error),
        }
    }
    Ok(())
}
