//! The columns of some rows: what is kept of them, and their lines.

ghost use Rattle.std.specs.List.{AllByRecursion};
ghost use Rattle.std.specs.Prelude.{◌≡◌, IfOk, [], length};
ghost use Rattle.tdf_io.specs.Bytes.{WritesText, pieces_text};
ghost use Rattle.tdf_sampling.specs.Statistics.{group_text};
ghost use Rattle.tdf_sampling.specs.machine.Measures.{AreMeasured, HasRow, HaveRoom, measured_line, measured_piece};
ghost use Rattle.tdf_sampling.specs.machine.Windows.{rows_of};
ghost use Rattle.tdf_tables.specs.Tables.{IsRow};
ghost use Rattle.tdf_tables.specs.Words.{words_of};

use crate::columns::Column;
use std::alloc::Global;
use tdf_base::Memory;
use tdf_io::{Sink, SinkErr, put_all};
use tdf_tables::{Row, cut_word};

/// What is kept of the columns of some rows, and room for a line.
#[derive(Drop)]
pub(crate) struct Kept<'t> {
    pub(crate) columns: Vec<Column<'t>>,
    pub(crate) line: Vec<u8>,
}

/// So many columns.
pub(crate) fn new_columns<'t>(alloc: Global, count: usize) -> Result<Vec<Column<'t>>, Memory>
    ensures { IfOk result (λ columns. length columns.items ≡ count) }
{
    let mut columns = Vec::new(alloc);
    for _made in 0..count {
        columns.push(Column::new())?;
    }
    Ok(columns)
}

/// Forgets all cells.
fn clear(columns: &mut Vec<Column>)
    ensures { AreMeasured (length columns.old.items) [] columns.new.items }
{
    for place in 0..columns.len() {
        columns[place] = Column::new();
    }
}

/// One row more.
fn add_row<'t>(columns: &mut Vec<Column<'t>>, cells: &'t [u8])
    requires many { length (words_of cells.now) ≡ length columns.old.items }
    requires room { HaveRoom columns.old.items }
    ensures { HasRow columns.old.items columns.new.items (words_of cells.entry.now) }
{
    let mut rest = cells;
    for place in 0..columns.len() {
        match cut_word(rest) {
            Some((cell, after)) => {
                columns[place].add(cell);
                rest = after;
            }
            None => return,
        }
    }
}

/// Keeps what is to be kept of these rows.
fn measure<'t>(columns: &mut Vec<Column<'t>>, rows: &[Row<'t>])
    requires rows { AllByRecursion (IsRow (length columns.old.items)) (rows_of rows.now) }
    ensures { AreMeasured (length columns.old.items) (rows_of rows.now) columns.new.items }
{
    clear(columns);
    for place in 0..rows.len() {
        add_row(columns, rows[place].cells);
    }
}

/// Writes the line of a column.
fn write_line<K: Sink>(
    line: &mut Vec<u8>,
    label: &[u8],
    count: u64,
    column: &Column,
    sink: &mut K,
) -> Result<(), SinkErr>
    ensures { WritesText K.taken K.faults sink.old sink.new (measured_line label.now count column.now) result }
{
    line.clear();
    match column.push_line(line, label, count) {
        Ok(()) => put_all(sink, line),
        Err(Memory) => Err(SinkErr::Memory),
    }
}

/// Writes the lines of all columns.
fn write_lines<K: Sink>(
    line: &mut Vec<u8>,
    labels: &[u8],
    count: u64,
    columns: &Vec<Column>,
    sink: &mut K,
) -> Result<(), SinkErr>
    requires many { length (words_of labels.now) ≡ length columns.now.items }
    ensures { WritesText K.taken K.faults sink.old sink.new
        (pieces_text (measured_piece (words_of labels.now) count columns.now.items) (length columns.now.items)) result }
{
    let mut rest = labels;
    for place in 0..columns.len() {
        match cut_word(rest) {
            Some((label, after)) => {
                match write_line(line, label, count, &columns[place], sink) {
                    Ok(()) => rest = after,
                    Err(error) => return Err(error),
                }
            }
            None => return Ok(()),
        }
    }
    Ok(())
}

/// Writes the statistics of some rows, line by line.
pub(crate) fn write_group<'t, K: Sink>(
    kept: &mut Kept<'t>,
    labels: &[u8],
    rows: &[Row<'t>],
    sink: &mut K,
) -> Result<(), SinkErr>
    requires many { length (words_of labels.now) ≡ length kept.old.columns.items }
    requires rows { AllByRecursion (IsRow (length kept.old.columns.items)) (rows_of rows.now) }
    ensures same { length kept.new.columns.items ≡ length kept.old.columns.items }
    ensures wrote { WritesText K.taken K.faults sink.old sink.new
        (group_text (words_of labels.now) (rows_of rows.now)) result }
{
    measure(&mut kept.columns, rows);
    write_lines(
        &mut kept.line,
        labels,
        rows.len() as u64,
        &kept.columns,
        sink,
    )
}
