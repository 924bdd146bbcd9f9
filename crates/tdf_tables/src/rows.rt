//! Rows, read one after the other.

ghost use Rattle.std.specs.Prelude.{◌≡◌, ◌++◌, ◌∷◌, ◌≤◌, ◌<◌, ◌+◌, ◌^◌, ◌⊎◌, [], ℕ, List, None, true, false};
ghost use Rattle.std.specs.Prelude.{IfSome, IfOk, IfErr, OnOk, length, map};
ghost use Rattle.tdf_tables.specs.Rows.{row_of};
ghost use Rattle.tdf_tables.specs.Tables.{AreRows, FollowsTime, IsRow, TableRow, last_time, table_row_text, table_rows_text};
ghost use Rattle.tdf_tables.specs.machine.Body.{HasFault, IsMemory, IsRowsText, IsWhy, seen};
ghost use Rattle.tdf_tables.specs.machine.Scan.{is_next};

use crate::err::TableErr;
use crate::lines::{are_cells, cut_line};
use crate::table::{Row, cut_space};
use crate::times::read_seconds;
use std::alloc::{AllocFailed, Global};

/// Whether a time may come after the one before it.
fn is_next(before: Option<u128>, time: u128) -> bool
    ensures { result ≡ is_next before time }
{
    match before {
        None => time == 0,
        Some(last) => last < time,
    }
}

/// The row that a line is.
fn read_row<'t>(line: &'t [u8], columns: usize) -> Option<Row<'t>>
    ensures row { IfSome result (λ r. IsRow columns (row_of r)) }
    ensures is { IfSome result (λ r. line.entry.now ++ 10 ∷ [] ≡ table_row_text (row_of r)) }
    ensures none { result ≡ None → (row : TableRow) → IsRow columns row → ¬ (line.entry.now ++ 10 ∷ [] ≡ table_row_text row) }
{
    let (time, cells) = cut_space(line);
    if !are_cells(columns, cells) {
        return None;
    }
    match read_seconds(time) {
        Some(time) => Some(Row { time, cells }),
        None => None,
    }
}

/// The next row, and what comes after it.
fn next_row<'t>(text: &'t [u8], columns: usize, before: Option<u128>) -> Option<(Row<'t>, &'t [u8])>
    ensures row { IfSome result (λ p. IsRow columns (row_of p.0)) }
    ensures next { IfSome result (λ p. FollowsTime before p.0.time) }
    ensures cut { IfSome result (λ p. text.entry.now ≡ table_row_text (row_of p.0) ++ p.1.now) }
    ensures none { result ≡ None → (row : TableRow) (more : List ℕ) → IsRow columns row → FollowsTime before row.time
        → ¬ (text.entry.now ≡ table_row_text row ++ more) }
{
    let Some((line, rest)) = cut_line(text) else {
        return None;
    };
    match read_row(line, columns) {
        Some(row) => {
            if !is_next(before, row.time) {
                return None;
            }
            Some((row, rest))
        }
        None => None,
    }
}

/// One row more.
fn put<'t>(rows: &mut Vec<Row<'t>>, row: Row<'t>) -> Result<(), TableErr>
    ensures put { OnOk result (rows.new.items ≡ rows.old.items ++ row.entry ∷ []) }
    ensures memory { IfErr result (λ e. IsMemory e) }
{
    match rows.push(row) {
        Ok(()) => Ok(()),
        Err(_) => Err(TableErr::Memory),
    }
}

/// Whether there must be a further row: there is more text, or no row yet.
fn goes_on(rest: &[u8], before: Option<u128>) -> bool
    ensures more { result ≡ true → (before ≡ None) ⊎ (0 < length rest.now) }
    ensures end { result ≡ false → (rest.now ≡ []) × ¬ (before ≡ None) }
{
    match before {
        None => true,
        Some(_) => !rest.is_empty(),
    }
}

/// All rows of what follows the head of a table with so many columns.
pub(crate) fn read_rows<'t>(
    alloc: Global,
    text: &'t [u8],
    columns: usize,
) -> Result<Vec<Row<'t>>, TableErr>
    requires { length text.now < 2 ^ 31 }
    ensures rows { IfOk result (λ v. IsRowsText columns text.entry.now (seen v.items)) }
    ensures refused { IfErr result (IsWhy columns text.entry.now) }
{
    let mut rows = Vec::new(alloc);
    let mut rest = text;
    let mut before = None;
    let mut line = 2;
    while goes_on(rest, before) {
        match next_row(rest, columns, before) {
            Some((row, after)) => {
                put(&mut rows, row)?;
                before = Some(row.time);
                rest = after;
                line += 1;
            }
            None => return Err(TableErr::Line(line)),
        }
    }
    Ok(rows)
}
