//! When a table can't drive a model.

ghost use Rattle.std.specs.Prelude.{◌≡◌, ◌∷◌, [], ◌++◌, ◌+◌, ◌<◌, ◌≤◌, None, Some, false, true, length, map, IfErr, IfOk, IfSome, OnErr, OnOk, ◌&&◌, is_some};
ghost use Rattle.tdf_stim.specs.Drivable.{first_row_line, has_long, is_long, is_off, is_too_large, without_minus};
ghost use Rattle.tdf_stim.specs.Driver.{counts};
ghost use Rattle.tdf_stim.specs.declared.err.StimErr.TheVariants as why;
ghost use Rattle.tdf_stim.specs.machine.Counted.{count_driving};
ghost use Rattle.tdf_stim.specs.machine.Maps.{seen};
ghost use Rattle.tdf_stim.specs.machine.Refused.{IsDigits, IsMemory, IsTime};
ghost use Rattle.tdf_tables.specs.Rows.{row_of};
ghost use Rattle.tdf_tables.specs.Words.{words_of};

use crate::err::StimErr;
use crate::signals::Source;
use std::alloc::Global;
use tdf_base::{
    GREATEST_RATE, HEAVIEST_BODY, Memory, Resolution, TIME_END, femtoseconds_of_count, is_short,
    row_number, split,
};
use tdf_tables::{Row, cut_word};

/// How many columns drive.
pub(crate) fn count_driving(sources: &[Option<Source>]) -> usize
    ensures count { result ≡ count_driving (map seen sources.now) }
    ensures few { result ≤ length sources.now }
{
    let mut count = 0;
    for source in sources {
        if source.is_some() {
            count += 1;
        }
    }
    count
}

/// Whether an array would be too long or the driver's body too heavy.
#[tactic(auto, using(crate::proofs::CheckedRows::product_above, std::proofs::lemmas::Bool::Decides::nat_tests))]
pub(crate) fn is_too_large(rows: usize, columns: usize) -> bool
    requires { 0 < rows }
    ensures { result ≡ is_too_large rows columns }
{
    if columns == 0 {
        return false;
    }
    if rows as u64 > GREATEST_RATE || columns as u64 > HEAVIEST_BODY {
        return true;
    }
    rows as u64 * (2 + columns as u64) + 2 > HEAVIEST_BODY
}

/// The cell without the `-` in front.
fn without_minus(cell: &[u8]) -> &[u8]
    ensures { result.now ≡ without_minus cell.now }
{
    match cell {
        [b'-', digits @ ..] => digits,
        _ => cell,
    }
}

/// Whether a cell has more than 18 digits on one side of its point.
fn is_long(cell: &[u8]) -> bool
    ensures { result ≡ is_long cell.now }
{
    match split(without_minus(cell)) {
        None => false,
        Some(numeral) => !is_short(&numeral),
    }
}

/// Whether the column drives and the cell is too long.
fn is_long_at(source: &Option<Source>, cell: &[u8]) -> bool
    ensures { result ≡ (is_some source.now && is_long cell.now) }
{
    source.is_some() && is_long(cell)
}

/// Whether a cell of a driving column is too long.
fn has_long(sources: &[Option<Source>], cells: &[u8]) -> bool
    ensures { result ≡ has_long (map seen sources.now) (words_of cells.now) }
{
    let mut rest = cells;
    for source in sources {
        match cut_word(rest) {
            None => return false,
            Some((cell, after)) => {
                if is_long_at(source, cell) {
                    return true;
                }
                rest = after;
            }
        }
    }
    false
}

/// The line of the row at a place, counted from the head. More lines do not fit in memory.
fn line_at(place: usize) -> Result<u32, Memory>
    ensures line { IfOk result (λ line. line ≡ place + 2) }
    ensures large { OnErr result (4294967293 < place) }
{
    let before = row_number(place)?;
    match before.checked_add(2) {
        Some(line) => Ok(line),
        None => Err(Memory),
    }
}

/// The refusal of the digits of the row at a place.
fn digits_at(place: usize) -> StimErr
    ensures digits { IsDigits (Some (place + 2)) result }
    ensures large { result ≡ why.Memory → 4294967293 < place }
{
    match line_at(place) {
        Ok(line) => StimErr::Digits(line),
        Err(_) => StimErr::Memory,
    }
}

/// Looks for driving cells that are too long.
///
/// # Errors
/// `Digits` with the first line that has one; out of memory.
pub(crate) fn check_digits(sources: &[Option<Source>], rows: &[Row]) -> Result<(), StimErr>
    ensures short { OnOk result (first_row_line (λ row. has_long (map seen sources.now) row.cells) (map row_of rows.now) ≡ None) }
    ensures refused { IfErr result (IsDigits (first_row_line (λ row. has_long (map seen sources.now) row.cells) (map row_of rows.now))) }
{
    for i in 0..rows.len() {
        if has_long(sources, rows[i].cells) {
            return Err(digits_at(i));
        }
    }
    Ok(())
}

/// A time in fs as a count of a resolution; none where it is no whole count below 10^18.
fn count(unit: Resolution, time: u128) -> Option<u64>
    ensures some { IfSome result (λ n. (n ≡ counts unit time) × (is_off unit time ≡ false)) }
    ensures none { result ≡ None → is_off unit time ≡ true }
{
    let one = u128::from(femtoseconds_of_count(unit));
    if time % one != 0 {
        return None;
    }
    let count = time / one;
    if count < u128::from(TIME_END) {
        return Some(count as u64);
    }
    None
}

/// One time more.
fn put(times: &mut Vec<u64>, time: u64) -> Result<(), StimErr>
    ensures put { OnOk result (times.new.items ≡ times.old.items ++ time ∷ []) }
    ensures memory { IfErr result (λ e. IsMemory e) }
{
    match times.push(time) {
        Ok(()) => Ok(()),
        Err(_) => Err(StimErr::Memory),
    }
}

/// The refusal of the time of the row at a place.
fn time_at(place: usize) -> StimErr
    ensures time { IsTime (Some (place + 2)) result }
    ensures large { result ≡ why.Memory → 4294967293 < place }
{
    match line_at(place) {
        Ok(line) => StimErr::Time(line),
        Err(_) => StimErr::Memory,
    }
}

/// The times of rows as counts of a resolution.
///
/// # Errors
/// `Time` with the first line whose time is no whole count below 10^18; out of memory.
pub(crate) fn times(alloc: Global, unit: Resolution, rows: &[Row]) -> Result<Vec<u64>, StimErr>
    ensures times { IfOk result (λ times. times.items ≡ map (λ row. counts unit row.time) (map row_of rows.now)) }
    ensures on { OnOk result (first_row_line (λ row. is_off unit row.time) (map row_of rows.now) ≡ None) }
    ensures refused { IfErr result (IsTime (first_row_line (λ row. is_off unit row.time) (map row_of rows.now))) }
{
    let mut times = Vec::new(alloc);
    for i in 0..rows.len() {
        match count(unit, rows[i].time) {
            Some(time) => put(&mut times, time)?,
            None => return Err(time_at(i)),
        }
    }
    Ok(times)
}
