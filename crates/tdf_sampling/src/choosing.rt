//! The rows of a choice.

ghost use Rattle.std.specs.Prelude.{◌≡◌, ◌<◌, ◌≤◌, ◌++◌, ◌%◌, ◌/◌, ◌+◌, ◌*◌, ◌^◌, Err, IfOk, OnOk, length, nat_eq, true};
ghost use Rattle.tdf_sampling.specs.Choice.{chosen_table, chosen_rows, end_time, every, femtoseconds, is_too_fine, most_steps, nth, choice_number};
ghost use Rattle.tdf_sampling.specs.declared.asked.ChooseErr.TheVariants.{Grid};
ghost use Rattle.tdf_sampling.specs.declared.asked.Choice.TheVariants.{Every};
ghost use Rattle.tdf_sampling.specs.machine.Choosing.{HasBegun, every_upto, passed_upto, rows_from, taken};
ghost use Rattle.tdf_sampling.specs.machine.Windows.{AreRising, rows_of};
ghost use Rattle.tdf_tables.specs.Rows.{row_of};
ghost use Rattle.tdf_tables.specs.Tables.{IsTableForm};

use crate::asked::{Choice, ChooseErr};
use std::alloc::Global;
use tdf_base::Memory;
use tdf_tables::{Row, Table};

/// Femtoseconds in a picosecond.
pub(crate) const FEMTOSECONDS: u128 = 1_000;
/// So many steps are too many.
const MOST_STEPS: u128 = 10_000_000;

fn takes(place: usize, step: u64) -> bool
    requires { 0 < step }
    ensures { result ≡ nat_eq (place % step) 0 }
{
    place as u64 % step == 0
}

/// Takes the row at a place, if it is one of every `step`-th.
fn take_row<'t>(
    chosen: &mut Vec<Row<'t>>,
    row: Row<'t>,
    place: usize,
    step: u64,
) -> Result<(), Memory>
    requires { 0 < step }
    ensures { OnOk result (rows_of chosen.new.items ≡ rows_of chosen.old.items ++ taken step place (row_of row.entry)) }
{
    if !takes(place, step) {
        return Ok(());
    }
    chosen.push(row)?;
    Ok(())
}

/// Every `step`-th row.
fn nth<'t>(alloc: Global, rows: &[Row<'t>], step: u64) -> Result<Vec<Row<'t>>, Memory>
    requires { 0 < step }
    ensures { IfOk result (λ v. rows_of v.items ≡ nth step (rows_of rows.now)) }
{
    let mut chosen = Vec::new(alloc);
    for place in 0..rows.len() {
        take_row(&mut chosen, rows[place], place, step)?;
    }
    Ok(chosen)
}

/// How many rows from the front on are at or before a time.
#[tactic(auto, using(crate::proofs::Counts::count_laws))]
fn count_upto(rows: &[Row], time: u128) -> usize
    ensures count { result ≡ passed_upto time rows.now }
    ensures within { result ≤ length rows.now }
{
    rows.iter().take_while(|row| row.time <= time).count()
}

/// The rows from the last one at or before a time on.
fn rows_from<'s, 't>(rows: &'s [Row<'t>], time: u128) -> &'s [Row<'t>]
    requires { 0 < length rows.now }
    ensures rest { rows_of result.now ≡ rows_from time (rows_of rows.entry.now) }
    ensures some { 0 < length result.now }
{
    let passed = count_upto(&rows[1..], time);
    &rows[passed..]
}

/// A row at each of the first `count` multiples of a step.
fn steps<'t>(
    alloc: Global,
    rows: &[Row<'t>],
    step: u128,
    count: u64,
) -> Result<Vec<Row<'t>>, Memory>
    requires some { 0 < length rows.now }
    requires rising { AreRising 0 (rows_of rows.now) }
    requires first { HasBegun 0 (rows_of rows.now) }
    requires few { count ≤ most_steps }
    requires small { step ≤ 2 ^ 80 }
    ensures { IfOk result (λ v. rows_of v.items ≡ every_upto step (rows_of rows.now) count) }
{
    let mut chosen = Vec::new(alloc);
    let mut rest = rows;
    for k in 0..count {
        let time = u128::from(k) * step;
        rest = rows_from(rest, time);
        chosen.push(Row {
            time,
            cells: rest[0].cells,
        })?;
    }
    Ok(chosen)
}

/// The time of the last row.
fn end_time(rows: &[Row]) -> u128
    requires { 0 < length rows.now }
    ensures { result ≡ end_time (rows_of rows.now) }
{
    rows[rows.len() - 1].time
}

/// A row at each multiple of a step in ps.
fn every<'t>(alloc: Global, rows: &[Row<'t>], step: u64) -> Result<Vec<Row<'t>>, ChooseErr>
    requires some { 0 < length rows.now }
    requires rising { AreRising 0 (rows_of rows.now) }
    requires first { HasBegun 0 (rows_of rows.now) }
    requires step { 0 < step }
    ensures rows { IfOk result (λ v. rows_of v.items ≡ every (step * femtoseconds) (rows_of rows.now)) }
    ensures grid { result ≡ Err Grid → is_too_fine (Every step) (rows_of rows.now) ≡ true }
    ensures fine { is_too_fine (Every step) (rows_of rows.now) ≡ true → result ≡ Err Grid }
{
    let count = end_time(rows) / (u128::from(step) * FEMTOSECONDS);
    if MOST_STEPS <= count {
        return Err(ChooseErr::Grid);
    }
    match steps(
        alloc,
        rows,
        u128::from(step) * FEMTOSECONDS,
        count as u64 + 1,
    ) {
        Ok(rows) => Ok(rows),
        Err(Memory) => Err(ChooseErr::Memory),
    }
}

/// The rows of a choice.
fn chosen_rows<'t>(
    alloc: Global,
    rows: &[Row<'t>],
    choice: Choice,
) -> Result<Vec<Row<'t>>, ChooseErr>
    requires some { 0 < length rows.now }
    requires rising { AreRising 0 (rows_of rows.now) }
    requires first { HasBegun 0 (rows_of rows.now) }
    requires number { 1 ≤ choice_number choice }
    ensures rows { IfOk result (λ v. rows_of v.items ≡ chosen_rows choice (rows_of rows.now)) }
    ensures grid { result ≡ Err Grid → is_too_fine choice (rows_of rows.now) ≡ true }
    ensures fine { is_too_fine choice (rows_of rows.now) ≡ true → result ≡ Err Grid }
{
    match choice {
        Choice::Every(step) => every(alloc, rows, step),
        Choice::Nth(step) => match nth(alloc, rows, step) {
            Ok(rows) => Ok(rows),
            Err(Memory) => Err(ChooseErr::Memory),
        },
    }
}

/// The table of a choice of rows. Its cells stay in the text of the table that it is made from.
///
/// # Errors
/// `Grid` exactly where the choice is `Every` and the last time divided by its step is 10,000,000 or more, and else only `Memory`:
/// out of memory.
pub fn choose<'t>(alloc: Global, table: &Table<'t>, choice: Choice) -> Result<Table<'t>, ChooseErr>
    requires number { 1 ≤ choice_number choice }
    requires table { IsTableForm table.now }
    ensures chosen { IfOk result (λ t. t ≡ chosen_table choice table.now) }
    ensures kept { IfOk result (λ t. IsTableForm t) }

    // Too many rows are refused, and no others.
    ensures grid { result ≡ Err Grid → is_too_fine choice table.now.rows ≡ true }
    ensures fine { is_too_fine choice table.now.rows ≡ true → result ≡ Err Grid }
{
    match chosen_rows(alloc, table.rows(), choice) {
        Ok(rows) => Ok(table.with_rows(rows)),
        Err(why) => Err(why),
    }
}
