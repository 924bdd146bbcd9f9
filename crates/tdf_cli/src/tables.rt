//! The jobs on a table: `sample` and `stats`.

ghost use Rattle.std.specs.Prelude.{◌≡◌, ◌≤◌, List, ℕ, IfOk, IfSome, OnErr, length};
ghost use Rattle.tdf_cli.specs.Input.{Text};
ghost use Rattle.tdf_cli.specs.Outcome.{WritesNothingOrFront, WritesOutcome};
ghost use Rattle.tdf_cli.specs.declared.status.Status.TheVariants.{Done};
ghost use Rattle.tdf_cli_words.specs.Jobs.{IsChoice, IsWithin};
ghost use Rattle.tdf_cli_words.specs.declared.asked.Settings.TheVariants.{Sample, Stats};
ghost use Rattle.tdf_io.specs.Bytes.{WritesText};
ghost use Rattle.tdf_io.specs.Faults.{CountsTwoSinks};
ghost use Rattle.tdf_io.specs.declared.writing.SinkErr.TheVariants as why;
ghost use Rattle.tdf_sampling.specs.Statistics.{stats_text};
ghost use Rattle.tdf_tables.specs.Tables.{IsTableForm, SpellsTable, longest_table, table_text};

use crate::laws::law_one_outcome;
use crate::notes::{noted, refuse_line};
use crate::status::Status;
use std::alloc::Global;
use tdf_io::{Sink, SinkErr};
use tdf_sampling::{Choice, ChooseErr, choose, write_stats};
use tdf_tables::{Table, TableErr, read_table, write_table};

/// Writes a table, and answers `Done`.
fn put_table<O: Sink>(alloc: Global, table: &Table, out: &mut O) -> Result<Status, SinkErr>
    ensures status { IfOk result (λ s. s ≡ Done) }
    ensures writes { WritesText O.taken O.faults out.old out.new (table_text table.now) result }
{
    match write_table(alloc, table, out) {
        Ok(()) => Ok(Status::Done),
        Err(error) => Err(error),
    }
}

/// Writes the statistics of a table, and answers `Done`.
fn put_stats<O: Sink>(
    alloc: Global,
    table: &Table,
    window: Option<u64>,
    out: &mut O,
) -> Result<Status, SinkErr>
    requires table { IsTableForm table.now }
    requires window { IfSome window (λ step. 1 ≤ step) }
    ensures status { IfOk result (λ s. s ≡ Done) }
    ensures writes { WritesText O.taken O.faults out.old out.new (stats_text table.now window)
        result }
{
    match write_stats(alloc, table, window, out) {
        Ok(()) => Ok(Status::Done),
        Err(error) => Err(error),
    }
}

/// Writes the rows of a choice.
fn sample_table<O: Sink, N: Sink>(
    alloc: Global,
    table: &Table,
    choice: Choice,
    out: &mut O,
    notes: &mut N,
) -> Result<Status, SinkErr>
    requires table { IsTableForm table.now }
    requires within { IsChoice choice }
    ensures all { IfOk result (λ s. (text : List ℕ) → SpellsTable text table.now
        → WritesOutcome (Text (Sample choice) text) s
        (O.taken out.old) (O.taken out.new) (N.taken notes.old) (N.taken notes.new)) }
    ensures part { OnErr result ((text : List ℕ) → SpellsTable text table.now
        → WritesNothingOrFront (Text (Sample choice) text)
        (O.taken out.old) (O.taken out.new) (N.taken notes.old) (N.taken notes.new)) }
    ensures counts { CountsTwoSinks why.Failed (O.faults out.old) (O.faults out.new)
        (N.faults notes.old) (N.faults notes.new) result }
{
    law_one_outcome();
    match choose(alloc, table, choice) {
        Ok(chosen) => put_table(alloc, &chosen, out),
        Err(ChooseErr::Grid) => noted(notes, b"refused GRID\n", Status::Refused),
        Err(ChooseErr::Memory) => Err(SinkErr::Memory),
    }
}

/// Does the job `sample` for a text.
pub(crate) fn sample<O: Sink, N: Sink>(
    alloc: Global,
    text: &Vec<u8>,
    choice: Choice,
    out: &mut O,
    notes: &mut N,
) -> Result<Status, SinkErr>
    requires text { length text.now.items ≤ longest_table }
    requires within { IsChoice choice }
    ensures all { IfOk result (λ s. WritesOutcome (Text (Sample choice) text.now.items) s
        (O.taken out.old) (O.taken out.new) (N.taken notes.old) (N.taken notes.new)) }
    ensures part { OnErr result (WritesNothingOrFront (Text (Sample choice) text.now.items)
        (O.taken out.old) (O.taken out.new) (N.taken notes.old) (N.taken notes.new)) }
    ensures counts { CountsTwoSinks why.Failed (O.faults out.old) (O.faults out.new)
        (N.faults notes.old) (N.faults notes.new) result }
{
    law_one_outcome();
    match read_table(alloc, text) {
        Ok(table) => sample_table(alloc, &table, choice, out, notes),
        Err(TableErr::Line(line)) => refuse_line(alloc, notes, b"TABLE", line),
        Err(TableErr::Memory) => Err(SinkErr::Memory),
    }
}

/// Does the job `stats` for a text.
pub(crate) fn stats<O: Sink, N: Sink>(
    alloc: Global,
    text: &Vec<u8>,
    window: Option<u64>,
    out: &mut O,
    notes: &mut N,
) -> Result<Status, SinkErr>
    requires text { length text.now.items ≤ longest_table }
    requires within { IsWithin (Stats window) }
    ensures all { IfOk result (λ s. WritesOutcome (Text (Stats window) text.now.items) s
        (O.taken out.old) (O.taken out.new) (N.taken notes.old) (N.taken notes.new)) }
    ensures part { OnErr result (WritesNothingOrFront (Text (Stats window) text.now.items)
        (O.taken out.old) (O.taken out.new) (N.taken notes.old) (N.taken notes.new)) }
    ensures counts { CountsTwoSinks why.Failed (O.faults out.old) (O.faults out.new)
        (N.faults notes.old) (N.faults notes.new) result }
{
    law_one_outcome();
    match read_table(alloc, text) {
        Ok(table) => put_stats(alloc, &table, window, out),
        Err(TableErr::Line(line)) => refuse_line(alloc, notes, b"TABLE", line),
        Err(TableErr::Memory) => Err(SinkErr::Memory),
    }
}
