//! The job `load`: a run with a table that is not written, and a line on what it took.

ghost use Rattle.std.specs.Prelude.{◌≡◌, ◌<◌, ℕ, List, Option, IfOk, IsErrOf, OnErr, string_bytes};
ghost use Rattle.tdf_cli.specs.Input.{Text};
ghost use Rattle.tdf_cli.specs.Outcome.{WritesNothingOrFront, WritesOutcome, load_end, load_line, rows_below, turns_taken};
ghost use Rattle.tdf_cli.specs.Runs.{status_of};
ghost use Rattle.tdf_cli.specs.machine.Texts.{IsMeasured};
ghost use Rattle.tdf_sim.specs.Runs.{IsAcceptedTree, IsSomeAccepted};
ghost use Rattle.tdf_base.specs.Limits.{time_end};
ghost use Rattle.tdf_lang_parser.specs.Refused.{SpellsText};
ghost use Rattle.tdf_io.specs.Faults.{FaultsRose};
ghost use Rattle.tdf_io.specs.declared.writing.SinkErr.TheVariants as why;
ghost use Rattle.tdf_lang_tree.specs.Pure.{PureTree};
ghost use Rattle.tdf_cli_words.specs.declared.asked.Settings.TheVariants.{Load};

use crate::laws::law_one_outcome;
use crate::run::status_of;
use crate::status::Status;
use std::alloc::Global;
use std::mem;
use tdf_base::{Memory, Resolution};
use tdf_io::{Sink, SinkErr, SureSink, put_all};
use tdf_sim::{End, Sim};
use tdf_trace_rows::TraceKind;

/// The turns that the run of `load` may take.
const LOAD_TURNS: u64 = 100_000_000;

/// Where it ends: at 100 us, in counts of a resolution.
fn load_end(unit: Resolution) -> u64
    ensures value { result ≡ load_end unit }
    ensures early { result < time_end }
{
    match unit {
        Resolution::Ps => 100_000_000,
        Resolution::Fs => 100_000_000_000,
    }
}

/// The turns that it took.
fn turns_taken(end: &End) -> u64
    ensures { result ≡ turns_taken end.now }
{
    match end {
        End::Reached { turns, .. } => *turns,
        End::Stopped { .. } => LOAD_TURNS,
        End::Spent { .. } => LOAD_TURNS,
    }
}

/// The rows of a table below its head.
fn rows_below(table: &[u8]) -> usize
    ensures { result ≡ rows_below table.now }
{
    let lines = table.iter().filter(|byte| **byte == b'\n').count();
    lines.saturating_sub(1)
}

/// The line on a run that took so many turns and made this table.
#[tactic(auto, unfolding(crate::specs::Outcome::load_line), using(crate::proofs::Outcomes::text_lemmas))]
fn load_line(alloc: Global, size: u64, turns: u64, table: &[u8]) -> Result<String, Memory>
    ensures { IfOk result (λ line. string_bytes line ≡ load_line size turns table.now) }
{
    let rows = rows_below(table);
    let bytes = table.len();
    Ok(format!(in alloc; "load size {size} turns {turns} rows {rows} bytes {bytes}\n")?)
}

/// How a run ended, and the line on it.
#[derive(Drop)]
struct Measurement {
    status: Status,
    line: String,
}

/// What is told of a run that ended so and made this table.
fn measured_by(alloc: Global, size: u64, end: &End, table: &[u8]) -> Result<Measurement, Memory>
    ensures status { IfOk result (λ m. m.status ≡ status_of end.now) }
    ensures line { IfOk result (λ m. string_bytes m.line ≡ load_line size (turns_taken end.now)
        table.now) }
{
    let line = load_line(alloc, size, turns_taken(end), table)?;
    Ok(Measurement {
        status: status_of(end),
        line,
    })
}

/// Runs a model that was accepted, with a table that is kept in memory.
fn measured(alloc: Global, sim: Sim, size: u64) -> Result<Measurement, Memory>
    requires accepted { IsSomeAccepted sim }
    ensures { (tree : PureTree) → IsAcceptedTree tree sim → IfOk result (IsMeasured tree sim size) }
{
    let mut table = SureSink::new(alloc);
    let mut notes = SureSink::new(alloc);
    let end = load_end(sim.flat.resolution);
    match sim.run(
        alloc,
        end,
        LOAD_TURNS,
        TraceKind::Table,
        &mut table,
        &mut notes,
    ) {
        Ok(ran) => {
            let measured = measured_by(alloc, size, &ran.end, table.bytes());
            mem::forget(ran);
            measured
        }
        Err(_) => Err(Memory),
    }
}

/// Runs a model that was accepted, writes a line on what that took, and answers how it ended.
pub(crate) fn measure<O: Sink>(
    alloc: Global,
    sim: Sim,
    size: u64,
    out: &mut O,
) -> Result<Status, SinkErr>
    requires accepted { IsSomeAccepted sim }
    ensures all { (tree : PureTree) (text : List ℕ) (seed : ℕ) (notes : Option (List ℕ))
        → SpellsText text tree → IsAcceptedTree tree sim
        → IfOk result (λ s. WritesOutcome (Text (Load seed size) text) s (O.taken out.old)
        (O.taken out.new) notes notes) }
    ensures part { (tree : PureTree) (text : List ℕ) (seed : ℕ) (notes : Option (List ℕ))
        → SpellsText text tree → IsAcceptedTree tree sim
        → OnErr result (WritesNothingOrFront (Text (Load seed size) text) (O.taken out.old)
        (O.taken out.new) notes notes) }
    ensures cause { IsErrOf result why.Failed → FaultsRose (O.faults out.old) (O.faults out.new) }
    ensures kept { ¬ IsErrOf result why.Failed → O.faults out.new ≡ O.faults out.old }
{
    law_one_outcome();
    match measured(alloc, sim, size) {
        Ok(measured) => match put_all(out, measured.line.as_bytes()) {
            Ok(()) => Ok(measured.status),
            Err(error) => Err(error),
        },
        Err(_) => Err(SinkErr::Memory),
    }
}
