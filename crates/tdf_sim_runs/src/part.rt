//! A run of a model up to a stop at which it waits.

use crate::paused::Paused;
use crate::run::Ran;

/// What came of a run up to a stop.
#[derive(Drop)]
pub enum Part {
    /// It waits there, and can go on.
    Paused(Paused),
    /// It ended before.
    Ended(Ran),
}

ghost use Rattle.std.specs.Prelude.{◌≡◌, ◌<◌, IfOk, List, OnOk};
ghost use Rattle.tdf_base.specs.Limits.{time_end};
ghost use Rattle.tdf_io.specs.Faults.{CountsTwoSinks};
ghost use Rattle.tdf_io.specs.declared.writing.SinkErr.TheVariants.{Failed};
ghost use Rattle.tdf_lang_tree.specs.Pure.{PureTree};
ghost use Rattle.tdf_sim_history.specs.World.{Change};
ghost use Rattle.tdf_sim_instants.specs.InstantLaws.{IsModelOf};
ghost use Rattle.tdf_sim_notes.specs.Ending.{HaveAnswers};
ghost use Rattle.tdf_sim_runs.specs.Parts.{IfPaused, PartsAs};
ghost use Rattle.tdf_sim_runs.specs.Paused.{IsPaused};
ghost use Rattle.tdf_sim_runs.specs.machine.Parting.{part_of};
ghost use Rattle.tdf_sim_runs.specs.Runs.{CanRun};

use crate::pausing::{Arrival, pause};
use crate::rest::Until;
use crate::run::{Request, begin_run};
use std::alloc::Global;
use tdf_bind::Flat;
use tdf_dynamic_first::First;
use tdf_io::{Sink, SinkErr};
use tdf_sim_notes::law_report;

/// A run that came to its stop, or ended before, with what it was asked for.
fn part_of(flat: Flat, arrival: Arrival, request: Request) -> Part
    ensures { result ≡ part_of flat request.kind request.turns arrival }
{
    match arrival {
        Arrival::Waiting(run) => Part::Paused(Paused {
            flat,
            run,
            kind: request.kind,
            turns: request.turns,
        }),
        Arrival::Ended(ran) => {
            drop(flat);
            Part::Ended(ran)
        }
    }
}

/// Runs a model from its first plans up to the stop of a request and waits there, where its turns reach so far and no boundary has a
/// fault; else it ends as `run_model` has it. At the stop it has written on `out` the head of the trace and the rows that no later
/// instant changes, and on `notes` all plans. What it writes is that of the history which is told the answers of the boundaries.
///
/// # Errors
/// A write failed, or out of memory. Both sinks then hold front parts of their texts. Where no write failed, no count of faults
/// changes.
pub fn run_part<O: Sink, N: Sink>(
    alloc: Global,
    flat: Flat,
    firsts: Vec<First>,
    request: Request,
    out: &mut O,
    notes: &mut N,
) -> Result<Part, SinkErr>
    requires can { CanRun flat firsts.items }
    requires stop { request.stop < time_end }
    ensures answered { (model : PureTree) → IsModelOf model flat → OnOk result
        ((ahead : List (List Change))
        × HaveAnswers model flat firsts.items ahead request.stop request.turns) }
    ensures parts { (model : PureTree) → IsModelOf model flat → (ahead : List (List Change))
        → HaveAnswers model flat firsts.items ahead request.stop request.turns
        → PartsAs request.kind model flat firsts.items ahead request.stop request.turns
        (O.taken out.old) (O.taken out.new) (N.taken notes.old) (N.taken notes.new) result }
    ensures paused { IfOk result (λ part. IfPaused part IsPaused) }
    ensures counts { CountsTwoSinks Failed (O.faults out.old) (O.faults out.new)
        (N.faults notes.old) (N.faults notes.new) result }
{
    law_report();
    let run = match begin_run(alloc, &flat, firsts, request, out, notes) {
        Ok(run) => run,
        Err(error) => {
            drop(flat);
            return Err(error);
        }
    };
    let until = Until {
        stop: request.stop,
        turns: request.turns,
    };
    match pause(alloc, &flat, run, until, out, notes) {
        Ok(arrival) => Ok(part_of(flat, arrival, request)),
        Err(error) => {
            drop(flat);
            Err(error)
        }
    }
}
