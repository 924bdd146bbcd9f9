//! The job `save`: what there is of a run at its stop.

ghost use Rattle.std.specs.Prelude.{◌≡◌, ◌<◌, ◌≤◌, IfOk, OnErr, Some, length};
ghost use Rattle.tdf_base.specs.Limits.{longest_text, time_end};
ghost use Rattle.tdf_cli.specs.Input.{Text};
ghost use Rattle.tdf_cli.specs.Outcome.{WritesNothingOrFront, WritesOutcome};
ghost use Rattle.tdf_cli.specs.Runs.{status_of, stop_in};
ghost use Rattle.tdf_cli.specs.Saving.{HasSaveOutcome, HasStateOutcome, HasTraceOutcome, state_outcome};
ghost use Rattle.tdf_cli.specs.machine.Stages.{WritesOf};
ghost use Rattle.tdf_cli_words.specs.declared.asked.Settings.TheVariants.{Save};
ghost use Rattle.tdf_io.specs.Bytes.{WritesText};
ghost use Rattle.tdf_io.specs.Faults.{CountsTwoSinks};
ghost use Rattle.tdf_io.specs.declared.writing.SinkErr.TheVariants as why;
ghost use Rattle.tdf_lang_tree.specs.Pure.{PureTree};
ghost use Rattle.tdf_sim.specs.Runs.{IsAcceptedTree, IsSomeAccepted};
ghost use Rattle.tdf_sim.specs.Ends.{end_text};

use crate::input::LONGEST_STATE;
use crate::laws::law_one_outcome;
use crate::notes::{noted, refuse};
use crate::nowhere::Nowhere;
use crate::run::{status_of, stop_in};
use crate::status::Status;
use std::alloc::Global;
use std::mem;
use tdf_base::Resolution;
use tdf_bind_invariants::law_limits;
use tdf_cli_words::{RunOptions, SavePart};
use tdf_events_invariants::law_runnable;
use tdf_io::{Sink, SinkErr, put_all};
use tdf_sim::{
    End, Part, RunErr, Sim, SimErr, elaborate, law_first_fault, law_one_model, law_one_run,
    law_parts_alike, law_rests_alike, state_text, write_closing,
};

/// Writes the trace of a run up to its stop, in counts of the resolution of its model.
fn save_trace<O: Sink, N: Sink>(
    alloc: Global,
    sim: Sim,
    asked: RunOptions,
    end: u64,
    out: &mut O,
    notes: &mut N,
) -> Result<Status, SinkErr>
    requires stop { end < time_end }
    requires accepted { IsSomeAccepted sim }
    ensures writes { (tree : PureTree) → IsAcceptedTree tree sim
        → stop_in sim.flat.resolution asked.stop ≡ Some end
        → WritesOf (HasTraceOutcome asked tree) result
        (O.taken out.old) (O.taken out.new) (N.taken notes.old) (N.taken notes.new) }
    ensures counts { CountsTwoSinks why.Failed (O.faults out.old) (O.faults out.new)
        (N.faults notes.old) (N.faults notes.new) result }
{
    law_one_model();
    law_one_run();
    law_parts_alike();
    match sim.run_part(alloc, end, asked.turns, asked.kind, out, notes) {
        Ok(Part::Paused(paused)) => {
            mem::forget(paused);
            Ok(Status::Done)
        }
        Ok(Part::Ended(ran)) => {
            let status = status_of(&ran.end);
            mem::forget(ran);
            Ok(status)
        }
        Err(RunErr::WriteFault) => Err(SinkErr::Failed),
        Err(RunErr::Memory) => Err(SinkErr::Memory),
    }
}

/// Writes the text of a state, or notes that it is too long.
fn put_state<O: Sink, N: Sink>(bytes: &[u8], out: &mut O, notes: &mut N) -> Result<Status, SinkErr>
    ensures writes { WritesOf (λ o. o ≡ state_outcome bytes.now) result
        (O.taken out.old) (O.taken out.new) (N.taken notes.old) (N.taken notes.new) }
    ensures counts { CountsTwoSinks why.Failed (O.faults out.old) (O.faults out.new)
        (N.faults notes.old) (N.faults notes.new) result }
{
    if LONGEST_STATE < bytes.len() {
        return noted(notes, b"state too long\n", Status::StateTooLong);
    }
    match put_all(out, bytes) {
        Ok(()) => Ok(Status::Done),
        Err(error) => Err(error),
    }
}

/// Notes how a run of so many turns ended, and answers that.
fn note_end<N: Sink>(
    alloc: Global,
    unit: Resolution,
    turns: u64,
    end: &End,
    notes: &mut N,
) -> Result<Status, SinkErr>
    ensures status { IfOk result (λ s. s ≡ status_of end.now) }
    ensures writes { WritesText N.taken N.faults notes.old notes.new (end_text unit turns end.now)
        result }
{
    match write_closing(alloc, unit, turns, end, notes) {
        Ok(()) => Ok(status_of(end)),
        Err(error) => Err(error),
    }
}

/// Writes the state of a run at its stop, with the text of its model; or notes how it ended before.
fn save_state<O: Sink, N: Sink>(
    alloc: Global,
    sim: Sim,
    text: &[u8],
    asked: RunOptions,
    end: u64,
    out: &mut O,
    notes: &mut N,
) -> Result<Status, SinkErr>
    requires stop { end < time_end }
    requires accepted { IsSomeAccepted sim }
    ensures writes { (tree : PureTree) → IsAcceptedTree tree sim
        → stop_in sim.flat.resolution asked.stop ≡ Some end
        → WritesOf (HasStateOutcome asked tree text.now) result
        (O.taken out.old) (O.taken out.new) (N.taken notes.old) (N.taken notes.new) }
    ensures counts { CountsTwoSinks why.Failed (O.faults out.old) (O.faults out.new)
        (N.faults notes.old) (N.faults notes.new) result }
{
    law_limits();
    law_one_model();
    law_one_run();
    law_parts_alike();
    law_rests_alike();
    law_runnable();
    let unit = sim.flat.resolution;
    let mut trace = Nowhere::new();
    let mut plans = Nowhere::new();
    match sim.run_part(alloc, end, asked.turns, asked.kind, &mut trace, &mut plans) {
        Ok(Part::Paused(paused)) => match state_text(alloc, &paused, text) {
            Ok(bytes) => {
                mem::forget(paused);
                put_state(&bytes, out, notes)
            }
            Err(_) => {
                drop(paused);
                Err(SinkErr::Memory)
            }
        },
        Ok(Part::Ended(ran)) => {
            let noted = note_end(alloc, unit, asked.turns, &ran.end, notes);
            mem::forget(ran);
            noted
        }
        Err(_) => Err(SinkErr::Memory),
    }
}

/// Writes a part of a run at its stop; or notes that the stop is too late for the resolution of its model.
fn save_part<O: Sink, N: Sink>(
    alloc: Global,
    sim: Sim,
    text: &[u8],
    part: SavePart,
    asked: RunOptions,
    out: &mut O,
    notes: &mut N,
) -> Result<Status, SinkErr>
    requires stop { asked.stop < time_end }
    requires accepted { IsSomeAccepted sim }
    ensures writes { (tree : PureTree) → IsAcceptedTree tree sim
        → WritesOf (HasSaveOutcome part asked tree text.now) result
        (O.taken out.old) (O.taken out.new) (N.taken notes.old) (N.taken notes.new) }
    ensures counts { CountsTwoSinks why.Failed (O.faults out.old) (O.faults out.new)
        (N.faults notes.old) (N.faults notes.new) result }
{
    law_one_model();
    law_one_run();
    law_parts_alike();
    law_rests_alike();
    match stop_in(sim.flat.resolution, asked.stop) {
        Some(end) => match part {
            SavePart::Trace => save_trace(alloc, sim, asked, end, out, notes),
            SavePart::State => save_state(alloc, sim, text, asked, end, out, notes),
        },
        None => {
            drop(sim);
            noted(notes, b"stop too long\n", Status::StopTooLong)
        }
    }
}

/// Does the job `save` for a text.
pub(crate) fn save<O: Sink, N: Sink>(
    alloc: Global,
    text: &Vec<u8>,
    part: SavePart,
    asked: RunOptions,
    out: &mut O,
    notes: &mut N,
) -> Result<Status, SinkErr>
    requires text { length text.now.items ≤ longest_text }
    requires stop { asked.stop < time_end }
    ensures all { IfOk result (λ s. WritesOutcome (Text (Save part asked) text.now.items) s
        (O.taken out.old) (O.taken out.new) (N.taken notes.old) (N.taken notes.new)) }
    ensures part { OnErr result (WritesNothingOrFront (Text (Save part asked) text.now.items)
        (O.taken out.old) (O.taken out.new) (N.taken notes.old) (N.taken notes.new)) }
    ensures counts { CountsTwoSinks why.Failed (O.faults out.old) (O.faults out.new)
        (N.faults notes.old) (N.faults notes.new) result }
{
    law_first_fault();
    law_one_outcome();
    match elaborate(alloc, text) {
        Ok(sim) => save_part(alloc, sim, text, part, asked, out, notes),
        Err(SimErr::Refused(fault)) => refuse(alloc, notes, fault),
        Err(SimErr::Memory) => Err(SinkErr::Memory),
    }
}
