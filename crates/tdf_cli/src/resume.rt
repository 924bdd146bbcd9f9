//! The job `resume`: a run goes on from the text of a state.

ghost use Rattle.std.specs.Prelude.{◌≡◌, ◌<◌, ◌≤◌, List, ℕ, IfOk, OnErr, Some};
ghost use Rattle.tdf_base.specs.Limits.{time_end};
ghost use Rattle.tdf_cli.specs.Input.{Text};
ghost use Rattle.tdf_cli.specs.Outcome.{WritesNothingOrFront, WritesOutcome};
ghost use Rattle.tdf_cli.specs.Resumed.{HasResumeOutcome};
ghost use Rattle.tdf_cli.specs.Runs.{stop_in};
ghost use Rattle.tdf_cli.specs.machine.Stages.{WritesOf};
ghost use Rattle.tdf_cli_words.specs.declared.asked.Settings.TheVariants.{Resume};
ghost use Rattle.tdf_io.specs.Faults.{CountsTwoSinks};
ghost use Rattle.tdf_io.specs.declared.writing.SinkErr.TheVariants as why;
ghost use Rattle.tdf_sim.specs.Ends.{IsPaused};
ghost use Rattle.tdf_sim.specs.States.{IsRunOf};

use crate::laws::law_one_outcome;
use crate::notes::noted;
use crate::run::{status_of, stop_in};
use crate::status::Status;
use std::alloc::Global;
use std::mem;
use tdf_io::{Sink, SinkErr};
use tdf_saved::StateErr;
use tdf_sim::{Paused, law_one_model, law_one_state, law_rests_alike, read_state};

/// Goes on with a run to a stop, in counts of the resolution of its model, and answers how it ended.
fn go_on<O: Sink, N: Sink>(
    alloc: Global,
    paused: Paused,
    end: u64,
    out: &mut O,
    notes: &mut N,
) -> Result<Status, SinkErr>
    requires paused { IsPaused paused }
    requires within { paused.run.from ≤ end }
    requires early { end < time_end }
    ensures writes { (bytes : List ℕ) (stop : ℕ) → (of : IsRunOf bytes paused)
        → stop_in of.sim.flat.resolution stop ≡ Some end
        → WritesOf (HasResumeOutcome stop bytes) result
        (O.taken out.old) (O.taken out.new) (N.taken notes.old) (N.taken notes.new) }
    ensures counts { CountsTwoSinks why.Failed (O.faults out.old) (O.faults out.new)
        (N.faults notes.old) (N.faults notes.new) result }
{
    law_one_model();
    law_one_state();
    law_rests_alike();
    match paused.resume(alloc, end, out, notes) {
        Ok(ran) => {
            let status = status_of(&ran.end);
            mem::forget(ran);
            Ok(status)
        }
        Err(error) => Err(error),
    }
}

/// Goes on with a run to a stop; or notes that this is too late for the resolution of its model, or before the time at which it waits.
fn go_on_to<O: Sink, N: Sink>(
    alloc: Global,
    paused: Paused,
    stop: u64,
    out: &mut O,
    notes: &mut N,
) -> Result<Status, SinkErr>
    requires paused { IsPaused paused }
    requires stop { stop < time_end }
    ensures writes { (bytes : List ℕ) → IsRunOf bytes paused
        → WritesOf (HasResumeOutcome stop bytes) result
        (O.taken out.old) (O.taken out.new) (N.taken notes.old) (N.taken notes.new) }
    ensures counts { CountsTwoSinks why.Failed (O.faults out.old) (O.faults out.new)
        (N.faults notes.old) (N.faults notes.new) result }
{
    law_one_model();
    law_one_state();
    law_rests_alike();
    match stop_in(paused.flat.resolution, stop) {
        Some(end) => {
            if end < paused.time() {
                drop(paused);
                return noted(notes, b"stop too early\n", Status::StopTooEarly);
            }
            go_on(alloc, paused, end, out, notes)
        }
        None => {
            drop(paused);
            noted(notes, b"stop too long\n", Status::StopTooLong)
        }
    }
}

/// Does the job `resume` for the bytes of a state.
pub(crate) fn resume<O: Sink, N: Sink>(
    alloc: Global,
    bytes: &Vec<u8>,
    stop: u64,
    out: &mut O,
    notes: &mut N,
) -> Result<Status, SinkErr>
    requires stop { stop < time_end }
    ensures all { IfOk result (λ s. WritesOutcome (Text (Resume stop) bytes.now.items) s
        (O.taken out.old) (O.taken out.new) (N.taken notes.old) (N.taken notes.new)) }
    ensures part { OnErr result (WritesNothingOrFront (Text (Resume stop) bytes.now.items)
        (O.taken out.old) (O.taken out.new) (N.taken notes.old) (N.taken notes.new)) }
    ensures counts { CountsTwoSinks why.Failed (O.faults out.old) (O.faults out.new)
        (N.faults notes.old) (N.faults notes.new) result }
{
    law_one_outcome();
    match read_state(alloc, bytes) {
        Ok(paused) => go_on_to(alloc, paused, stop, out, notes),
        Err(StateErr::Bad) => noted(notes, b"bad state\n", Status::BadState),
        Err(StateErr::Memory) => Err(SinkErr::Memory),
    }
}
